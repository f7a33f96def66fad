//! A header's cards as a change that isn't made would leave them, or as they are.
ghost use Rattle.std.specs.Prelude.{◌≡◌, ◌≤◌};
ghost use Rattle.fits_card.specs.CardList.{ReadsUpTo};
ghost use Rattle.fits_card.specs.Header.{card_at};
ghost use Rattle.fits_rules.specs.ShapeSteps.{cards_left, CanLeave};

use fits_card::{Card, CardList, Change};

/// The card at a place.
#[tactic(auto, using(crate::proofs::LeadLemmas::card_steps))]
pub(crate) fn card_at(cards: &mut CardList, change: Option<&Change>, place: usize) -> Option<Card>
    requires in_range { CanLeave cards.old.header.cards change }
    requires from { 1 ≤ place }
    ensures value { result ≡ card_at (cards_left cards.old.header.cards change.entry) place }
    ensures work { ReadsUpTo cards.old cards.new 1 }
{
    match change {
        Some(change) if place <= change.len_after(cards) => Some(change.card_after(cards, place)),
        None if place <= cards.len() => Some(cards.card(place)),
        _ => None,
    }
}
