ghost use Rattle.std.specs.Prelude.{◌≡◌, ◌≤◌, ℕ, List, Some, length};
ghost use Rattle.fits_card.specs.Header.{card_at};
ghost use Rattle.fits_rules.specs.Lead.{lead_card};

use fits_card::{Card, CardList, Name};
use fits_rules::lead_card;

/// What knows the cards of a header: a store of cards, or one with an index of their names.
pub trait HeaderCards {
    /// The cards.
    ghost cards: { Self → List (List ℕ) };

    /// How many cards there are.
    fn count(&self) -> usize
        ensures { result ≡ length (cards self.now) };

    /// The card at a place, counted from 1.
    fn card_at(&mut self, place: usize) -> Card
        requires from { 1 ≤ place }
        requires to { place ≤ length (cards self.old) }
        ensures value { Some result ≡ card_at (cards self.old) place }
        ensures same { cards self.new ≡ cards self.old };

    /// The lead of a name.
    fn lead(&mut self, name: &Name) -> Option<Card>
        ensures value { result ≡ lead_card (cards self.old) name.now }
        ensures same { cards self.new ≡ cards self.old };
}

/// The cards are looked at one by one.
impl HeaderCards for CardList {
    ghost cards = { λ it. it.header.cards };

    fn count(&self) -> usize {
        self.len()
    }

    #[tactic(auto, using(crate::proofs::FieldsLemmas::card_steps))]
    fn card_at(&mut self, place: usize) -> Card {
        self.card(place)
    }

    fn lead(&mut self, name: &Name) -> Option<Card> {
        lead_card(self, name)
    }
}
