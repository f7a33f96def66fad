//! The lead of a name: the first card of that name that has a value. It alone counts.
ghost use Rattle.std.specs.Prelude.{◌≡◌, ◌+◌, length, unwrap_or};
ghost use Rattle.fits_rules.specs.Lead.{is_value_of, lead_place, lead_card, lead_or_end};
ghost use Rattle.fits_card.specs.CardList.{ReadsUpTo};

use fits_card::{Card, CardList, Name};

/// Whether a card has this name and a value.
#[tactic(auto, unfolding(crate::specs::Lead::is_value_of))]
pub(crate) fn is_value_of(card: &Card, name: &Name) -> bool
    ensures { result ≡ is_value_of name.now card.now }
{
    card.name() == *name && card.has_value()
}

/// Where the lead of a name stands. It takes no memory, and reads the cards up to that one.
#[tactic(auto, using(crate::proofs::LeadLemmas::lead_steps))]
pub fn lead(cards: &mut CardList, name: &Name) -> Option<usize>
    ensures value { result ≡ lead_place cards.old.header.cards name.now }
    ensures work { ReadsUpTo cards.old cards.new
        (unwrap_or result (length cards.old.header.cards)) }
{
    for index in 0..cards.len() {
        if is_value_of(&cards.card(index + 1), name) {
            return Some(index + 1);
        }
    }
    None
}

/// The lead of a name. It takes no memory.
#[tactic(auto, using(crate::proofs::LeadCardLemmas::lead_card_steps))]
pub fn lead_card(cards: &mut CardList, name: &Name) -> Option<Card>
    ensures value { result ≡ lead_card cards.old.header.cards name.now }
    ensures work { ReadsUpTo cards.old cards.new (length cards.old.header.cards + 1) }
{
    match lead(cards, name) {
        Some(place) => Some(cards.card(place)),
        None => None,
    }
}

/// Where the lead of a name stands, or one past the last card. It takes no memory.
#[tactic(auto, unfolding(crate::specs::Lead::lead_or_end))]
pub(crate) fn lead_or_end(cards: &mut CardList, name: &Name) -> usize
    ensures value { result ≡ lead_or_end cards.old.header.cards name.now }
    ensures work { ReadsUpTo cards.old cards.new (length cards.old.header.cards) }
{
    lead(cards, name).unwrap_or(cards.len() + 1)
}
