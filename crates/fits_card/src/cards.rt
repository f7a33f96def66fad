ghost use Rattle.std.specs.Prelude.{◌≡◌, [], ◌∷◌, IfOk};

use crate::card::Card;
use std::alloc::{AllocError, Global};
use std::marker::Model;

/// Cards, one after another. Contracts see them as a list of cards.
#[derive(Drop)]
pub struct Cards {
    cards: Vec<Card>,
}

impl Model for Cards {
    ghost use Rattle.std.specs.Prelude.{ℕ, List};

    ghost Value = { List (List ℕ) };

    ghost view = { λ cards. cards.cards.items };
}

impl Cards {
    pub fn new(cards: Vec<Card>) -> Cards
        ensures { result ≡ cards.items }
    {
        Cards { cards }
    }

    /// A single card.
    pub fn one(alloc: Global, card: Card) -> Result<Cards, AllocError>
        ensures { IfOk result (λ cards. cards ≡ card ∷ []) }
    {
        let mut cards = Vec::with_capacity(alloc, 1)?;
        cards.push(card)?;
        Ok(Cards { cards })
    }

    pub fn as_slice(&self) -> &[Card]
        ensures { result.now ≡ self.now }
    {
        &self.cards
    }
}
