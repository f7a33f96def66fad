use fits_card::{Card, Cards};
use std::alloc::{AllocError, Global};
use std::marker::Model;

/// Room for one card.
#[derive(Drop)]
pub(crate) struct OneCard {
    cards: Vec<Card>,
}

impl Model for OneCard {
    ghost use Rattle.std.specs.Prelude.{◌≡◌, length};

    ghost Value = { Unit {0} };

    ghost view = { λ it. tt };

    ghost invariant = { λ it. length it.cards.items ≡ 1 };
}

impl OneCard {
    ghost use Rattle.std.specs.Prelude.{◌≡◌, [], ◌∷◌};

    pub(crate) fn new(alloc: Global) -> Result<OneCard, AllocError> {
        let mut cards = Vec::with_capacity(alloc, 1)?;
        cards.push(Card([b' '; 80]))?;
        Ok(OneCard { cards })
    }

    /// This card, in its room.
    pub(crate) fn holding(self, card: Card) -> Cards
        ensures { result ≡ card ∷ [] }
    {
        let mut cards = self.cards;
        cards[0] = card;
        Cards::new(cards)
    }
}
