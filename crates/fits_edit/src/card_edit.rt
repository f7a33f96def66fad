use fits_card::{Card, Name};
use fits_value::{Text, Value};

/// A change of the cards of one HDU. Places count from 1.
#[derive(Drop)]
pub enum CardEdit {
    /// The card stands at a place, before the one that stood there.
    Insert {
        /// From 1 to one past the last card.
        place: usize,
        card: Card,
    },
    /// The card stands at a place instead of the one that stood there.
    Put {
        /// The place of a card.
        place: usize,
        card: Card,
    },
    /// The card at a place goes.
    Delete {
        /// The place of a card.
        place: usize,
    },
    /// The card at a place is taken out, and put where it has this place in the result.
    Move {
        /// The place of a card.
        from: usize,
        /// The place of a card.
        to: usize,
    },
    /// A keyword has this value and comment: its lead and the CONTINUE cards that belong to it are
    /// replaced, and an old comment doesn't stay. Without a lead the new cards go to the end.
    Set {
        name: Name,
        value: Value,
        comment: Option<Text>,
    },
    /// The lead of a keyword goes, with the CONTINUE cards that belong to it.
    Unset {
        name: Name,
    },
}
