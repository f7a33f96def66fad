ghost use Rattle.std.specs.Prelude.{◌≡◌};
ghost use Rattle.fits_header.specs.Notes.{note_of};

use crate::card_total::CardTotal;
use fits_card::Card;
use fits_codes::{Mark, mark_of};

/// What a header keeps of a card, so that the card isn't read again.
#[derive(Clone, Copy)]
pub(crate) struct Note {
    /// What the card says alone.
    pub(crate) mark: Mark,
    /// The total of its 20 words (FITS Standard 4.0, Appendix J).
    pub(crate) total: CardTotal,
}

// The note of a card. It takes no memory.
pub(crate) fn note_of(card: &Card) -> Note
    ensures { result ≡ note_of card.now }
{
    Note {
        mark: mark_of(card),
        total: CardTotal::of(card),
    }
}
