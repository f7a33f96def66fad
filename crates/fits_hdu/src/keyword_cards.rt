ghost use Rattle.std.specs.Prelude.{◌≡◌, ◌<◌, ◌^◌};
ghost use Rattle.fits_card.specs.Change.{new_cards};
ghost use Rattle.std.specs.Option.{option_map_or};
ghost use Rattle.fits_hdu.specs.Keyword.{replacing};
ghost use Rattle.fits_hdu.specs.declared.keyword_cards.KeywordCards.{KeywordCards};

use fits_card::{Cards, Change};

/// Where the cards of a keyword stand: its lead, and the CONTINUE cards that belong to the lead's
/// string (FITS Standard 4.0, section 4.2.1.2).
#[derive(Clone, Copy)]
pub struct KeywordCards {
    /// The place of the lead, from 1.
    pub place: usize,
    /// How many there are, the lead included.
    pub count: usize,
}

/// The change that puts cards in the place of those of a keyword, among so many, or after the last
/// card where it has none.
#[tactic(auto, unfolding(fits_card::specs::Change::new_cards))]
pub fn replacement(count: usize, old: Option<KeywordCards>, cards: Cards) -> Change
    requires { count < 2 ^ 63 }
    ensures value { result ≡ replacing count old cards }
    ensures cards { new_cards result ≡ cards }
{
    match old {
        Some(old) => Change::Splice {
            place: old.place,
            removed: old.count,
            cards,
        },
        None => Change::Splice {
            place: count + 1,
            removed: 0,
            cards,
        },
    }
}

/// How many cards a keyword has.
pub(crate) fn count_of(cards: Option<KeywordCards>) -> usize
    ensures { result ≡ option_map_or (λ (cards : KeywordCards). cards.count) cards 0 }
{
    match cards {
        Some(cards) => cards.count,
        None => 0,
    }
}
