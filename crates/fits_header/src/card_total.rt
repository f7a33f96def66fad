ghost use Rattle.std.specs.Prelude.{◌≡◌, ◌≤◌, ◌*◌};
ghost use Rattle.fits_sum.specs.Words.{word_total};

use fits_card::Card;
use std::marker::Model;

/// The total of a card's 20 words (FITS Standard 4.0, Appendix J). Contracts see the number.
///
/// Every one is at most 20 times all ones, so that those of a header's cards can be added. Its parts,
/// of 16, 16 and 8 bits, let a note have 34 bytes where a number of 64 bits makes it 40.
#[derive(Clone, Copy)]
pub(crate) struct CardTotal {
    low: u16,
    middle: u16,
    high: u8,
}

impl Model for CardTotal {
    ghost use Rattle.std.specs.Prelude.{ℕ, ◌≤◌, ◌<◌, ◌+◌, ◌*◌, ◌/◌, ◌%◌};
    ghost use Rattle.fits_header.specs.CardTotal.{low_part, middle_part, high_part};

    ghost Value = { ℕ };

    ghost view = { λ total. 4294967296 * total.high + 65536 * total.middle + total.low };

    ghost invariant = { λ total. record {
      within : 4294967296 * total.high + 65536 * total.middle + total.low ≤ 20 * 4294967295;
      low : total.low < 65536;
      middle : total.middle < 65536;
    } };

    ghost inverse = { λ number. record {
      low = number % 65536;
      middle = number / 65536 % 65536;
      high = number / 4294967296;
    } };

    ghost inverse_ok = { λ total whole i. record {
      low = low_part total.high total.middle total.low whole.low i;
      middle = middle_part total.high total.middle total.low whole.low whole.middle i;
      high = high_part total.high total.middle total.low whole.low whole.middle i;
    } };
}

impl CardTotal {
    pub(crate) fn of(card: &Card) -> CardTotal
        ensures { result ≡ word_total card.now }
    {
        let total = fits_sum::card_total(&card.0);
        CardTotal {
            low: (total % 65536) as u16,
            middle: (total / 65536 % 65536) as u16,
            high: (total / 4294967296) as u8,
        }
    }

    /// The same as a number.
    pub(crate) fn number(self) -> u64
        ensures value { result ≡ self }
        ensures within { result ≤ 20 * 4294967295 }
    {
        4294967296 * u64::from(self.high) + 65536 * u64::from(self.middle) + u64::from(self.low)
    }
}
