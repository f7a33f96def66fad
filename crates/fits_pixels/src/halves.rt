//! The words of a block, added up by halves: the total of the words, and that of all pixels of 16 or
//! 32 bits, by one pass.
ghost use Rattle.std.specs.Prelude.{◌≡◌, ◌≤◌, ◌*◌, ◌+◌, ◌/◌, ◌%◌, length};
ghost use Rattle.fits_sum.specs.Words.{word_total};
ghost use Rattle.fits_pixels.specs.Scan.{unsigned_total};

use byteorder::{BigEndian, ByteOrder};

/// The totals of the high and of the low halves of words.
#[derive(Clone, Copy)]
pub(crate) struct Halves {
    pub(crate) high: u32,
    pub(crate) low: u32,
}

impl Halves {
    /// The total of the words.
    pub(crate) fn word_total(self) -> u64
        ensures { result ≡ 65536 * self.high + self.low }
    {
        u64::from(self.high) * 65536 + u64::from(self.low)
    }
}

/// Adds up the words of a block by halves, each no wider than a block needs.
pub(crate) fn halves_of(block: &[u8]) -> Halves
    requires whole { length block.now % 4 ≡ 0 }
    requires short { length block.now ≤ 2880 }
    ensures words { 65536 * result.high + result.low ≡ word_total block.now }
    ensures fours { 65536 * result.high + result.low
        ≡ unsigned_total 4 block.now 0 (length block.now / 4) }
    ensures twos { result.high + result.low ≡ unsigned_total 2 block.now 0 (length block.now / 2) }
    ensures high { result.high ≤ 720 * 65535 }
    ensures low { result.low ≤ 720 * 65535 }
{
    let mut high = 0u32;
    let mut low = 0u32;
    for i in 0..block.len() / 4 {
        let word = BigEndian::read_u32(&block[4 * i..]);
        high += word / 65536;
        low += word % 65536;
    }
    Halves { high, low }
}
