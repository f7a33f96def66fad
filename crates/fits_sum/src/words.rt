//! Totals of big-endian 32-bit words.
ghost use Rattle.std.specs.Prelude.{◌≡◌, ◌≤◌, ◌*◌, ◌/◌, ◌%◌, length};
ghost use Rattle.fits_sum.specs.Words.{word_total};

use byteorder::{BigEndian, ByteOrder};
use std::simd::prelude::*;

/// The total of a run of whole words, so few that it fits 64 bits.
pub fn words_total(bytes: &[u8]) -> u64
    requires whole { length bytes.now % 4 ≡ 0 }
    requires room { length bytes.now ≤ 17179869184 }
    ensures value { result ≡ word_total bytes.now }
    ensures within { result ≤ 4294967295 * (length bytes.now / 4) }
{
    let mut total = 0u64;
    for i in 0..bytes.len() / 4 {
        total += u64::from(BigEndian::read_u32(&bytes[4 * i..]));
    }
    total
}

/// The total of a card's 20 words.
pub fn card_total(card: &[u8; 80]) -> u64
    ensures value { result ≡ word_total card.now }
    ensures within { result ≤ 20 * 4294967295 }
{
    words_total(card)
}

/// The total of 16 words, of which each byte is a column: the sum of bytes of equal weight.
fn columns_total(columns: &[u16; 64]) -> u64
    ensures { result ≡ word_total columns.now }
{
    let mut total = 0u64;
    for i in 0..16 {
        let place = 4 * i;
        total += u64::from(columns[place]) * 0x100_0000
            + u64::from(columns[place + 1]) * 0x1_0000
            + u64::from(columns[place + 2]) * 0x100
            + u64::from(columns[place + 3]);
    }
    total
}

/// The total of a block's 720 words.
pub fn total(block: &[u8; 2880]) -> u64
    ensures value { result ≡ word_total block.now }
    ensures within { result ≤ 720 * 4294967295 }
{
    // Equal places of all words weigh the same, so columns are added up first, and weighed once.
    // A column has 45 bytes, whose sum fits 16 bits.
    let mut columns = u16x64::splat(0);
    for i in 0..45 {
        let bytes = u8x64::from_slice(&block[64 * i..]);
        columns = columns.strict_add(bytes.cast::<u16>());
    }
    columns_total(&columns.to_array())
}
