//! The text of a DATASUM, and its card.
ghost use Rattle.std.specs.Prelude.{◌≡◌, ◌≤◌, ◌-◌, length, decimal, IfOk};
ghost use Rattle.fits_sum.specs.DatasumCard.{datasum_card};

use itoa::Buffer;
use std::alloc::{AllocError, Global};

/// The decimal digits of a sum (4.4.2.7).
pub fn datasum_text(alloc: Global, sum: u32) -> Result<Vec<u8>, AllocError>
    ensures ok { IfOk result (λ text. text.items ≡ decimal sum) }
    ensures within { IfOk result (λ text. length text.items ≤ 10) }
{
    let mut buffer = Buffer::new();
    Vec::from_slice(alloc, buffer.format(sum).as_bytes())
}

/// The card that says a sum as DATASUM, without a comment (4.2.1.1, 4.4.2.7). It takes no memory.
#[tactic(auto, using(crate::proofs::DatasumLemmas::card_steps))]
pub fn datasum_card(sum: u32) -> [u8; 80]
    ensures { result ≡ datasum_card sum }
{
    let mut buffer = Buffer::new();
    let digits = buffer.format(sum).as_bytes();
    let mut card = [b' '; 80];
    let (front, rest) = card.split_at_mut(11);
    front.copy_from_slice(b"DATASUM = '");
    let (text, rest) = rest.split_at_mut(digits.len());
    text.copy_from_slice(digits);
    let (_, rest) = rest.split_at_mut(fill_len(digits.len()));
    rest[0] = b'\'';
    card
}

// How many spaces fill so many bytes up to 8.
fn fill_len(len: usize) -> usize
    ensures { result ≡ 8 - len }
{
    if len < 8 { 8 - len } else { 0 }
}
