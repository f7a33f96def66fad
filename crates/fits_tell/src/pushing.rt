//! Adding texts and numbers to a line.
ghost use Rattle.std.specs.Prelude.{◌≡◌, ◌++◌, OnOk};
ghost use Rattle.std.specs.Fmt.{decimal, signed_decimal};
ghost use Rattle.fits_value.specs.Spelling.{doubled};
ghost use Rattle.fits_tell.specs.Listing.{offsets_text};

use fits_passing::HduOffsets;
use fits_script::split_far;
use itoa::Buffer;
use std::alloc::AllocError;

/// Adds one text and then another.
pub fn push_both(line: &mut Vec<u8>, front: &[u8], back: &[u8]) -> Result<(), AllocError>
    ensures { OnOk result (line.new.items ≡ line.old.items ++ (front.now ++ back.now)) }
{
    line.extend_from_slice(front)?;
    line.extend_from_slice(back)
}

/// Adds a text, and a number after it.
pub fn push_number(line: &mut Vec<u8>, text: &[u8], number: u64) -> Result<(), AllocError>
    ensures { OnOk result (line.new.items ≡ line.old.items ++ (text.now ++ decimal number)) }
{
    let mut digits = Buffer::new();
    push_both(line, text, digits.format(number).as_bytes())
}

/// Adds a text, and a number after it, which may be below zero.
pub(crate) fn push_signed(line: &mut Vec<u8>, text: &[u8], number: i128) -> Result<(), AllocError>
    ensures { OnOk result (line.new.items ≡ line.old.items ++ (text.now ++ signed_decimal number)) }
{
    let mut digits = Buffer::new();
    push_both(line, text, digits.format(number).as_bytes())
}

/// Adds where an HDU begins, its data begin, and it ends.
pub fn push_offsets(text: &mut Vec<u8>, at: HduOffsets) -> Result<(), AllocError>
    ensures { OnOk result (text.new.items ≡ text.old.items ++ offsets_text at) }
{
    push_number(text, b"", at.header_start)?;
    push_number(text, b" ", at.data_start)?;
    push_number(text, b" ", at.hdu_end)
}

/// Adds characters, with each quote doubled.
#[tactic(auto, using(crate::proofs::DoubledLemmas::doubled_steps))]
pub fn push_doubled(line: &mut Vec<u8>, text: &[u8]) -> Result<(), AllocError>
    ensures { OnOk result (line.new.items ≡ line.old.items ++ doubled text.now) }
{
    let mut rest = text;
    'quotes: while let Some((front, more)) = split_far(rest, b'\'') {
        push_both(line, front, b"''")?;
        rest = more;
        'row: while let [b'\'', after @ ..] = rest {
            line.extend_from_slice(b"''")?;
            rest = after;
        }
    }
    line.extend_from_slice(rest)
}
