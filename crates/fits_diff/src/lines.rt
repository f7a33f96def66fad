//! The lines of differences.
ghost use Rattle.std.specs.Prelude.{◌≡◌, ◌++◌, codes, map, OnOk};
ghost use Rattle.std.specs.Fmt.{decimal};
ghost use Rattle.fits_tell.specs.Cards.{after_space, card_line, shown_byte, shown_text};
ghost use Rattle.fits_diff.specs.Differences.{alone_line, byte_line, data_line, hdu_text, lengths_line, tail_line};
ghost use Rattle.fits_diff.specs.Matching.{signed_line};

use fits_card::Card;
use fits_tell::{push_both, push_number};
use fits_value::trimmed_len;
use std::alloc::AllocError;

/// `- HDU PLACE CARD`, or the same with a plus sign.
#[tactic(auto, unfolding(fits_tell::specs::Cards::card_line))]
pub(crate) fn push_signed_line(
    text: &mut Vec<u8>,
    sign: &[u8],
    number: usize,
    place: usize,
    card: &Card,
) -> Result<(), AllocError>
    ensures { OnOk result (text.new.items
        ≡ text.old.items ++ signed_line sign.now number place card.now) }
{
    push_number(text, sign, number as u64)?;
    push_number(text, b" ", place as u64)?;
    push_shown(text, card)?;
    text.extend_from_slice(b"\n")
}

// A space and the card without the spaces at its end, or nothing where it is blank.
fn push_shown(text: &mut Vec<u8>, card: &Card) -> Result<(), AllocError>
    ensures { OnOk result (text.new.items ≡ text.old.items ++ after_space (shown_text card.now)) }
{
    let (bytes, _) = card.0.split_at(trimmed_len(&card.0));
    if bytes.is_empty() {
        return Ok(());
    }
    text.extend_from_slice(b" ")?;
    push_text(text, bytes)
}

// Bytes as they are shown.
fn push_text(text: &mut Vec<u8>, bytes: &[u8]) -> Result<(), AllocError>
    ensures { OnOk result (text.new.items ≡ text.old.items ++ map shown_byte bytes.now) }
{
    for byte in bytes {
        text.push(shown_byte(*byte))?;
    }
    Ok(())
}

// A byte as it is shown.
fn shown_byte(byte: u8) -> u8
    ensures { result ≡ shown_byte byte }
{
    match byte {
        b' '..=b'~' => byte,
        _ => b'?',
    }
}

/// A line about an HDU.
pub(crate) fn push_hdu_text(
    text: &mut Vec<u8>,
    number: usize,
    words: &[u8],
) -> Result<(), AllocError>
    ensures { OnOk result (text.new.items ≡ text.old.items ++ hdu_text number words.now) }
{
    push_number(text, b"hdu ", number as u64)?;
    text.extend_from_slice(words)
}

/// The line of data units, by how many bytes they have, and how many they have alike.
pub(crate) fn push_data_line(
    text: &mut Vec<u8>,
    number: usize,
    len: usize,
    other_len: usize,
    same: usize,
) -> Result<(), AllocError>
    ensures { OnOk result (text.new.items ≡ text.old.items ++ data_line number len other_len same) }
{
    if len != other_len {
        return push_lengths(text, number, len, other_len);
    }
    if same == len {
        return Ok(());
    }
    push_byte(text, number, same)
}

// The line of data units that have other lengths.
fn push_lengths(
    text: &mut Vec<u8>,
    number: usize,
    len: usize,
    other_len: usize,
) -> Result<(), AllocError>
    ensures { OnOk result (text.new.items ≡ text.old.items ++ lengths_line number len other_len) }
{
    push_number(text, b"hdu ", number as u64)?;
    push_number(text, b" data have ", len as u64)?;
    push_number(text, b" bytes and ", other_len as u64)?;
    text.extend_from_slice(b"\n")
}

// The line of data units that differ from a byte on.
fn push_byte(text: &mut Vec<u8>, number: usize, same: usize) -> Result<(), AllocError>
    ensures { OnOk result (text.new.items ≡ text.old.items ++ byte_line number same) }
{
    push_hdu_number(text, number, b" data differ at byte ", same)
}

// A line about an HDU that ends with a number.
fn push_hdu_number(
    text: &mut Vec<u8>,
    number: usize,
    words: &[u8],
    last: usize,
) -> Result<(), AllocError>
    ensures { OnOk result (text.new.items
        ≡ text.old.items ++ hdu_text number (words.now ++ (decimal last ++ codes "\n"))) }
{
    push_number(text, b"hdu ", number as u64)?;
    push_number(text, words, last as u64)?;
    text.extend_from_slice(b"\n")
}

/// The line of an HDU that one file has alone.
pub(crate) fn push_alone_line(
    text: &mut Vec<u8>,
    label: &[u8],
    number: usize,
) -> Result<(), AllocError>
    ensures { OnOk result (text.new.items ≡ text.old.items ++ alone_line label.now number) }
{
    push_hdu_text(text, number, b" only in ")?;
    push_both(text, label, b"\n")
}

/// The line of bytes after the last HDU that differ.
pub(crate) fn push_tail_line(text: &mut Vec<u8>, same: bool) -> Result<(), AllocError>
    ensures { OnOk result (text.new.items ≡ text.old.items ++ tail_line same) }
{
    if same {
        return Ok(());
    }
    text.extend_from_slice(b"bytes after the last HDU differ\n")
}
