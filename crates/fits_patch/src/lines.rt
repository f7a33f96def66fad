//! The lines of a script.
ghost use Rattle.std.specs.Prelude.{◌≡◌, ◌++◌, map, OnOk};
ghost use Rattle.fits_tell.specs.Cards.{after_space};
ghost use Rattle.fits_patch.specs.Patch.{card_line, deletion, line_byte, place_words};

use fits_card::Card;
use fits_tell::push_number;
use fits_value::trimmed_len;
use std::alloc::AllocError;

// `VERB H P`
fn push_place(text: &mut Vec<u8>, verb: &[u8], h: usize, place: usize) -> Result<(), AllocError>
    ensures { OnOk result (text.new.items ≡ text.old.items ++ place_words verb.now h place) }
{
    text.extend_from_slice(verb)?;
    push_number(text, b" ", h as u64)?;
    push_number(text, b" ", place as u64)
}

/// The line `VERB H P CARD`, without the spaces at the end of the card.
pub(crate) fn push_card_line(
    text: &mut Vec<u8>,
    verb: &[u8],
    h: usize,
    place: usize,
    card: &Card,
) -> Result<(), AllocError>
    ensures { OnOk result (text.new.items ≡ text.old.items ++ card_line verb.now h place card.now) }
{
    push_place(text, verb, h, place)?;
    let (bytes, _) = card.0.split_at(trimmed_len(&card.0));
    push_after_space(text, bytes)?;
    text.extend_from_slice(b"\n")
}

// A space and the bytes of a card, or nothing where there are none.
fn push_after_space(text: &mut Vec<u8>, bytes: &[u8]) -> Result<(), AllocError>
    ensures { OnOk result (text.new.items
        ≡ text.old.items ++ after_space (map line_byte bytes.now)) }
{
    if bytes.is_empty() {
        return Ok(());
    }
    text.extend_from_slice(b" ")?;
    push_bytes(text, bytes)
}

// Bytes of a card as a line has them.
fn push_bytes(text: &mut Vec<u8>, bytes: &[u8]) -> Result<(), AllocError>
    ensures { OnOk result (text.new.items ≡ text.old.items ++ map line_byte bytes.now) }
{
    for byte in bytes {
        text.push(line_byte(*byte))?;
    }
    Ok(())
}

// A byte of a card as a line has it: no line feed is in a line.
fn line_byte(byte: u8) -> u8
    ensures { result ≡ line_byte byte }
{
    if byte == b'\n' { 0 } else { byte }
}

/// The line `del H P`.
pub(crate) fn push_deletion(text: &mut Vec<u8>, h: usize, place: usize) -> Result<(), AllocError>
    ensures { OnOk result (text.new.items ≡ text.old.items ++ deletion h place) }
{
    push_place(text, b"del", h, place)?;
    text.extend_from_slice(b"\n")
}
