//! Values and comments, written to cards.
ghost use Rattle.std.specs.Prelude.{◌≡◌, ◌≤◌, ◌<◌, ◌-◌, [], ◌∷◌, ◌++◌, length, codes, replicate, IsTrue, IfOk, IfSome, IfNone, OnOk, IsErrOf, Err, All, Some, None, nat_lt, if◌then◌else◌, false};
ghost use Rattle.fits_card.specs.declared.card.TheConstants.{CARD_LEN};
ghost use Rattle.fits_card.specs.Name.{is_settable};
ghost use Rattle.fits_card.specs.Header.{IsInnerCard};
ghost use Rattle.fits_value.specs.Spelling.{doubled};
ghost use Rattle.fits_value.specs.Written.{width, fitting, value_field, value_lead, card_of, cards_of_string, is_long, cards_of, all_fit, write_says};
ghost use Rattle.fits_value.specs.declared.strings.TheConstants.{MOST_CHARACTERS};
ghost use Rattle.fits_value.specs.declared.value.Value.TheVariants.{Str};

use crate::card_text::{justified_card, pair_card, string_card};
use crate::strings::MOST_CHARACTERS;
use crate::text::Text;
use crate::unwritable::writable_parts;
use crate::value::Value;
use fits_card::{Card, Cards, Name};
use std::alloc::{AllocError, Global};
use thiserror::Error;

/// Why nothing was written.
#[derive(Clone, Copy, PartialEq, Eq, Debug, Error)]
pub enum WriteFault {
    /// The value or the comment can't be written, or they don't fit their cards.
    #[error("the value can't be written")]
    BadValue,
    /// Memory was refused.
    #[error("out of memory")]
    Memory,
}

impl From<AllocError> for WriteFault {
    ghost use Rattle.fits_value.specs.declared.write.WriteFault.TheVariants.{Memory};
    ghost use Rattle.std.specs.Prelude.{◌≡◌};

    ghost from_gives = { λ _ fault. fault ≡ Memory };

    fn from(_: AllocError) -> WriteFault {
        WriteFault::Memory
    }
}

/// How many bytes characters take between quotes.
pub(crate) fn doubled_len(characters: &[u8]) -> usize
    ensures { result ≡ length (doubled characters.now) }
{
    let mut len = 0;
    for byte in characters {
        if *byte == b'\'' {
            len += 2;
        } else {
            len += 1;
        }
    }
    len
}

// How many bytes a character takes between quotes.
fn width_of(character: u8) -> usize
    ensures value { result ≡ width character }
    ensures least { 1 ≤ result }
    ensures most { result ≤ 2 }
{
    if character == b'\'' { 2 } else { 1 }
}

/// How many of the first characters 67 bytes between quotes hold: the 68th is for an ampersand.
pub(crate) fn piece_len(characters: &[u8]) -> usize
    ensures value { result ≡ fitting 67 characters.now }
    ensures within { result ≤ length characters.now }
{
    let mut room = 67;
    let mut i = 0;
    while i < characters.len() {
        let width = width_of(characters[i]);
        if room < width {
            return i;
        }
        room -= width;
        i += 1;
    }
    i
}

// The first ten bytes of a card with a value.
fn lead_of(name: &Name) -> [u8; 10]
    ensures value { result ≡ value_lead name.now }
    ensures size { length result ≡ 10 }
{
    let [a, b, c, d, e, f, g, h] = name.0;
    [a, b, c, d, e, f, g, h, b'=', b' ']
}

// T or F.
fn logical(flag: bool) -> &'static [u8]
    ensures { result.now ≡ if flag then (codes "T") else (codes "F") }
{
    if flag { b"T" } else { b"F" }
}

// The spaces that fill a string of so many bytes up to 8; the null string stays empty.
fn filling(len: usize) -> &'static [u8]
    ensures { result.now ≡ if (nat_lt 0 len) then (replicate (8 - len) 32) else [] }
{
    let fill: &'static [u8] = b"        ";
    if len == 0 {
        &fill[..0]
    } else {
        &fill[len.min(8)..]
    }
}

// The card of a string that one card holds, where it fits with its comment.
fn filled_card(lead: &[u8], characters: &[u8], comment: &Option<Text>) -> Option<Card>
    ensures some { IfSome result (λ card.
        card ≡ card_of lead.now (value_field (Str characters.now)) comment.now) }
    ensures size { IfSome result (λ card. length card ≡ CARD_LEN) }
    ensures none { IfNone result
        (CARD_LEN < length (card_of lead.now (value_field (Str characters.now)) comment.now)) }
{
    string_card(lead, characters, filling(doubled_len(characters)), comment)
}

// The card of a value that one card holds, where it fits with its comment.
fn value_card(lead: &[u8], value: &Value, comment: &Option<Text>) -> Option<Card>
    ensures some { IfSome result (λ card.
        card ≡ card_of lead.now (value_field value.now) comment.now) }
    ensures size { IfSome result (λ card. length card ≡ CARD_LEN) }
    ensures none { IfNone result
        (CARD_LEN < length (card_of lead.now (value_field value.now) comment.now)) }
{
    match value {
        Value::Undefined => justified_card(lead, b"", comment),
        Value::Logical(flag) => justified_card(lead, logical(*flag), comment),
        Value::Integer(text) => justified_card(lead, text.as_bytes(), comment),
        Value::Real(text) => justified_card(lead, text.as_bytes(), comment),
        Value::Complex(real, imaginary) => {
            pair_card(lead, real.as_bytes(), imaginary.as_bytes(), comment)
        }
        Value::Str(text) => filled_card(lead, text.as_bytes(), comment),
    }
}

// One card more.
fn push(cards: &mut Vec<Card>, card: Card) -> Result<(), AllocError>
    ensures { OnOk result (cards.new.items ≡ cards.old.items ++ card ∷ []) }
{
    cards.push(card)?;
    Ok(())
}

// How many cards a string takes that goes over cards, where its comment fits the last one.
fn card_count(lead: [u8; 10], characters: &[u8], comment: &Option<Text>) -> Option<usize>
    requires { length lead ≡ 10 }
    ensures some { IfSome result (λ count. IsTrue (all_fit
        (cards_of_string lead (length characters.now) characters.now comment.now))) }
    ensures count { IfSome result (λ count.
        count ≡ length (cards_of_string lead (length characters.now) characters.now comment.now)) }
    ensures none { IfNone result (all_fit
        (cards_of_string lead (length characters.now) characters.now comment.now) ≡ false) }
{
    let mut lead = lead;
    let mut rest = characters;
    let mut left = doubled_len(characters);
    let mut count = 1;
    'pieces: while MOST_CHARACTERS < left {
        let (piece, others) = rest.split_at(piece_len(rest));
        lead = *b"CONTINUE  ";
        left -= doubled_len(piece);
        rest = others;
        count += 1;
    }
    string_card(&lead, rest, b"", comment)?;
    Some(count)
}

// The cards of a string that goes over cards.
fn cards_of_string(
    alloc: Global,
    count: usize,
    lead: [u8; 10],
    characters: &[u8],
    comment: &Option<Text>,
) -> Result<Vec<Card>, WriteFault>
    requires { length lead ≡ 10 }
    ensures ok { IfOk result (λ cards.
        cards.items ≡ cards_of_string lead (length characters.now) characters.now comment.now) }
    ensures bad { IsErrOf result WriteFault.BadValue → all_fit
        (cards_of_string lead (length characters.now) characters.now comment.now) ≡ false }
{
    let mut cards = Vec::with_capacity(alloc, count)?;
    let mut lead = lead;
    let mut rest = characters;
    let mut left = doubled_len(characters);
    'pieces: while MOST_CHARACTERS < left {
        let (piece, others) = rest.split_at(piece_len(rest));
        let Some(card) = string_card(&lead, piece, b"&", &None) else {
            return Err(WriteFault::BadValue);
        };
        push(&mut cards, card)?;
        lead = *b"CONTINUE  ";
        left -= doubled_len(piece);
        rest = others;
    }
    let Some(card) = string_card(&lead, rest, b"", comment) else {
        return Err(WriteFault::BadValue);
    };
    push(&mut cards, card)?;
    Ok(cards)
}

// The characters of a string that goes over cards.
fn long_text(value: &Value) -> Option<&[u8]>
    ensures some { IfSome result (λ text. value.now ≡ Str text.now) }
    ensures long { IfSome result (λ text.
        MOST_CHARACTERS < length (doubled text.now)) }
    ensures none { IfNone result (is_long value.now ≡ false) }
{
    match value {
        Value::Str(text) if MOST_CHARACTERS < doubled_len(text.as_bytes()) => Some(text.as_bytes()),
        _ => None,
    }
}

// The cards of a value and a comment, where they fit. Nothing is asked of memory where they don't.
fn written(
    alloc: Global,
    name: &Name,
    value: &Value,
    comment: &Option<Text>,
) -> Result<Cards, WriteFault>
    ensures ok { IfOk result (λ cards. cards ≡ cards_of name.now value.now comment.now) }
    ensures fits { OnOk result (IsTrue (all_fit (cards_of name.now value.now comment.now))) }
    ensures size { OnOk result (length name.now ≡ 8) }
    ensures bad { IsErrOf result WriteFault.BadValue
        → all_fit (cards_of name.now value.now comment.now) ≡ false }
    ensures firm { all_fit (cards_of name.now value.now comment.now) ≡ false
        → result ≡ Err WriteFault.BadValue }
{
    let lead = lead_of(name);
    if let Some(text) = long_text(value) {
        let count = card_count(lead, text, comment).ok_or(WriteFault::BadValue)?;
        let cards = cards_of_string(alloc, count, lead, text, comment)?;
        return Ok(Cards::new(cards));
    }
    let card = value_card(&lead, value, comment).ok_or(WriteFault::BadValue)?;
    Ok(Cards::one(alloc, card)?)
}

/// Writes a value and a comment to cards of a name that may have one: in fixed format, and a
/// long string over CONTINUE cards (FITS Standard 4.0, section 4.2).
///
/// Whether they can be written is found before any memory is asked for.
pub fn write_value(
    alloc: Global,
    name: &Name,
    value: &Value,
    comment: &Option<Text>,
) -> Result<Cards, WriteFault>
    requires settable { IsTrue (is_settable name.now) }
    ensures ok { IfOk result (λ cards. write_says name.now value.now comment.now ≡ Some cards) }
    ensures inner { IfOk result (λ cards. All IsInnerCard cards) }
    ensures bad { IsErrOf result WriteFault.BadValue
        → write_says name.now value.now comment.now ≡ None }
    ensures firm { write_says name.now value.now comment.now ≡ None
        → result ≡ Err WriteFault.BadValue }
{
    if writable_parts(value, comment).is_err() {
        return Err(WriteFault::BadValue);
    }
    written(alloc, name, value, comment)
}
