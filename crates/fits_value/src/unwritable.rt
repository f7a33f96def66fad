//! Whether a value and a comment can be written and fit their cards, and why not.
ghost use Rattle.std.specs.Prelude.{◌≡◌, ◌≤◌, ◌<◌, ◌+◌, ◌-◌, ℕ, List, length, IsTrue, IfSome, IfNone, None, OnErr, OnOk, Some};
ghost use Rattle.fits_card.specs.declared.card.TheConstants.{CARD_LEN};
ghost use Rattle.fits_value.specs.Spelling.{doubled};
ghost use Rattle.fits_value.specs.Unwritable.{last_piece, value_end, comment_has_room, has_room, writable};
ghost use Rattle.fits_value.specs.Written.{unless, writable_string, writable_value, writable_comment, writable_parts, is_writable, write_says};
ghost use Rattle.fits_value.specs.declared.strings.TheConstants.{MOST_CHARACTERS};
ghost use Rattle.fits_value.specs.declared.value.Value.TheVariants.{Complex, Str};

use crate::characters::is_normal;
use crate::decimal::{is_integer, is_number, is_real};
use crate::long_string::is_open;
use crate::spaces::trimmed_len;
use crate::strings::MOST_CHARACTERS;
use crate::text::Text;
use crate::value::Value;
use crate::write::{doubled_len, piece_len};
use fits_card::is_text;

/// How many bytes of a card a number has room in: bytes 11 to 80.
const NUMBER_ROOM: usize = 70;

/// Why a value and a comment can't be written, or don't fit their cards.
#[derive(Clone, Copy, PartialEq, Eq, Debug)]
pub enum Unwritable {
    /// The text of a number isn't one (FITS Standard 4.0, sections 4.2.3 to 4.2.6).
    NotNumber,
    /// A byte of the string isn't a character of text.
    StringBytes,
    /// The string has spaces at its end that say nothing.
    StringSpaces,
    /// The string ends in an ampersand, which would continue it.
    StringAmpersand,
    /// A byte of the comment isn't a character of text.
    CommentBytes,
    /// The comment ends in a space.
    CommentSpaces,
    /// A number has more than 70 bytes.
    LongNumber,
    /// The value leaves no room for a slash and a comment.
    NoRoom,
    /// The comment has so many bytes, and so many have room after the value.
    LongComment { bytes: usize, room: usize },
}

/// Whether a value and a comment can be written and fit their cards, or the first reason why not.
#[tactic(auto, using(crate::proofs::UnwritableLemmas::writable_steps), unfolding(crate::specs::Unwritable::writable))]
pub fn writable(value: &Value, comment: &Option<Text>) -> Result<(), Unwritable>
    ensures value { result ≡ writable value.now comment.now }

    // It is so under whichever name.
    ensures ok { OnOk result ((name : List ℕ) → length name ≡ 8
        → IsTrue (is_writable name value.now comment.now)) }
    ensures err { OnErr result ((name : List ℕ) → length name ≡ 8
        → write_says name value.now comment.now ≡ None) }
{
    writable_parts(value, comment).and(has_room(value, comment))
}

/// The same, where they fit.
pub(crate) fn writable_parts(value: &Value, comment: &Option<Text>) -> Result<(), Unwritable>
    ensures { result ≡ writable_parts value.now comment.now }
{
    writable_value(value).and(writable_comment(comment))
}

// Where a test fails, this is why.
fn unless(test: bool, why: Unwritable) -> Result<(), Unwritable>
    ensures { result ≡ unless test why }
{
    if test { Ok(()) } else { Err(why) }
}

// Whether the characters of a string can be written.
#[tactic(auto, unfolding(crate::specs::Written::writable_string))]
fn writable_string(characters: &[u8]) -> Result<(), Unwritable>
    ensures { result ≡ writable_string characters.now }
{
    unless(is_text(characters), Unwritable::StringBytes)
        .and(unless(is_normal(characters), Unwritable::StringSpaces))
        .and(unless(!is_open(characters), Unwritable::StringAmpersand))
}

// Whether a value can be written.
#[tactic(auto, unfolding(crate::specs::Written::writable_value))]
fn writable_value(value: &Value) -> Result<(), Unwritable>
    ensures { result ≡ writable_value value.now }
{
    match value {
        Value::Undefined => Ok(()),
        Value::Logical(_) => Ok(()),
        Value::Integer(text) => unless(is_integer(text.as_bytes()), Unwritable::NotNumber),
        Value::Real(text) => unless(is_real(text.as_bytes()), Unwritable::NotNumber),
        Value::Complex(real, imaginary) => {
            let are_numbers = is_number(real.as_bytes()) && is_number(imaginary.as_bytes());
            unless(are_numbers, Unwritable::NotNumber)
        }
        Value::Str(text) => writable_string(text.as_bytes()),
    }
}

// Whether a comment, where there is one, can be written.
#[tactic(auto, unfolding(crate::specs::Written::writable_comment))]
fn writable_comment(comment: &Option<Text>) -> Result<(), Unwritable>
    ensures { result ≡ writable_comment comment.now }
{
    match comment {
        Some(text) => {
            let bytes = text.as_bytes();
            let trimmed = trimmed_len(bytes) == bytes.len();
            let spaces = unless(trimmed, Unwritable::CommentSpaces);
            unless(is_text(bytes), Unwritable::CommentBytes).and(spaces)
        }
        None => Ok(()),
    }
}

// How many bytes a string that goes over cards takes of the last one, between quotes.
fn last_len(characters: &[u8]) -> usize
    ensures value { result ≡ length (doubled (last_piece (length characters.now) characters.now)) }
    ensures within { result ≤ MOST_CHARACTERS }
{
    let mut rest = characters;
    let mut left = doubled_len(characters);
    'pieces: while MOST_CHARACTERS < left {
        let (piece, others) = rest.split_at(piece_len(rest));
        left -= doubled_len(piece);
        rest = others;
    }
    left
}

// How many bytes of the card with the comment come before it, where the value is a string.
#[tactic(auto, unfolding(crate::specs::Unwritable::value_end))]
fn string_end(characters: &[u8]) -> usize
    ensures value { result ≡ value_end (Str characters.now) }
    ensures within { result ≤ CARD_LEN }
{
    let len = doubled_len(characters);
    if MOST_CHARACTERS < len {
        12 + last_len(characters)
    } else if len == 0 {
        12
    } else {
        12 + len.max(8)
    }
}

// The same of another value, which has so many bytes, unless a card doesn't hold them.
fn spelling_end(size: usize) -> Option<usize>
    ensures some { IfSome result (λ end. end ≡ 10 + (20 - size + size)) }
    ensures within { IfSome result (λ end. end ≤ CARD_LEN) }
    ensures none { IfNone result (CARD_LEN < 10 + (20 - size + size)) }
{
    if NUMBER_ROOM < size {
        return None;
    }
    Some(10 + size.max(20))
}

// The same of a complex number.
fn pair_end(real: &[u8], imaginary: &[u8]) -> Option<usize>
    ensures some { IfSome result (λ end. end ≡ value_end (Complex real.now imaginary.now)) }
    ensures within { IfSome result (λ end. end ≤ CARD_LEN) }
    ensures none { IfNone result (CARD_LEN < value_end (Complex real.now imaginary.now)) }
{
    if NUMBER_ROOM < real.len() || NUMBER_ROOM < imaginary.len() {
        return None;
    }
    spelling_end(real.len() + imaginary.len() + 4)
}

// The same of any value.
#[tactic(auto, unfolding(crate::specs::Unwritable::value_end))]
fn value_end(value: &Value) -> Option<usize>
    ensures some { IfSome result (λ end. end ≡ value_end value.now) }
    ensures within { IfSome result (λ end. end ≤ CARD_LEN) }
    ensures none { IfNone result (CARD_LEN < value_end value.now) }
{
    match value {
        Value::Undefined => Some(30),
        Value::Logical(_) => Some(30),
        Value::Integer(text) => spelling_end(text.as_bytes().len()),
        Value::Real(text) => spelling_end(text.as_bytes().len()),
        Value::Complex(real, imaginary) => pair_end(real.as_bytes(), imaginary.as_bytes()),
        Value::Str(text) => Some(string_end(text.as_bytes())),
    }
}

// Whether a comment has room after so many bytes of a card.
fn comment_has_room(before: usize, comment: &[u8]) -> Result<(), Unwritable>
    ensures { result ≡ comment_has_room before (Some comment.now) }
{
    if 78 < before {
        return Err(Unwritable::NoRoom);
    }
    let bytes = comment.len();
    let room = 78 - before.max(30);
    unless(bytes <= room, Unwritable::LongComment { bytes, room })
}

// Whether a card has room for a value and a comment.
#[tactic(auto, unfolding(crate::specs::Unwritable::has_room))]
fn has_room(value: &Value, comment: &Option<Text>) -> Result<(), Unwritable>
    ensures { result ≡ has_room (value_end value.now) comment.now }
{
    let Some(end) = value_end(value) else {
        return Err(Unwritable::LongNumber);
    };
    match comment {
        Some(text) => comment_has_room(end, text.as_bytes()),
        None => Ok(()),
    }
}
