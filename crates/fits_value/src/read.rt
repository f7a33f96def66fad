ghost use Rattle.std.specs.Prelude.{◌≡◌, ◌≤◌, None, length, IfOk, Ok};
ghost use Rattle.std.specs.Option.{ForSome, option_map};
ghost use Rattle.fits_card.specs.Card.{IsText};
ghost use Rattle.fits_value.specs.Spelling.{Spells};
ghost use Rattle.fits_value.specs.Field.{part};
ghost use Rattle.fits_value.specs.Value.{kind_of, IsValueOf};
ghost use Rattle.fits_value.specs.Says.{field_says, card_says};
ghost use Rattle.fits_value.specs.declared.reading.ValueKind.TheVariants as kind;

use crate::characters::{decoded, normalize};
use crate::reading::{Span, ValueKind};
use crate::scan::scan_field;
use crate::scan_complex::scan_pair;
use crate::text::Text;
use crate::value::Value;
use fits_card::{Card, is_text};
use std::alloc::{AllocError, Global};

// A text of its own with these bytes.
fn copied(alloc: Global, bytes: &[u8]) -> Result<Text, AllocError>
    ensures { IfOk result (λ text. text ≡ bytes.now) }
{
    Ok(Text::new(bytes.to_vec(alloc)?))
}

// The comment that stands in a span of a text.
fn comment_of(alloc: Global, text: &[u8], span: Option<Span>) -> Result<Option<Text>, AllocError>
    requires order { ForSome span (λ at. at.start ≤ at.end) }
    requires within { ForSome span (λ at. at.end ≤ length text.now) }
    ensures { IfOk result (λ comment. comment ≡ option_map (part text.now) span) }
{
    match span {
        Some(at) => Ok(Some(copied(alloc, at.part(text))?)),
        None => Ok(None),
    }
}

// ( number , number )
fn complex_of(alloc: Global, spelling: &[u8]) -> Result<Value, AllocError>
    requires { Spells kind.Complex spelling.now }
    ensures of_kind { IfOk result (λ value. kind_of value ≡ kind.Complex) }
    ensures value { IfOk result (λ value. IsValueOf value spelling.now) }
{
    let (_, behind) = spelling.split_at(1);
    let Some(pair) = scan_pair(behind) else {
        unreachable!();
    };
    let real = copied(alloc, pair.real.part(spelling))?;
    let imaginary = copied(alloc, pair.imaginary.part(spelling))?;
    Ok(Value::Complex(real, imaginary))
}

// ' characters with each quote doubled '
fn spelled_string(alloc: Global, spelling: &[u8]) -> Result<Value, AllocError>
    requires { Spells kind.Str spelling.now }
    ensures of_kind { IfOk result (λ value. kind_of value ≡ kind.Str) }
    ensures value { IfOk result (λ value. IsValueOf value spelling.now) }
{
    let quoted = Span {
        start: 1,
        end: spelling.len() - 1,
    };
    let mut characters = decoded(alloc, quoted.part(spelling))?;
    normalize(&mut characters);
    Ok(Value::Str(Text::new(characters)))
}

// The value that is spelled so.
fn spelled_value(alloc: Global, kind: ValueKind, spelling: &[u8]) -> Result<Value, AllocError>
    requires { Spells kind spelling.now }
    ensures of_kind { IfOk result (λ value. kind_of value ≡ kind) }
    ensures value { IfOk result (λ value. IsValueOf value spelling.now) }
{
    match kind {
        ValueKind::Undefined => Ok(Value::Undefined),
        ValueKind::Logical => Ok(Value::Logical(matches!(spelling, [b'T', ..]))),
        ValueKind::Integer => Ok(Value::Integer(copied(alloc, spelling)?)),
        ValueKind::Real => Ok(Value::Real(copied(alloc, spelling)?)),
        ValueKind::Complex => complex_of(alloc, spelling),
        ValueKind::Str => spelled_string(alloc, spelling),
    }
}

// Reads characters of text.
fn read_text(alloc: Global, text: &[u8]) -> Result<Option<(Value, Option<Text>)>, AllocError>
    requires { IsText text.now }
    ensures value { IfOk result (λ said. said ≡ field_says text.now) }
    ensures firm { field_says text.now ≡ None → result ≡ Ok None }
{
    let Some(reading) = scan_field(text) else {
        return Ok(None);
    };
    let value = spelled_value(alloc, reading.kind, reading.value.part(text))?;
    let comment = comment_of(alloc, text, reading.comment)?;
    Ok(Some((value, comment)))
}

/// Reads a text of any length, by the grammar of a card's bytes 11 to 80.
pub fn read_field(alloc: Global, text: &[u8]) -> Result<Option<(Value, Option<Text>)>, AllocError>
    ensures value { IfOk result (λ said. said ≡ field_says text.now) }

    // A text without a reading is never out of memory.
    ensures firm { field_says text.now ≡ None → result ≡ Ok None }
{
    if is_text(text) {
        read_text(alloc, text)
    } else {
        Ok(None)
    }
}

/// Reads a card: bytes 11 to 80, whatever its name and whether or not it has a value indicator.
pub fn read_value(alloc: Global, card: &Card) -> Result<Option<(Value, Option<Text>)>, AllocError>
    ensures value { IfOk result (λ said. said ≡ card_says card.now) }

    // A card without a reading is never out of memory.
    ensures firm { card_says card.now ≡ None → result ≡ Ok None }
{
    if !card.is_text() {
        return Ok(None);
    }
    let (_, field) = card.bytes().split_at(10);
    read_text(alloc, field)
}
