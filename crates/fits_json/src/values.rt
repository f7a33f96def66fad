//! What a field of a line is in JSON.
ghost use Rattle.std.specs.Prelude.{◌≡◌, ◌<◌, ◌==◌, IfOk, OnOk, IfSome, MatchOption, List, [], ◌∷◌, ◌++◌, length, map, string_bytes, true, option_map};
ghost use Rattle.std.specs.List.{slice_split};
ghost use Rattle.serde_json.specs.Data.{string};
ghost use Rattle.serde_json.specs.View.{view, number_view};
ghost use Rattle.fits_json.specs.Values.{characters, undoubled, unquoted, is_of_64_bits, integer_said, number_or, number_data, words_between, data_by};

use crate::column::{Column, Kind};
use serde_json::{Number, Value};
use std::alloc::{AllocError, Global};

/// What the field of a column is.
pub(crate) fn value_of(alloc: Global, column: &Column, field: &[u8]) -> Result<Value, AllocError>
    ensures { IfOk result (λ it. view it
        ≡ data_by column.now.kind column.now.lead.now field.now) }
{
    match column.kind {
        Kind::Nothing => Ok(Value::Null),
        Kind::Lead => Value::try_from_str(alloc, column.lead),
        Kind::Null => Ok(Value::Null),
        Kind::True => Ok(Value::Bool(true)),
        Kind::False => Ok(Value::Bool(false)),
        Kind::Empty => Ok(Value::Array(Vec::new(alloc))),
        Kind::Number => number(alloc, field),
        Kind::Numbers(separator) => Ok(Value::Array(numbers(alloc, field, separator)?)),
        Kind::Text(_) => text(alloc, field),
        Kind::Through(_) => text(alloc, field),
        Kind::Quoted => quoted(alloc, field),
        Kind::Rest => text(alloc, field),
    }
}

/// Bytes as a text.
pub(crate) fn text(alloc: Global, bytes: &[u8]) -> Result<Value, AllocError>
    ensures { IfOk result (λ it. view it ≡ string (characters bytes.now)) }
{
    Ok(Value::String(string_of(alloc, bytes)?))
}

// A string in quotes, without them.
fn quoted(alloc: Global, field: &[u8]) -> Result<Value, AllocError>
    ensures { IfOk result (λ it. view it ≡ string (characters (unquoted field.now))) }
{
    let bytes = without_quotes(alloc, field)?;
    text(alloc, &bytes)
}

fn without_quotes(alloc: Global, field: &[u8]) -> Result<Vec<u8>, AllocError>
    ensures { IfOk result (λ it. it.items ≡ unquoted field.now) }
{
    match field {
        [_, rest @ ..] => undoubled_of(alloc, rest),
        [] => Ok(Vec::new(alloc)),
    }
}

// What follows an opening quote, with each doubled quote once.
fn undoubled_of(alloc: Global, rest: &[u8]) -> Result<Vec<u8>, AllocError>
    ensures { IfOk result (λ it. it.items ≡ undoubled true rest.now) }
{
    let mut bytes = Vec::new(alloc);
    let mut inside = true;
    for byte in rest {
        let is_quote = *byte == b'\'';
        if !(is_quote && inside) {
            bytes.push(*byte)?;
        }
        inside = inside != is_quote;
    }
    Ok(bytes)
}

// Bytes as characters.
fn string_of(alloc: Global, bytes: &[u8]) -> Result<String, AllocError>
    ensures { IfOk result (λ it. string_bytes it ≡ characters bytes.now) }
{
    let mut text = String::with_capacity(alloc, bytes.len())?;
    for byte in bytes {
        text.push(char::from(*byte))?;
    }
    Ok(text)
}

// A number, or null for a hyphen.
fn number(alloc: Global, word: &[u8]) -> Result<Value, AllocError>
    ensures { IfOk result (λ it. view it ≡ number_data word.now) }
{
    if word == b"-".as_slice() {
        return Ok(Value::Null);
    }
    Ok(integer(string_of(alloc, word)?))
}

// The integer that a text is, where it has 64 bits, else the text.
fn integer(text: String) -> Value
    ensures { view result ≡ number_or (string_bytes text) (integer_said (string_bytes text)) }
{
    match integer_in(text.as_str()) {
        Some(number) => Value::Number(number),
        None => Value::String(text),
    }
}

fn integer_in(text: &str) -> Option<Number>
    ensures { option_map number_view result ≡ integer_said text.now }
{
    let Ok(number) = text.parse::<i128>() else {
        return None;
    };
    if has_64_bits(number) {
        Number::from_i128(number)
    } else {
        None
    }
}

fn has_64_bits(number: i128) -> bool
    ensures { result ≡ is_of_64_bits number }
{
    i64::MIN as i128 <= number && number < 1 << 64
}

// The numbers of a text, with this byte between.
fn numbers(alloc: Global, words: &[u8], separator: u8) -> Result<Vec<Value>, AllocError>
    ensures { IfOk result (λ it. map view it.items
        ≡ map number_data (words_between separator words.now)) }
{
    if words.is_empty() {
        return Ok(Vec::new(alloc));
    }
    some_numbers(alloc, words, separator)
}

// The same of a text that isn't empty.
fn some_numbers(alloc: Global, words: &[u8], separator: u8) -> Result<Vec<Value>, AllocError>
    ensures { IfOk result (λ it. map view it.items
        ≡ map number_data (slice_split (λ it. it == separator) words.now)) }
{
    let mut items = Vec::new(alloc);
    let mut left = Some(words);
    while let Some(words) = left {
        let (word, behind) = first_word(words, separator);
        items.push(number(alloc, word)?)?;
        left = behind;
    }
    Ok(items)
}

// The first of words with this byte between, and those behind it.
fn first_word(words: &[u8], separator: u8) -> (&[u8], Option<&[u8]>)
    ensures parts { MatchOption result.1
        (slice_split (λ it. it == separator) words.now ≡ result.0.now ∷ [])
        (λ behind. slice_split (λ it. it == separator) words.now
        ≡ result.0.now ∷ slice_split (λ it. it == separator) behind.now) }
    ensures shorter { IfSome result.1 (λ behind. length behind.now < length words.now) }
{
    for (i, byte) in words.iter().enumerate() {
        if *byte == separator {
            let (word, rest) = words.split_at(i);
            let (_, behind) = rest.split_at(1);
            return (word, Some(behind));
        }
    }
    (words, None)
}
