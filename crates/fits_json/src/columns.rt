//! How a line is read by its columns.
ghost use Rattle.std.specs.Prelude.{◌≡◌, ◌+◌, ◌≤◌, ◌==◌, Bool, false, true, not, ◌||◌, length, take, drop, option_map, IfSome, IfNone, Some, None};
ghost use Rattle.std.specs.List.{prefix_len};
ghost use Rattle.fits_json.specs.Columns.{is_number_byte, quotes_len, field_len, least_len, begins_so, behind_lead, stands_first, field_in, behind_column, has_form, form_of};

use crate::column::{Column, Kind};

/// The first of these forms that a line has.
pub(crate) fn form_for<'f>(forms: &[&'f [Column]], line: &[u8]) -> Option<&'f [Column]>
    ensures { option_map (λ it. it.now) result ≡ form_of forms.now line.now }
{
    for form in forms {
        if fits(form, line) {
            return Some(*form);
        }
    }
    None
}

// Whether a line has this form.
fn fits(columns: &[Column], line: &[u8]) -> bool
    ensures { result ≡ has_form columns.now line.now }
{
    let mut rest = line;
    for column in columns {
        if let Some((_, behind)) = cut(column, rest) {
            rest = behind;
        } else if !column.may_lack {
            return false;
        }
    }
    rest.is_empty()
}

/// The field of a column that stands at the front of a text, and what follows it.
pub(crate) fn cut<'t>(column: &Column, text: &'t [u8]) -> Option<(&'t [u8], &'t [u8])>
    ensures first { IfSome result (λ it. stands_first column.now text.now ≡ true) }
    ensures field { IfSome result (λ it. it.0.now ≡ field_in column.now text.now) }
    ensures behind { IfSome result (λ it. it.1.now ≡ behind_column column.now text.now) }
    ensures none { IfNone result (stands_first column.now text.now ≡ false) }
{
    let rest = past_lead(text, column.lead.as_bytes())?;
    let len = len_of(column.kind, rest);
    if len < least_of(column.kind) {
        return None;
    }
    Some(rest.split_at(len))
}

// What follows this, where a text begins with it.
fn past_lead<'t>(text: &'t [u8], lead: &[u8]) -> Option<&'t [u8]>
    ensures begins { IfSome result (λ it. begins_so text.now lead.now ≡ true) }
    ensures rest { IfSome result (λ it. it.now ≡ drop (length lead.now) text.now) }
    ensures none { IfNone result (begins_so text.now lead.now ≡ false) }
{
    if text.len() < lead.len() {
        return None;
    }
    let (front, rest) = text.split_at(lead.len());
    if front == lead { Some(rest) } else { None }
}

// How many bytes a field of this kind takes.
fn len_of(kind: Kind, text: &[u8]) -> usize
    ensures value { result ≡ field_len kind text.now }
    ensures within { result ≤ length text.now }
{
    match kind {
        Kind::Number => number_len(text),
        Kind::Numbers(separator) => numbers_len(text, separator),
        Kind::Text(stop) => len_before(text, stop),
        Kind::Through(last) => text.len().min(len_before(text, last) + 1),
        Kind::Quoted => string_len(text),
        Kind::Rest => text.len(),
        Kind::Nothing | Kind::Lead | Kind::Null | Kind::True | Kind::False | Kind::Empty => 0,
    }
}

// How many it takes at least.
fn least_of(kind: Kind) -> usize
    ensures { result ≡ least_len kind }
{
    match kind {
        Kind::Number => 1,
        Kind::Quoted => 2,
        _ => 0,
    }
}

// [+-0-9]*
fn number_len(text: &[u8]) -> usize
    ensures value { result ≡ prefix_len is_number_byte text.now }
    ensures within { result ≤ length text.now }
{
    for (i, byte) in text.iter().enumerate() {
        if !is_of_number(*byte) {
            return i;
        }
    }
    text.len()
}

// [+-0-9SEPARATOR]*
fn numbers_len(text: &[u8], separator: u8) -> usize
    ensures value { result
        ≡ prefix_len (λ byte. is_number_byte byte || (byte == separator)) text.now }
    ensures within { result ≤ length text.now }
{
    for (i, byte) in text.iter().enumerate() {
        if !is_of_numbers(*byte, separator) {
            return i;
        }
    }
    text.len()
}

/// How many bytes stand before this one, or before the end.
pub(crate) fn len_before(text: &[u8], stop: u8) -> usize
    ensures value { result ≡ prefix_len (λ byte. not (byte == stop)) text.now }
    ensures within { result ≤ length text.now }
{
    for (i, byte) in text.iter().enumerate() {
        if *byte == stop {
            return i;
        }
    }
    text.len()
}

// ' characters with each quote doubled '
fn string_len(text: &[u8]) -> usize
    ensures value { result ≡ quotes_len false text.now }
    ensures within { result ≤ length text.now }
{
    let mut inside = false;
    for (i, byte) in text.iter().enumerate() {
        if *byte == b'\'' {
            inside = !inside;
        } else if !inside {
            return i;
        }
    }
    text.len()
}

fn is_of_number(byte: u8) -> bool
    ensures { result ≡ is_number_byte byte }
{
    byte.is_ascii_digit() || byte == b'+' || byte == b'-'
}

fn is_of_numbers(byte: u8, separator: u8) -> bool
    ensures { result ≡ (is_number_byte byte || (byte == separator)) }
{
    is_of_number(byte) || byte == separator
}
