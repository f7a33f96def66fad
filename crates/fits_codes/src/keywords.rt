//! The keywords that the standard gives a meaning (FITS Standard 4.0, sections 4.4.1 and 4.4.2).
ghost use Rattle.std.specs.Prelude.{◌≡◌, ◌≤◌, length};
ghost use Rattle.std.specs.List.{list_all, list_any, prefix_len};
ghost use Rattle.fits_value.specs.Characters.{is_digit, is_space};
ghost use Rattle.fits_rules.specs.Class.{is_primary};
ghost use Rattle.fits_codes.specs.Keywords.{is_one_of, is_count, axis_number, keyword_type, suits, mandatory_names, is_mandatory, mandatory_type, is_up_to};

use crate::dates::number_of;
use fits_card::Name;
use fits_rules::Class;
use fits_value::ValueKind;

const LOGICAL: [[u8; 8]; 4] = [*b"SIMPLE  ", *b"EXTEND  ", *b"GROUPS  ", *b"INHERIT "];

const INTEGER: [[u8; 8]; 7] = [
    *b"BITPIX  ",
    *b"NAXIS   ",
    *b"PCOUNT  ",
    *b"GCOUNT  ",
    *b"BLANK   ",
    *b"EXTVER  ",
    *b"EXTLEVEL",
];

const REAL: [[u8; 8]; 5] = [
    *b"BSCALE  ",
    *b"BZERO   ",
    *b"DATAMAX ",
    *b"DATAMIN ",
    *b"EQUINOX ",
];

const STRING: [[u8; 8]; 14] = [
    *b"XTENSION",
    *b"ORIGIN  ",
    *b"TELESCOP",
    *b"INSTRUME",
    *b"OBSERVER",
    *b"OBJECT  ",
    *b"AUTHOR  ",
    *b"REFERENC",
    *b"BUNIT   ",
    *b"EXTNAME ",
    *b"DATE    ",
    *b"DATE-OBS",
    *b"CHECKSUM",
    *b"DATASUM ",
];

const MANDATORY_IN_PRIMARY: [[u8; 8]; 3] = [*b"SIMPLE  ", *b"BITPIX  ", *b"NAXIS   "];

const MANDATORY_IN_EXTENSION: [[u8; 8]; 5] = [
    *b"XTENSION",
    *b"BITPIX  ",
    *b"NAXIS   ",
    *b"PCOUNT  ",
    *b"GCOUNT  ",
];

/// Commentary (4.4.2.4).
pub(crate) const COMMENTARY: [[u8; 8]; 3] = [*b"COMMENT ", *b"HISTORY ", *b"        "];

/// The keywords of dates (4.4.2.1, 4.4.2.2).
pub(crate) const DATE: [[u8; 8]; 2] = [*b"DATE    ", *b"DATE-OBS"];

/// The keywords that are deprecated (4.4.2.1, 8.3).
pub(crate) const DEPRECATED: [[u8; 8]; 2] = [*b"EPOCH   ", *b"BLOCKED "];

/// The counts of groups (4.4.1.2).
pub(crate) const COUNT: [[u8; 8]; 2] = [*b"PCOUNT  ", *b"GCOUNT  "];

/// Whether the name is one of these.
pub(crate) fn is_one_of(names: &[[u8; 8]], name: &Name) -> bool
    ensures { result ≡ is_one_of names.now name.now }
{
    names.iter().any(|other| name.is(other))
}

// How many digits a text begins with.
fn digits_len(text: &[u8]) -> usize
    ensures value { result ≡ prefix_len is_digit text.now }
    ensures within { result ≤ length text.now }
{
    for (index, byte) in text.iter().enumerate() {
        if !byte.is_ascii_digit() {
            return index;
        }
    }
    text.len()
}

// Whether the bytes are spaces.
fn are_spaces(text: &[u8]) -> bool
    ensures { result ≡ list_all is_space text.now }
{
    text.iter().all(|byte| *byte == b' ')
}

// Whether digits are those of a number from 1 on.
fn is_count(digits: &[u8]) -> bool
    ensures { result ≡ is_count digits.now }
{
    match digits {
        [] => false,
        [first, ..] => *first != b'0',
    }
}

// The n of NAXISn.
#[tactic(auto, unfolding(crate::specs::Keywords::axis_number))]
fn axis_number(name: &Name) -> Option<u32>
    ensures { result ≡ axis_number name.now }
{
    let (root, rest) = name.0.split_at(5);
    if root != b"NAXIS".as_slice() {
        return None;
    }
    let (digits, spaces) = rest.split_at(digits_len(rest));
    if is_count(digits) && are_spaces(spaces) {
        Some(number_of(digits))
    } else {
        None
    }
}

/// The type that the standard gives a keyword's value.
#[tactic(auto, unfolding(crate::specs::Keywords::keyword_type))]
pub(crate) fn keyword_type(name: &Name) -> Option<ValueKind>
    ensures { result ≡ keyword_type name.now }
{
    if is_one_of(&LOGICAL, name) {
        Some(ValueKind::Logical)
    } else if is_one_of(&INTEGER, name) || axis_number(name).is_some() {
        Some(ValueKind::Integer)
    } else if is_one_of(&REAL, name) {
        Some(ValueKind::Real)
    } else if is_one_of(&STRING, name) {
        Some(ValueKind::Str)
    } else {
        None
    }
}

/// Whether a value of the second type may stand where the first is wanted.
pub(crate) fn suits(wanted: ValueKind, kind: ValueKind) -> bool
    ensures { result ≡ suits wanted kind }
{
    matches!(
        (wanted, kind),
        (_, ValueKind::Undefined)
            | (ValueKind::Logical, ValueKind::Logical)
            | (ValueKind::Integer, ValueKind::Integer)
            | (ValueKind::Real, ValueKind::Real | ValueKind::Integer)
            | (ValueKind::Str, ValueKind::Str)
    )
}

// Whether the number is there, and at most so large.
fn is_up_to(limit: usize, number: Option<u32>) -> bool
    ensures { result ≡ is_up_to limit number }
{
    match number {
        Some(number) => number as usize <= limit,
        None => false,
    }
}

// Whether the name is mandatory, and none of NAXISn.
fn has_mandatory_name(class: Class, name: &Name) -> bool
    ensures { result ≡ is_one_of (mandatory_names (is_primary class)) name.now }
{
    if class.is_primary() {
        is_one_of(&MANDATORY_IN_PRIMARY, name)
    } else {
        is_one_of(&MANDATORY_IN_EXTENSION, name)
    }
}

/// Whether the name is mandatory in an HDU of this class with so many axes.
#[tactic(auto, unfolding(crate::specs::Keywords::is_mandatory))]
pub(crate) fn is_mandatory(class: Class, axes: usize, name: &Name) -> bool
    ensures { result ≡ is_mandatory class axes name.now }
{
    has_mandatory_name(class, name) || is_up_to(axes, axis_number(name))
}

/// The type of the mandatory keyword at a place.
pub(crate) fn mandatory_type(class: Class, place: usize) -> ValueKind
    ensures { result ≡ mandatory_type class place }
{
    if place != 1 {
        ValueKind::Integer
    } else if class.is_primary() {
        ValueKind::Logical
    } else {
        ValueKind::Str
    }
}
