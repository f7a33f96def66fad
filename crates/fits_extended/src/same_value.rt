//! Whether values are the same, however they are spelled.
ghost use Rattle.std.specs.Prelude.{◌≡◌, not, if◌then◌else◌};
ghost use Rattle.std.specs.Str.{bytes_eq};
ghost use Rattle.fits_extended.specs.Same.{is_flag, is_pair, is_same_value, is_text, is_this_number, is_undefined};
ghost use Rattle.fits_extended.specs.Stands.{has_comment};

use crate::same_number::is_same_number;
use fits_value::{Text, Value};

/// Whether two values are of one type, or both numbers, and the same.
pub(crate) fn is_same_value(value: &Value, other: &Value) -> bool
    ensures { result ≡ is_same_value value.now other.now }
{
    match value {
        Value::Undefined => is_undefined(other),
        Value::Logical(flag) => is_flag(*flag, other),
        Value::Integer(text) => is_this_number(text.as_bytes(), other),
        Value::Real(text) => is_this_number(text.as_bytes(), other),
        Value::Complex(real, imaginary) => is_pair(real.as_bytes(), imaginary.as_bytes(), other),
        Value::Str(text) => is_text(text.as_bytes(), other),
    }
}

// Whether a value is undefined.
fn is_undefined(value: &Value) -> bool
    ensures { result ≡ is_undefined value.now }
{
    match value {
        Value::Undefined => true,
        _ => false,
    }
}

// Whether it is this logical.
fn is_flag(flag: bool, value: &Value) -> bool
    ensures { result ≡ is_flag flag value.now }
{
    match value {
        Value::Logical(other) => is_as_wanted(flag, *other),
        _ => false,
    }
}

// Whether it is this number.
fn is_this_number(text: &[u8], value: &Value) -> bool
    ensures { result ≡ is_this_number text.now value.now }
{
    match value {
        Value::Integer(other) => is_same_number(text, other.as_bytes()),
        Value::Real(other) => is_same_number(text, other.as_bytes()),
        _ => false,
    }
}

// Whether it is this complex number.
fn is_pair(real: &[u8], imaginary: &[u8], value: &Value) -> bool
    ensures { result ≡ is_pair real.now imaginary.now value.now }
{
    match value {
        Value::Complex(a, b) => {
            is_same_number(real, a.as_bytes()) && is_same_number(imaginary, b.as_bytes())
        }
        _ => false,
    }
}

/// Whether it is this string.
pub(crate) fn is_text(text: &[u8], value: &Value) -> bool
    ensures { result ≡ is_text text.now value.now }
{
    match value {
        Value::Str(other) => is_same_text(other.as_bytes(), text),
        _ => false,
    }
}

/// Whether two texts have the same bytes.
fn is_same_text(text: &[u8], other: &[u8]) -> bool
    ensures { result ≡ bytes_eq text.now other.now }
{
    text == other
}

/// Whether something is so as it is wanted.
pub(crate) fn is_as_wanted(wanted: bool, so: bool) -> bool
    ensures { result ≡ if wanted then so else not so }
{
    if wanted { so } else { !so }
}

/// Whether a comment is as it is wanted, if one is.
pub(crate) fn has_comment(wanted: &Option<Text>, had: &Option<Text>) -> bool
    ensures { result ≡ has_comment wanted.now had.now }
{
    match (wanted, had) {
        (None, _) => true,
        (Some(_), None) => false,
        (Some(wanted), Some(had)) => is_same_text(wanted.as_bytes(), had.as_bytes()),
    }
}
