ghost use Rattle.std.specs.Prelude.{◌≡◌, ◌≤◌, ◌-◌, length, IfSome, IfNone, Some, None, if◌then◌else◌};
ghost use Rattle.std.specs.List.{prefix_len, take_while};
ghost use Rattle.fits_value.specs.Spelling.{is_digit, IsDigits};
ghost use Rattle.fits_value.specs.Number.{signed, value_of};
ghost use Rattle.fits_value.specs.NumberSteps.{is_minus, after_sign, after_digits, fraction_digits, after_fraction, is_lowered, exponent_digits, after_exponent, BeginsWithDecimal};
ghost use Rattle.fits_value.specs.Scan.{number_of};
ghost use Rattle.fits_value.specs.Written.{number_kind, is_integer, is_real, is_number};
ghost use Rattle.fits_value.specs.declared.reading.ValueKind.TheVariants.{Integer, Real};

use crate::reading::ValueKind;

/// An integer or a real by its parts: digits before and after the point, and an exponent's
/// (FITS Standard 4.0, sections 4.2.3 and 4.2.4).
#[derive(Clone, Copy)]
pub(crate) struct Decimal<'a> {
    /// It has neither a point nor an exponent.
    pub(crate) is_integer: bool,
    pub(crate) is_negative: bool,
    pub(crate) front: &'a [u8],
    pub(crate) back: &'a [u8],
    /// The exponent has a minus sign.
    pub(crate) is_lowered: bool,
    pub(crate) exponent: &'a [u8],
}

// How many digits the text begins with.
fn digits_len(text: &[u8]) -> usize
    ensures value { result ≡ prefix_len is_digit text.now }
    ensures within { result ≤ length text.now }
{
    for (i, byte) in text.iter().enumerate() {
        if *byte < b'0' || b'9' < *byte {
            return i;
        }
    }
    text.len()
}

// The digits that the text begins with, and the rest.
fn split_digits(text: &[u8]) -> (&[u8], &[u8])
    ensures digits { result.0.now ≡ take_while is_digit text.now }
    ensures rest { result.1.now ≡ after_digits text.now }
{
    text.split_at(digits_len(text))
}

/// Whether a minus sign comes first, and what follows a sign.
// [sign]
pub(crate) fn split_sign(text: &[u8]) -> (bool, &[u8])
    ensures sign { result.0 ≡ is_minus text.now }
    ensures rest { result.1.now ≡ after_sign text.now }
{
    match text {
        [b'-', rest @ ..] => (true, rest),
        [b'+', rest @ ..] => (false, rest),
        _ => (false, text),
    }
}

// [. digits]
fn split_fraction(text: &[u8]) -> (&[u8], &[u8])
    ensures digits { result.0.now ≡ fraction_digits text.now }
    ensures rest { result.1.now ≡ after_fraction text.now }
{
    match text {
        [b'.', rest @ ..] => split_digits(rest),
        _ => (&[], text),
    }
}

// E or D, [sign] digits
fn split_exponent(text: &[u8]) -> (bool, &[u8], &[u8])
    ensures sign { result.0 ≡ is_lowered text.now }
    ensures digits { result.1.now ≡ exponent_digits text.now }
    ensures rest { result.2.now ≡ after_exponent text.now }
{
    if let [b'E' | b'D', power @ ..] = text {
        let (is_lowered, unsigned) = split_sign(power);
        let (digits, rest) = split_digits(unsigned);
        if !digits.is_empty() {
            return (is_lowered, digits, rest);
        }
    }
    (false, &[], text)
}

/// The decimal that the text begins with, and the rest.
// [sign] digits [. digits] [exponent], with a digit before or after the point
#[tactic(auto, using(crate::proofs::NumberLemmas::split_steps), unfolding(crate::specs::Scan::number_of))]
pub(crate) fn scan_decimal(text: &[u8]) -> Option<(Decimal<'_>, &[u8])>
    ensures found { IfSome result (λ r. BeginsWithDecimal text.now
        r.0.is_negative r.0.front.now r.0.back.now
        (signed r.0.is_lowered (value_of r.0.exponent.now)) r.1.now) }
    ensures digits { IfSome result (λ r. IsDigits r.0.exponent.now) }
    ensures kind { IfSome result (λ r. number_of text.now ≡ Some
        (if r.0.is_integer then Integer else Real, length text.now - length r.1.now)) }
    ensures within { IfSome result (λ r. length r.1.now ≤ length text.now) }
    ensures none { IfNone result (number_of text.now ≡ None) }
{
    let (is_negative, unsigned) = split_sign(text);
    let (front, tail) = split_digits(unsigned);
    let (back, last) = split_fraction(tail);
    let (is_lowered, exponent, rest) = split_exponent(last);
    if front.is_empty() && back.is_empty() {
        return None;
    }
    let decimal = Decimal {
        is_integer: rest.len() == tail.len(),
        is_negative,
        front,
        back,
        is_lowered,
        exponent,
    };
    Some((decimal, rest))
}

/// The kind of the number that the text begins with, and how many bytes it has.
pub(crate) fn scan_number(text: &[u8]) -> Option<(ValueKind, usize)>
    ensures value { result ≡ number_of text.now }
    ensures within { IfSome result (λ number. number.1 ≤ length text.now) }
{
    let (decimal, rest) = scan_decimal(text)?;
    let kind = if decimal.is_integer {
        ValueKind::Integer
    } else {
        ValueKind::Real
    };
    Some((kind, text.len() - rest.len()))
}

// The kind of a text that is a number.
#[tactic(auto, unfolding(crate::specs::Written::number_kind))]
fn number_kind(text: &[u8]) -> Option<ValueKind>
    ensures { result ≡ number_kind text.now }
{
    let (kind, len) = scan_number(text)?;
    if len == text.len() { Some(kind) } else { None }
}

/// Whether a text is an integer.
pub(crate) fn is_integer(text: &[u8]) -> bool
    ensures { result ≡ is_integer text.now }
{
    matches!(number_kind(text), Some(ValueKind::Integer))
}

/// Whether a text is a real number.
pub(crate) fn is_real(text: &[u8]) -> bool
    ensures { result ≡ is_real text.now }
{
    matches!(number_kind(text), Some(ValueKind::Real))
}

/// Whether a text is an integer or a real number.
pub(crate) fn is_number(text: &[u8]) -> bool
    ensures { result ≡ is_number text.now }
{
    is_integer(text) || is_real(text)
}
