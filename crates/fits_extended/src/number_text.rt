//! The texts of numbers, cut into their parts.
ghost use Rattle.std.specs.Prelude.{◌≡◌, ◌≤◌, IfNone, IfSome, false, length, true};
ghost use Rattle.std.specs.List.{prefix_len, take_while};
ghost use Rattle.fits_value.specs.Number.{lowered, raised, signed, value_of};
ghost use Rattle.fits_value.specs.NumberSteps.{after_digits, after_exponent, after_fraction, after_sign, exponent_digits, fraction_digits, is_lowered, is_minus};
ghost use Rattle.fits_value.specs.Says.{is_number};
ghost use Rattle.fits_value.specs.Spelling.{is_digit, IsDigits};
ghost use Rattle.fits_extended.specs.Numbers.{scaled_in, scaled_of};

use crate::number_parts::NumberParts;

// How many digits the text begins with.
fn digits_len(text: &[u8]) -> usize
    ensures value { result ≡ prefix_len is_digit text.now }
    ensures within { result ≤ length text.now }
{
    for (i, byte) in text.iter().enumerate() {
        if *byte < b'0' || b'9' < *byte {
            return i;
        }
    }
    text.len()
}

// The digits that the text begins with, and the rest.
fn split_digits(text: &[u8]) -> (&[u8], &[u8])
    ensures digits { result.0.now ≡ take_while is_digit text.now }
    ensures rest { result.1.now ≡ after_digits text.now }
    ensures are { IsDigits result.0.now }
{
    text.split_at(digits_len(text))
}

// [sign]
fn split_sign(text: &[u8]) -> (bool, &[u8])
    ensures sign { result.0 ≡ is_minus text.now }
    ensures rest { result.1.now ≡ after_sign text.now }
{
    match text {
        [b'-', rest @ ..] => (true, rest),
        [b'+', rest @ ..] => (false, rest),
        _ => (false, text),
    }
}

// [. digits]
fn split_fraction(text: &[u8]) -> (&[u8], &[u8])
    ensures digits { result.0.now ≡ fraction_digits text.now }
    ensures rest { result.1.now ≡ after_fraction text.now }
    ensures are { IsDigits result.0.now }
{
    match text {
        [b'.', rest @ ..] => split_digits(rest),
        _ => (&[], text),
    }
}

// E or D, [sign] digits
fn split_exponent(text: &[u8]) -> (bool, &[u8], &[u8])
    ensures sign { result.0 ≡ is_lowered text.now }
    ensures digits { result.1.now ≡ exponent_digits text.now }
    ensures rest { result.2.now ≡ after_exponent text.now }
    ensures are { IsDigits result.1.now }
{
    if let [b'E' | b'D', power @ ..] = text {
        let (is_lowered, unsigned) = split_sign(power);
        let (digits, rest) = split_digits(unsigned);
        if !digits.is_empty() {
            return (is_lowered, digits, rest);
        }
    }
    (false, &[], text)
}

// The digits of an exponent that raises, and of one that lowers.
fn by_sign(is_lowered: bool, digits: &[u8]) -> (&[u8], &[u8])
    requires { IsDigits digits.now }
    ensures up { value_of result.0.now ≡ raised (signed is_lowered (value_of digits.now)) }
    ensures down { value_of result.1.now ≡ lowered (signed is_lowered (value_of digits.now)) }
    ensures are_up { IsDigits result.0.now }
    ensures are_down { IsDigits result.1.now }
{
    let none: &[u8] = &[];
    if is_lowered {
        (none, digits)
    } else {
        (digits, none)
    }
}

/// The parts of a text that is an integer or a real.
// [sign] digits [. digits] [exponent], with a digit before or after the point
pub(crate) fn parts_of(text: &[u8]) -> Option<NumberParts<'_>>
    ensures some { IfSome result (λ parts. scaled_of parts ≡ scaled_in text.now) }
    ensures found { IfSome result (λ parts. is_number text.now ≡ true) }
    ensures none { IfNone result (is_number text.now ≡ false) }
{
    let (is_negative, unsigned) = split_sign(text);
    let (front, tail) = split_digits(unsigned);
    let (back, last) = split_fraction(tail);
    let (is_lowered, exponent, rest) = split_exponent(last);
    if front.is_empty() && back.is_empty() {
        return None;
    }
    if !rest.is_empty() {
        return None;
    }
    let (up, down) = by_sign(is_lowered, exponent);
    Some(NumberParts {
        is_negative,
        front,
        back,
        up,
        down,
    })
}
