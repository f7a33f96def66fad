//! Numbers without a sign.
ghost use Rattle.std.specs.Prelude.{◌≡◌, ◌≤◌, length};
ghost use Rattle.std.specs.List.{list_all, prefix_len, take_while};
ghost use Rattle.fits_value.specs.Characters.{is_digit};
ghost use Rattle.fits_value.specs.NumberSteps.{after_digits};
ghost use Rattle.fits_table.specs.Numeral.{numeral};

use fits_value::integer_of;

// How many digits the text begins with.
fn digits_len(text: &[u8]) -> usize
    ensures value { result ≡ prefix_len is_digit text.now }
    ensures within { result ≤ length text.now }
{
    for (index, byte) in text.iter().enumerate() {
        if !byte.is_ascii_digit() {
            return index;
        }
    }
    text.len()
}

/// The digits that the text begins with, and what follows them.
pub(crate) fn split_digits(text: &[u8]) -> (&[u8], &[u8])
    ensures digits { result.0.now ≡ take_while is_digit text.now }
    ensures rest { result.1.now ≡ after_digits text.now }
{
    text.split_at(digits_len(text))
}

// Whether each byte is a digit.
fn are_digits(text: &[u8]) -> bool
    ensures { result ≡ list_all is_digit text.now }
{
    text.iter().all(|byte| b'0' <= *byte && *byte <= b'9')
}

/// The number that digits stand for, at least one, where it has at most 63 bits.
#[tactic(auto, using(crate::proofs::NumeralLemmas::numeral_steps))]
pub(crate) fn numeral(text: &[u8]) -> Option<u64>
    ensures { result ≡ numeral text.now }
{
    if !are_digits(text) {
        return None;
    }
    match integer_of(text) {
        Some(number) if number >= 0 => Some(number as u64),
        _ => None,
    }
}
