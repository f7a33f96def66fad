//! The numbers that integers and reals denote, by digits and decimal exponent.
ghost use Rattle.std.specs.Prelude.{◌≡◌, ◌≤◌, ◌<◌, ◌+◌, ◌*◌, ◌^◌, ◌++◌, ◌↔◌, Bool, ℕ, ℤ, List, Some, IsTrue, if◌then◌else◌, IfSome, IfNone, IsSomeAnd, SomeIff, FitsSigned, unsigned_abs, length};
ghost use Rattle.std.specs.Int.{w64};
ghost use Rattle.std.specs.List.{fold};
ghost use Rattle.fits_value.specs.Spelling.{IsDigits};
ghost use Rattle.fits_value.specs.Number.{with_digit, value_of, signed, IsSigned, IsIntegerOf, IsDecimal, IsExactly, Denotes};
ghost use Rattle.fits_value.specs.Says.{integer_in, says_number};
ghost use Rattle.fits_value.specs.Scan.{number_of};
ghost use Rattle.fits_value.specs.declared.reading.ValueKind.TheVariants.{Integer, Real};

use crate::decimal::{Decimal, scan_decimal};

/// How many digits a number of 127 bits has at most.
const MOST_DIGITS: u128 = 39;

/// The parts of an integer or a real.
fn split_decimal(text: &[u8]) -> Option<Decimal<'_>>
    ensures found { IfSome result (λ d. IsDecimal text.now d.is_negative d.front.now d.back.now
        (signed d.is_lowered (value_of d.exponent.now))) }
    ensures digits { IfSome result (λ d. IsDigits d.exponent.now) }
    ensures kind { IfSome result (λ d. number_of text.now
        ≡ Some (if d.is_integer then Integer else Real, length text.now)) }
    ensures none { IfNone result ((negative : Bool) (front back : List ℕ) (power : ℤ)
        → IsDecimal text.now negative front back power → ⊥) }
{
    let Some((decimal, rest)) = scan_decimal(text) else {
        return None;
    };
    if rest.is_empty() { Some(decimal) } else { None }
}

/// Whether an integer has a minus sign, and its digits.
#[tactic(auto, using(crate::proofs::NumberScanLemmas::integer_reads))]
fn split_integer(text: &[u8]) -> Option<(bool, &[u8])>
    ensures found { IfSome result (λ r. IsSigned text.now r.0 r.1.now) }
    ensures only { (negative : Bool) (digits : List ℕ) → IsSigned text.now negative digits
        → IsSomeAnd result (λ r. (r.0 ≡ negative) × (r.1.now ≡ digits)) }
{
    let Some(decimal) = split_decimal(text) else {
        return None;
    };
    if decimal.is_integer {
        Some((decimal.is_negative, decimal.front))
    } else {
        None
    }
}

/// The number that has these digits after those of `start`, where it is at most `limit`.
fn append_digits(start: u128, digits: &[u8], limit: u128) -> Option<u128>
    requires small { limit ≤ 2 ^ 127 }
    requires start { start ≤ limit }
    requires digits { IsDigits digits.now }
    ensures value { IfSome result (λ n. n ≡ fold with_digit start digits.now) }
    ensures within { IfSome result (λ n. n ≤ limit) }
    ensures large { IfNone result (limit < fold with_digit start digits.now) }
{
    let mut number = start;
    for digit in digits {
        if number > limit / 10 {
            return None;
        }
        number = number * 10 + (*digit - b'0') as u128;
        if number > limit {
            return None;
        }
    }
    Some(number)
}

/// Whether each digit is a zero.
fn are_zeros(digits: &[u8]) -> bool
    requires { IsDigits digits.now }
    ensures { IsTrue result ↔ (value_of digits.now ≡ 0) }
{
    for digit in digits {
        if *digit != b'0' {
            return false;
        }
    }
    true
}

/// Whether each digit of both parts is a zero.
#[tactic(auto, using(crate::proofs::DigitLemmas::by_all_zeros))]
fn are_both_zeros(front: &[u8], back: &[u8]) -> bool
    requires front { IsDigits front.now }
    requires back { IsDigits back.now }
    ensures { IsTrue result ↔ (value_of (front.now ++ back.now) ≡ 0) }
{
    are_zeros(front) && are_zeros(back)
}

/// The number without this many zeros at its end.
fn without_zeros(number: u128, zeros: usize) -> Option<u128>
    ensures value { IfSome result (λ m. m * 10 ^ zeros ≡ number) }
    ensures within { IfSome result (λ m. m ≤ number) }
    ensures none { IfNone result ((m : ℕ) → m * 10 ^ zeros ≡ number → ⊥) }
{
    let mut rest = number;
    for i in 0..zeros {
        if rest % 10 != 0 {
            return None;
        }
        rest /= 10;
    }
    Some(rest)
}

/// Whether the digits of both parts, one after the other, stand for this number.
#[tactic(auto, using(crate::proofs::DigitLemmas::joined_values))]
fn stand_for(front: &[u8], back: &[u8], number: u128) -> bool
    requires small { number ≤ 2 ^ 127 }
    requires front { IsDigits front.now }
    requires back { IsDigits back.now }
    ensures { IsTrue result ↔ (value_of (front.now ++ back.now) ≡ number) }
{
    let Some(start) = append_digits(0, front, number) else {
        return false;
    };
    match append_digits(start, back, number) {
        Some(found) => found == number,
        None => false,
    }
}

/// Whether digits with a point are this number once the exponent moves the point to the left.
fn equal_lowered(front: &[u8], back: &[u8], exponent: &[u8], number: u128) -> bool
    requires some { 0 < number }
    requires small { number ≤ 2 ^ 127 }
    requires front { IsDigits front.now }
    requires back { IsDigits back.now }
    requires exponent { IsDigits exponent.now }
    ensures { IsTrue result ↔ (value_of (front.now ++ back.now)
        ≡ number * 10 ^ (length back.now + value_of exponent.now)) }
{
    let Some(places) = append_digits(0, exponent, front.len() as u128) else {
        return false;
    };
    let (whole, behind) = front.split_at(front.len() - places as usize);
    are_both_zeros(behind, back) && stand_for(whole, &[], number)
}

/// Whether digits with a point are this number once the exponent moves the point to the right.
fn equal_raised(front: &[u8], back: &[u8], exponent: &[u8], number: u128) -> bool
    requires some { 0 < number }
    requires small { number ≤ 2 ^ 127 }
    requires front { IsDigits front.now }
    requires back { IsDigits back.now }
    requires exponent { IsDigits exponent.now }
    ensures { IsTrue result ↔ (value_of (front.now ++ back.now) * 10 ^ value_of exponent.now
        ≡ number * 10 ^ length back.now) }
{
    let Some(places) = append_digits(0, exponent, back.len() as u128 + MOST_DIGITS) else {
        return false;
    };
    let places = places as usize;
    if places < back.len() {
        let (whole, behind) = back.split_at(places);
        return are_zeros(behind) && stand_for(front, whole, number);
    }
    match without_zeros(number, places - back.len()) {
        Some(rest) => stand_for(front, back, rest),
        None => false,
    }
}

/// Whether the decimal without its sign is this number.
fn equals(decimal: &Decimal<'_>, number: u128) -> bool
    requires small { number ≤ 2 ^ 127 }
    requires front { IsDigits decimal.now.front.now }
    requires back { IsDigits decimal.now.back.now }
    requires exponent { IsDigits decimal.now.exponent.now }
    ensures { IsTrue result ↔ IsExactly decimal.now.front.now decimal.now.back.now
        (signed decimal.now.is_lowered (value_of decimal.now.exponent.now)) number }
{
    if number == 0 {
        are_both_zeros(decimal.front, decimal.back)
    } else if decimal.is_lowered {
        equal_lowered(decimal.front, decimal.back, decimal.exponent, number)
    } else {
        equal_raised(decimal.front, decimal.back, decimal.exponent, number)
    }
}

/// Whether the number may stand after a minus sign, or after none.
#[tactic(auto, using(crate::proofs::NumberLemmas::signs))]
fn has_sign(number: i128, is_negative: bool) -> bool
    ensures { IsTrue result ↔ (number ≡ signed is_negative (unsigned_abs number)) }
{
    if is_negative {
        number <= 0
    } else {
        number >= 0
    }
}

/// Whether the text is an integer or a real that denotes exactly this number.
pub fn denotes(text: &[u8], number: i128) -> bool
    ensures value { result ≡ says_number text.now number }
    ensures exact { IsTrue result ↔ Denotes text.now number }
{
    let size = number.unsigned_abs();
    match split_decimal(text) {
        Some(decimal) => has_sign(number, decimal.is_negative) && equals(&decimal, size),
        None => false,
    }
}

/// The number of this size and sign, where it fits.
fn with_sign(is_negative: bool, size: u128) -> Option<i64>
    requires { size ≤ 2 ^ 63 }
    ensures { SomeIff result (FitsSigned w64 (signed is_negative size)) (signed is_negative size) }
{
    let size = size as i128;
    i64::try_from(if is_negative { -size } else { size }).ok()
}

/// The number of an integer, where it fits.
pub fn integer_of(text: &[u8]) -> Option<i64>
    ensures found { IfSome result (λ number. integer_in text.now ≡ Some number) }
    ensures none { IfNone result ((number : ℤ)
        → integer_in text.now ≡ Some number → FitsSigned w64 number → ⊥) }
{
    let (is_negative, digits) = split_integer(text)?;
    let size = append_digits(0, digits, 1 << 63)?;
    with_sign(is_negative, size)
}
