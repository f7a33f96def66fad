//! Whether two texts denote the same number, however they are spelled.
ghost use Rattle.std.specs.Prelude.{◌≡◌, ◌≢◌, ◌≤◌, ◌<◌, ◌+◌, ◌-◌, ◌*◌, ◌^◌, ◌%◌, ◌↔◌, IfNone, IfSome, IsTrue, length};
ghost use Rattle.fits_value.specs.Number.{value_of};
ghost use Rattle.fits_value.specs.Spelling.{IsDigits};
ghost use Rattle.fits_extended.specs.Numbers.{DenoteSame, are_same, denote_same, is_same_sign, length_of_run, length_of_sum, scaled_of, value_of_run, value_of_sum};

use crate::digit_run::DigitRun;
use crate::digit_sum::DigitSum;
use crate::number_parts::NumberParts;
use crate::number_text::parts_of;

// The digits before the last one, and that, or 0 where there is none.
fn cut_last(digits: &[u8]) -> (&[u8], u8)
    requires { IsDigits digits.now }
    ensures value { value_of digits.now ≡ value_of result.0.now * 10 + result.1 }
    ensures last { result.1 < 10 }
    ensures are { IsDigits result.0.now }
    ensures shorter { length result.0.now ≡ length digits.now - 1 }
{
    match digits {
        [before @ .., last] => (before, *last - b'0'),
        [] => (digits, 0),
    }
}

// The run without its last digit, and that, or 0 where there is none.
fn cut_run(run: DigitRun<'_>) -> (DigitRun<'_>, u8)
    ensures value { value_of_run run.entry ≡ value_of_run result.0 * 10 + result.1 }
    ensures last { result.1 < 10 }
    ensures shorter { length_of_run result.0 ≡ length_of_run run.entry - 1 }
{
    let DigitRun { front, back } = run;
    if back.is_empty() {
        let (front, last) = cut_last(front);
        (DigitRun { front, back }, last)
    } else {
        let (back, last) = cut_last(back);
        (DigitRun { front, back }, last)
    }
}

// Whether no digit is left.
fn is_gone(run: DigitRun<'_>) -> bool
    ensures { IsTrue result ↔ (length_of_run run.entry ≡ 0) }
{
    run.front.is_empty() && run.back.is_empty()
}

// The run without the zeros at its end, and how many they are; a run of zeros has none.
fn without_zeros(digits: DigitRun<'_>) -> Option<(DigitRun<'_>, usize)>
    ensures value { IfSome result (λ r. value_of_run digits.entry ≡ value_of_run r.0 * 10 ^ r.1) }
    ensures last { IfSome result (λ r. value_of_run r.0 % 10 ≢ 0) }
    ensures none { IfNone result (value_of_run digits.entry ≡ 0) }
{
    let mut run = digits;
    let mut zeros = 0;
    'zeros: while !is_gone(run) {
        let (before, last) = cut_run(run);
        if last != 0 {
            return Some((run, zeros));
        }
        run = before;
        zeros += 1;
    }
    None
}

// Whether two runs stand for the same whole number.
fn are_same_runs(a: DigitRun<'_>, b: DigitRun<'_>) -> bool
    ensures { IsTrue result ↔ (value_of_run a.entry ≡ value_of_run b.entry) }
{
    let mut run = a;
    let mut other = b;
    'digits: while !is_gone(run) || !is_gone(other) {
        let (before, last) = cut_run(run);
        let (other_before, other_last) = cut_run(other);
        if last != other_last {
            return false;
        }
        run = before;
        other = other_before;
    }
    true
}

// The sum without its last digit, and that.
fn cut_sum(sum: DigitSum<'_>) -> (DigitSum<'_>, u8)
    ensures value { value_of_sum sum.entry ≡ value_of_sum result.0 * 10 + result.1 }
    ensures last { result.1 < 10 }
    ensures shorter { length_of_sum result.0 ≤ length_of_sum sum.entry - 1 }
    ensures gone { length_of_sum sum.entry ≡ 0 → length_of_sum result.0 ≡ 0 }
{
    let (first, a) = cut_last(sum.first);
    let (second, b) = cut_last(sum.second);
    let more = sum.more + a as u128 + b as u128;
    let rest = DigitSum {
        first,
        second,
        more: more / 10,
    };
    (rest, (more % 10) as u8)
}

// Whether no digit is left of the first two numbers.
fn is_small(sum: DigitSum<'_>) -> bool
    ensures { IsTrue result ↔ (length_of_sum sum.entry ≡ 0) }
{
    sum.first.is_empty() && sum.second.is_empty()
}

// Whether two sums are the same.
fn are_same_sums(a: DigitSum<'_>, b: DigitSum<'_>) -> bool
    ensures { IsTrue result ↔ (value_of_sum a.entry ≡ value_of_sum b.entry) }
{
    let mut sum = a;
    let mut other = b;
    'digits: while !is_small(sum) || !is_small(other) {
        let (before, last) = cut_sum(sum);
        let (other_before, other_last) = cut_sum(other);
        if last != other_last {
            return false;
        }
        sum = before;
        other = other_before;
    }
    sum.more == other.more
}

// The digits of a number, without its point.
fn digits_of<'a>(parts: &NumberParts<'a>) -> DigitRun<'a>
    ensures { value_of_run result ≡ (scaled_of parts.now).whole }
{
    DigitRun {
        front: parts.front,
        back: parts.back,
    }
}

// How far the powers of ten of a number raise it whose digits end in so many zeros, and those of another lower that.
fn risen<'a>(parts: &NumberParts<'a>, zeros: usize, other: &NumberParts<'a>) -> DigitSum<'a>
    ensures { value_of_sum result ≡ zeros + ((scaled_of parts.now).up + (scaled_of other.now).down) }
{
    DigitSum {
        first: parts.up,
        second: other.down,
        more: zeros as u128 + other.back.len() as u128,
    }
}

// Whether two signs are the same.
fn is_same_sign(negative: bool, other: bool) -> bool
    ensures { result ≡ is_same_sign negative other }
{
    if negative { other } else { !other }
}

// Whether the numbers of these parts are the same.
fn are_same(a: &NumberParts<'_>, b: &NumberParts<'_>) -> bool
    ensures { result ≡ are_same (scaled_of a.now) (scaled_of b.now) }
{
    match (without_zeros(digits_of(a)), without_zeros(digits_of(b))) {
        (Some((run, zeros)), Some((other, other_zeros))) => {
            is_same_sign(a.is_negative, b.is_negative)
                && are_same_runs(run, other)
                && are_same_sums(risen(a, zeros, b), risen(b, other_zeros, a))
        }
        (None, None) => true,
        _ => false,
    }
}

/// Whether two texts are integers or reals that denote the same number.
pub(crate) fn is_same_number(a: &[u8], b: &[u8]) -> bool
    ensures value { result ≡ denote_same a.now b.now }
    ensures exact { IsTrue result ↔ DenoteSame a.now b.now }
{
    match (parts_of(a), parts_of(b)) {
        (Some(a), Some(b)) => are_same(&a, &b),
        _ => false,
    }
}
