//! How many bytes a data unit has.
ghost use Rattle.std.specs.Prelude.{◌≡◌, ◌<◌, ◌+◌, ◌*◌, ℕ, drop, IfSome, IfNone};
ghost use Rattle.fits_rules.specs.Size.{product, array_values, values_in, data_size};
ghost use Rattle.fits_rules.specs.SizeSteps.{limited};

use crate::array_shape::Shape;
use crate::class::Class;

// A number times a factor. None is a number of more than 64 bits, and a factor of 0 makes 0 of it.
#[tactic(auto, using(crate::proofs::SizeLemmas::times_steps))]
fn times(factor: u64, number: Option<u64>) -> Option<u64>
    ensures { (n : ℕ) → number ≡ limited n → result ≡ limited (factor * n) }
{
    if factor == 0 {
        return Some(0);
    }
    match number {
        Some(number) => factor.checked_mul(number),
        None => None,
    }
}

// A number and more.
#[tactic(auto, using(crate::proofs::SizeLemmas::plus_steps))]
fn plus(more: u64, number: Option<u64>) -> Option<u64>
    ensures { (n : ℕ) → number ≡ limited n → result ≡ limited (more + n) }
{
    match number {
        Some(number) => more.checked_add(number),
        None => None,
    }
}

// How many values an array with these axes has.
#[tactic(auto, using(crate::proofs::SizeLemmas::array_steps))]
fn array_values(axes: &[u64]) -> Option<u64>
    ensures { result ≡ limited (array_values axes.now) }
{
    if axes.is_empty() {
        return Some(0);
    }
    let mut total = Some(1);
    for axis in axes {
        total = times(*axis, total);
    }
    total
}

// The axes but the first.
fn after_first(axes: &[u64]) -> &[u64]
    ensures { result.now ≡ drop 1 axes.now }
{
    match axes {
        [_, rest @ ..] => rest,
        [] => axes,
    }
}

// How many values the data unit has, parameters of groups and values after an array among them.
fn values(shape: &Shape) -> Option<u64>
    ensures { result ≡ limited (values_in shape.now.class shape.now) }
{
    let axes = shape.axes.as_slice();
    match shape.class {
        Class::Primary => array_values(axes),
        Class::Groups => times(
            shape.gcount,
            plus(shape.pcount, array_values(after_first(axes))),
        ),
        _ => times(shape.gcount, plus(shape.pcount, array_values(axes))),
    }
}

/// How many bytes the data have, without the data fill (FITS Standard 4.0, sections 4.4.1.1, 4.4.1.2
/// and 6).
///
/// None is a number of more than 64 bits, larger than any file. It takes no memory.
#[tactic(auto, using(crate::proofs::SizeLemmas::size_steps), unfolding(crate::specs::Size::data_size))]
pub fn data_bytes(shape: &Shape) -> Option<u64>
    ensures found { IfSome result (λ bytes. bytes ≡ data_size shape.now) }
    ensures none { IfNone result (u64.MAX < data_size shape.now) }
{
    times(shape.bitpix.unsigned_abs() / 8, values(shape))
}
