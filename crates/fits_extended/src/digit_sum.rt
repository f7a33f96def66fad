ghost use Rattle.fits_value.specs.Spelling.{IsDigits};
ghost use Rattle.std.specs.Prelude.{◌≤◌, ◌^◌};

/// The sum of two numbers by their digits, and of a third one.
#[derive(Clone, Copy)]
pub(crate) struct DigitSum<'a> {
    pub(crate) first: &'a [u8],
    pub(crate) second: &'a [u8],
    pub(crate) more: u128,
    ghost are_first: { IsDigits first.now },
    ghost are_second: { IsDigits second.now },
    ghost is_small: { more ≤ 2 ^ 100 },
}
