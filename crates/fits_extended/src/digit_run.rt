ghost use Rattle.fits_value.specs.Spelling.{IsDigits};

/// Digits that stand in two runs, one after the other.
#[derive(Clone, Copy)]
pub(crate) struct DigitRun<'a> {
    pub(crate) front: &'a [u8],
    pub(crate) back: &'a [u8],
    ghost are_front: { IsDigits front.now },
    ghost are_back: { IsDigits back.now },
}
