ghost use Rattle.fits_value.specs.Spelling.{IsDigits};

/// An integer or a real by its parts: digits before and after the point, and an exponent's
/// (FITS Standard 4.0, sections 4.2.3 and 4.2.4).
#[derive(Clone, Copy)]
pub(crate) struct NumberParts<'a> {
    pub(crate) is_negative: bool,
    pub(crate) front: &'a [u8],
    pub(crate) back: &'a [u8],
    /// The digits of an exponent without a minus sign, or none.
    pub(crate) up: &'a [u8],
    /// The digits of an exponent with a minus sign, or none.
    pub(crate) down: &'a [u8],
    ghost are_front: { IsDigits front.now },
    ghost are_back: { IsDigits back.now },
    ghost are_up: { IsDigits up.now },
    ghost are_down: { IsDigits down.now },
}
