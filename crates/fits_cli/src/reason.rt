use fits_value::Unwritable;

/// What the refusal of a command comes from, as far as its line tells.
#[derive(Clone, Copy)]
pub(crate) enum Reason {
    /// The line ends in a carriage return.
    CarriageReturn,
    /// The keyword name has small letters (FITS Standard 4.0, section 4.1.2.1).
    SmallLetters,
    /// The value and the comment can't be written.
    Unwritten(Unwritable),
    /// No more than the refusal says.
    Plain,
}
