/// What a keyword says of a sum (FITS Standard 4.0, section 4.4.2.7; own).
#[derive(Clone, Copy)]
pub enum SumSaid {
    /// Nothing: it isn't there, or its value is undefined or of spaces alone.
    Nothing,
    /// A number of 32 bits, in digits.
    Number(u32),
    /// Anything else.
    Other,
}
