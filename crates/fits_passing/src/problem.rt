use fits_codes::Code;

/// One line of a report: what is wrong, and where.
#[derive(Clone, Copy, PartialEq, Eq)]
pub struct Problem {
    /// The number of the HDU, from 1. Bytes after the last HDU have the next number.
    pub hdu: usize,
    /// The place of a card, from 1. Place 0 stands for the HDU as a whole.
    pub place: usize,
    pub code: Code,
}
