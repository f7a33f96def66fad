/// What a pass over the pixels of a block finds, as numbers of 64 bits.
#[derive(Clone, Copy)]
pub(crate) struct Extremes {
    /// The least of those defined, where one is.
    pub(crate) least: i64,
    /// The greatest.
    pub(crate) greatest: i64,
    /// How many of all are negative.
    pub(crate) negatives: u64,
    /// How many are blank.
    pub(crate) blanks: u64,
}
