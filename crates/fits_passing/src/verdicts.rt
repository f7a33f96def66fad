use crate::verdict::Verdict;

/// Whether the sums of an HDU are right (FITS Standard 4.0, section 4.4.2.7 and Appendix J).
#[derive(Clone, Copy, PartialEq, Eq, Debug)]
pub struct Verdicts {
    /// Whether DATASUM says the sum of the data unit.
    pub datasum: Verdict,
    /// Whether CHECKSUM makes the sum of the HDU all ones.
    pub checksum: Verdict,
}
