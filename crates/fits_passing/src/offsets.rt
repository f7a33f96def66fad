/// Where an HDU stands in its file, in bytes from 0 (FITS Standard 4.0, section 3.1).
#[derive(Clone, Copy, PartialEq, Eq)]
pub struct HduOffsets {
    pub header_start: u64,
    /// Where its data unit begins, and its header ends with the fill.
    pub data_start: u64,
    /// Where its data unit ends with the fill.
    pub hdu_end: u64,
}
