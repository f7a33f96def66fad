/// How many bytes a block has (FITS Standard 4.0, section 3.1).
pub const BLOCK_LEN: usize = 2880;

/// A block whose bytes an edit changes. The first block of a file has index 0.
#[derive(Drop)]
pub struct ChangedBlock {
    pub index: u64,
    pub old: [u8; 2880],
    pub new: [u8; 2880],
}
