/// The rows of a table.
#[derive(Clone, Copy)]
pub struct Rows {
    /// How many bytes a row has: NAXIS1.
    pub width: u64,
    /// How many rows there are: NAXIS2.
    pub count: u64,
}
