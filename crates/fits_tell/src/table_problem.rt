use fits_table::TableCode;

/// What is wrong with a table, as a report lists it: at place 0 of its HDU.
#[derive(Clone, Copy)]
pub struct TableProblem {
    /// The number of the HDU, from 1.
    pub hdu: usize,
    pub code: TableCode,
}
