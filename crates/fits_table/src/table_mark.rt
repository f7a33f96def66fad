use crate::columns_mark::ColumnsMark;
use fits_rules::IntegerSaid;

/// What the header of a table says as a whole, as far as the rules ask.
#[derive(Clone, Copy)]
pub struct TableMark {
    /// How many columns TFIELDS says, where it stands in its place and says 0 to 999.
    pub fields: Option<u64>,
    /// What these columns come to.
    pub columns: ColumnsMark,
    /// What the lead of THEAP says.
    pub heap: Option<IntegerSaid>,
    /// Whether two of the columns have one name.
    pub has_twins: bool,
    /// Whether a keyword of a later column stands in the header.
    pub has_past: bool,
}
