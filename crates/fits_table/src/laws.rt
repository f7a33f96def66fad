//! Laws of the definitions, each the contract of a function that does nothing.
ghost use Rattle.fits_table.specs.Laws.{ColumnsStay, FormsAreReadExactly, FormsHaveOneWidth, DimensionsAreReadExactly, DisplaysAreReadExactly};

/// What is read of a TFORMn is the form that it says, and nothing is read where it says none.
#[tactic(auto, using(crate::proofs::FormLemmas::laws))]
pub fn forms_are_read_exactly()
    ensures exact { FormsAreReadExactly }
    ensures one_width { FormsHaveOneWidth }
{}

/// What is read of a TDIMn are the dimensions that it says, and nothing is read where it says none.
pub fn dimensions_are_read_exactly()
    ensures { DimensionsAreReadExactly }
{}

/// A TDISPn is read as each way of display that it says, and as no other.
pub fn displays_are_read_exactly()
    ensures { DisplaysAreReadExactly }
{}

/// A change that keeps columns leaves a table what it is, and its columns as wide and where they were.
pub fn columns_stay()
    ensures { ColumnsStay }
{}
