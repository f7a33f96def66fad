ghost use Rattle.std.specs.Prelude.{◌≡◌, ◌<◌, ◌^◌, [], ◌∷◌, ◌++◌, List};
ghost use Rattle.fits_table.specs.Columns.{column_width, lacks_form, leaves_row, columns_mark};
ghost use Rattle.fits_table.specs.declared.column.Column as declared;

use crate::column::Column;
use crate::table_kind::TableKind;

/// What the columns of a table come to, as far as the rules ask.
#[derive(Clone, Copy)]
pub struct ColumnsMark {
    /// How many bytes those with a form take together, up to the largest number.
    pub width: u128,
    /// Whether one has no readable TFORM, or in a TABLE no readable TBCOL.
    pub lacks_form: bool,
    /// Whether the field of one reaches out of the row of a TABLE.
    pub leaves_row: bool,
    /// Whether one has a keyword that it can't have.
    pub has_misfit: bool,
    /// Whether the name of one has characters that aren't recommended.
    pub has_odd_name: bool,
}

// How many bytes of a row a column takes, where it has a form.
fn column_width(column: &Column) -> u128
    ensures value { result ≡ column_width column.now }
    ensures within { result < 2 ^ 69 }
{
    match column.form {
        Some(form) => form.width(),
        None => 0,
    }
}

// Whether a column has no readable form or place.
fn lacks_form(kind: TableKind, column: &Column) -> bool
    ensures { result ≡ lacks_form kind column.now }
{
    match kind {
        TableKind::Ascii => column.form.is_none() || column.start.is_none(),
        TableKind::Binary => column.form.is_none(),
    }
}

// Whether a column's field ends after the row.
fn leaves_row(row: u64, column: &Column) -> bool
    ensures { result ≡ leaves_row row column.now }
{
    match column.start {
        Some(start) => row as u128 + 1 < start as u128 + column_width(column),
        None => false,
    }
}

impl ColumnsMark {
    /// No columns.
    #[tactic(auto, unfolding(crate::specs::Columns::columns_mark))]
    pub(crate) fn new(kind: TableKind, row: u64) -> ColumnsMark
        ensures { result ≡ columns_mark kind row [] }
    {
        ColumnsMark {
            width: 0,
            lacks_form: false,
            leaves_row: false,
            has_misfit: false,
            has_odd_name: false,
        }
    }

    /// One column more, in a table of this kind with rows of so many bytes.
    #[tactic(auto, using(crate::proofs::ColumnsLemmas::columns_steps))]
    pub(crate) fn with(&self, kind: TableKind, row: u64, column: &Column) -> ColumnsMark
        ensures { (columns : List declared.Column) → self.now ≡ columns_mark kind row columns
            → result ≡ columns_mark kind row (columns ++ column.now ∷ []) }
    {
        ColumnsMark {
            width: self.width.saturating_add(column_width(column)),
            lacks_form: self.lacks_form | lacks_form(kind, column),
            leaves_row: self.leaves_row | leaves_row(row, column),
            has_misfit: self.has_misfit | column.has_misfit,
            has_odd_name: self.has_odd_name | column.has_odd_name,
        }
    }
}
