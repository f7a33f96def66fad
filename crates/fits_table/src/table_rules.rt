//! The codes of a table's header.
ghost use Rattle.std.specs.Prelude.{◌≡◌};
ghost use Rattle.fits_table.specs.Table.{rows_in, is_plain, rows_of, has_no_row, heap_start, is_within, has_heap_outside, has_code_of_columns, has_table_code};

use crate::columns_mark::ColumnsMark;
use crate::rows::Rows;
use crate::table_code::TableCode;
use crate::table_kind::TableKind;
use crate::table_mark::TableMark;
use fits_rules::{IntegerSaid, Shape};

// The rows of two axes.
fn rows_in(axes: &[u64]) -> Option<Rows>
    ensures { result ≡ rows_in axes.now }
{
    match axes {
        [width, count] => Some(Rows {
            width: *width,
            count: *count,
        }),
        _ => None,
    }
}

// Whether BITPIX, GCOUNT and in a TABLE PCOUNT are those of a table.
fn is_plain(kind: TableKind, shape: &Shape) -> bool
    ensures { result ≡ is_plain kind shape.now }
{
    let is_bytes = shape.bitpix == 8 && shape.gcount == 1;
    match kind {
        TableKind::Ascii => is_bytes && shape.pcount == 0,
        TableKind::Binary => is_bytes,
    }
}

/// The rows of bytes that the shape of a table describes.
#[tactic(auto, unfolding(crate::specs::Table::rows_of))]
pub(crate) fn rows_of(kind: TableKind, shape: &Shape) -> Option<Rows>
    ensures { result ≡ rows_of kind shape.now }
{
    if is_plain(kind, shape) {
        rows_in(shape.axes.as_slice())
    } else {
        None
    }
}

// Whether there are no rows, or the columns don't make them up.
fn has_no_row(kind: TableKind, columns: &ColumnsMark, rows: Option<Rows>) -> bool
    ensures { result ≡ has_no_row kind columns.now rows }
{
    let Some(rows) = rows else {
        return true;
    };
    let is_no_row = match kind {
        TableKind::Ascii => columns.leaves_row,
        TableKind::Binary => columns.width != rows.width as u128,
    };
    !columns.lacks_form && is_no_row
}

// Where the heap begins, in rows that end here.
fn heap_start(end: u128, said: Option<IntegerSaid>) -> Option<u128>
    ensures { result ≡ heap_start end said }
{
    match said {
        None => Some(end),
        Some(IntegerSaid::Number(start)) if start >= 0 => Some(start as u128),
        Some(_) => None,
    }
}

// Whether it lies between the end of the rows and that of the data.
fn is_within(end: u128, pcount: u64, start: Option<u128>) -> bool
    ensures { result ≡ is_within end pcount start }
{
    match start {
        Some(start) => end <= start && start - end <= pcount as u128,
        None => false,
    }
}

// Whether the heap of a BINTABLE doesn't lie within the data.
fn has_heap_outside(
    kind: TableKind,
    pcount: u64,
    said: Option<IntegerSaid>,
    rows: Option<Rows>,
) -> bool
    ensures { result ≡ has_heap_outside kind pcount said rows }
{
    match (kind, rows) {
        (TableKind::Binary, Some(rows)) => {
            let end = rows.width as u128 * rows.count as u128;
            !is_within(end, pcount, heap_start(end, said)) || (said.is_some() && pcount == 0)
        }
        _ => false,
    }
}

// Whether a table whose TFIELDS is read has what a code names.
fn has_code_of_columns(kind: TableKind, shape: &Shape, mark: &TableMark, code: TableCode) -> bool
    ensures { result ≡ has_code_of_columns kind shape.now mark.now code }
{
    match code {
        TableCode::BadFieldCount => false,
        TableCode::NoForm => mark.columns.lacks_form,
        TableCode::NotARow => has_no_row(kind, &mark.columns, rows_of(kind, shape)),
        TableCode::HeapOutside => {
            has_heap_outside(kind, shape.pcount, mark.heap, rows_of(kind, shape))
        }
        TableCode::KeywordMisfit => mark.columns.has_misfit,
        TableCode::DuplicateName => mark.has_twins,
        TableCode::PastFields => mark.has_past,
        TableCode::OddName => mark.columns.has_odd_name,
    }
}

/// Whether a table's header has what a code names, by its mark. It takes no memory and reads no card.
#[tactic(auto, unfolding(crate::specs::Table::has_table_code))]
pub fn has_table_code(kind: TableKind, shape: &Shape, mark: &TableMark, code: TableCode) -> bool
    ensures { result ≡ has_table_code kind shape.now mark.now code }
{
    match mark.fields {
        Some(_) => has_code_of_columns(kind, shape, mark, code),
        None => matches!(code, TableCode::BadFieldCount),
    }
}
