//! The mark of a table's header.
ghost use Rattle.std.specs.Prelude.{◌≡◌, ◌<◌, ◌+◌, length, map, IfOk};
ghost use Rattle.std.specs.List.{list_any};
ghost use Rattle.fits_table.specs.Column.{column_of};
ghost use Rattle.fits_table.specs.Columns.{columns_mark};
ghost use Rattle.fits_table.specs.Leads.{column_leads, is_past};
ghost use Rattle.fits_table.specs.TableMark.{row_width, leads_of, heap_said, names_of, table_mark_of};

use crate::column::column_titled;
use crate::column_names::is_past;
use crate::columns_mark::ColumnsMark;
use crate::fields::fields_of;
use crate::header_cards::HeaderCards;
use crate::leads::column_leads;
use crate::names::has_twins;
use crate::table_kind::TableKind;
use crate::table_mark::TableMark;
use crate::table_rules::rows_of;
use crate::title::Title;
use fits_card::Name;
use fits_rules::{IntegerSaid, Shape, integer_said};
use std::alloc::{AllocError, Global};

// What the first so many columns come to, and their names.
#[derive(Drop)]
struct Columns {
    mark: ColumnsMark,
    names: Vec<Title>,
}

// What the first so many columns come to. Their names are held.
#[tactic(auto, using(crate::proofs::MarkingLemmas::columns_steps))]
fn columns_of<H: HeaderCards>(
    alloc: Global,
    cards: &mut H,
    kind: TableKind,
    row: u64,
    fields: usize,
) -> Result<Columns, AllocError>
    requires { fields < 1000 }
    ensures mark { IfOk result (λ it. it.mark ≡ columns_mark kind row
        (map (column_of kind) (leads_of (H.cards cards.old) fields))) }
    ensures names { IfOk result (λ it. it.names.items
        ≡ names_of (leads_of (H.cards cards.old) fields)) }
    ensures same { H.cards cards.new ≡ H.cards cards.old }
{
    let mut mark = ColumnsMark::new(kind, row);
    let mut names = Vec::new(alloc);
    for i in 0..fields {
        let leads = column_leads(cards, i + 1);
        let title = Title::of(&leads.name);
        mark = mark.with(kind, row, &column_titled(kind, &leads, &title));
        names.push(title)?;
    }
    Ok(Columns { mark, names })
}

// Whether a card is of a column after so many.
fn has_past<H: HeaderCards>(cards: &mut H, fields: u64) -> bool
    ensures value { result ≡ list_any (is_past fields) (H.cards cards.old) }
    ensures same { H.cards cards.new ≡ H.cards cards.old }
{
    let mut found = false;
    for i in 0..cards.count() {
        found = found | is_past(fields, &cards.card_at(i + 1));
    }
    found
}

// What THEAP's lead says.
fn heap_said<H: HeaderCards>(cards: &mut H) -> Option<IntegerSaid>
    ensures value { result ≡ heap_said (H.cards cards.old) }
    ensures same { H.cards cards.new ≡ H.cards cards.old }
{
    match cards.lead(&Name(*b"THEAP   ")) {
        Some(card) => Some(integer_said(&card)),
        None => None,
    }
}

// How many bytes a row has, where there are rows.
fn row_width(kind: TableKind, shape: &Shape) -> u64
    ensures { result ≡ row_width kind shape.now }
{
    match rows_of(kind, shape) {
        Some(rows) => rows.width,
        None => 0,
    }
}

/// What the header of a table with this shape says as a whole. Its columns' names are held.
#[tactic(auto, unfolding(crate::specs::TableMark::table_mark_of))]
pub(crate) fn table_mark_of<H: HeaderCards>(
    alloc: Global,
    cards: &mut H,
    kind: TableKind,
    shape: &Shape,
) -> Result<TableMark, AllocError>
    requires { length shape.now.axes < 1000 }
    ensures value { IfOk result (λ mark. mark
        ≡ table_mark_of kind (H.cards cards.old) shape.now) }
    ensures same { H.cards cards.new ≡ H.cards cards.old }
{
    let fields = fields_of(cards, shape.axes.as_slice().len());
    let count = fields.unwrap_or(0);
    let row = row_width(kind, shape);
    let columns = columns_of(alloc, cards, kind, row, count as usize)?;
    let heap = heap_said(cards);
    let has_past = has_past(cards, count);
    Ok(TableMark {
        fields,
        columns: columns.mark,
        heap,
        has_twins: has_twins(&columns.names),
        has_past,
    })
}
