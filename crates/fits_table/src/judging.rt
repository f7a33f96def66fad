//! The codes of a header as that of a table.
ghost use Rattle.std.specs.Prelude.{◌≡◌, ◌<◌, length, IfOk};
ghost use Rattle.fits_table.specs.Judged.{codes_of_mark, codes_of_table, kind_of, table_codes};

use crate::indexed_cards::IndexedCards;
use crate::marking::table_mark_of;
use crate::table_code::{TABLE_CODES, TableCode};
use crate::table_kind::{TableKind, table_kind_of};
use crate::table_mark::TableMark;
use crate::table_rules::has_table_code;
use fits_card::CardList;
use fits_rules::{Shape, ShapeFault, shape};
use std::alloc::{AllocError, Global};

/// The codes of a header, and its cards.
#[derive(Drop)]
pub struct JudgedTable {
    /// What is wrong with it as that of a table, by number. A header of another HDU has none.
    pub codes: Vec<TableCode>,
    pub cards: CardList,
}

/// The codes of a header of the primary HDU or of an extension, by number.
#[tactic(auto, unfolding(crate::specs::Judged::table_codes))]
pub fn judge_table(alloc: Global, cards: CardList, primary: bool) -> Result<JudgedTable, AllocError>
    ensures codes { IfOk result (λ it. it.codes.items ≡ table_codes primary cards.header.cards) }
    ensures cards { IfOk result (λ it. it.cards.header.cards ≡ cards.header.cards) }
{
    let mut cards = cards;
    let Some(kind) = kind_of(&mut cards, primary) else {
        return Ok(JudgedTable {
            codes: Vec::new(alloc),
            cards,
        });
    };
    match shape(alloc, &mut cards, false) {
        Ok(shape) => judge_columns(alloc, cards, kind, &shape),
        Err(ShapeFault::Bad(_)) => Ok(JudgedTable {
            codes: Vec::new(alloc),
            cards,
        }),
        Err(ShapeFault::Memory) => Err(AllocError),
    }
}

// The kind of the table whose header this is.
fn kind_of(cards: &mut CardList, primary: bool) -> Option<TableKind>
    ensures value { result ≡ kind_of primary cards.old.header.cards }
    ensures same { cards.new.header ≡ cards.old.header }
{
    if primary || cards.len() == 0 {
        return None;
    }
    table_kind_of(&cards.card(1))
}

// The codes of a table of this shape.
fn judge_columns(
    alloc: Global,
    cards: CardList,
    kind: TableKind,
    shape: &Shape,
) -> Result<JudgedTable, AllocError>
    requires { length shape.now.axes < 1000 }
    ensures codes { IfOk result (λ it. it.codes.items
        ≡ codes_of_table kind cards.header.cards shape.now) }
    ensures cards { IfOk result (λ it. it.cards.header.cards ≡ cards.header.cards) }
{
    let mut indexed = IndexedCards::open(alloc, cards)?;
    let mark = table_mark_of(alloc, &mut indexed, kind, shape)?;
    let codes = codes_of_mark(alloc, kind, shape, &mark)?;
    Ok(JudgedTable {
        codes,
        cards: indexed.into_cards(),
    })
}

// The codes that a mark has.
fn codes_of_mark(
    alloc: Global,
    kind: TableKind,
    shape: &Shape,
    mark: &TableMark,
) -> Result<Vec<TableCode>, AllocError>
    ensures { IfOk result (λ codes. codes.items ≡ codes_of_mark kind shape.now mark.now) }
{
    let mut codes = Vec::new(alloc);
    for code in TABLE_CODES {
        if has_table_code(kind, shape, mark, code) {
            codes.push(code)?;
        }
    }
    Ok(codes)
}
