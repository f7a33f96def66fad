//! The codes of a header under edits.
ghost use Rattle.std.specs.Prelude.{◌≡◌, length, IfOk};
ghost use Rattle.fits_header.specs.State.{ReadsUpTo};
ghost use Rattle.fits_rules.specs.Class.{is_primary};
ghost use Rattle.fits_table.specs.Judged.{table_codes};

use crate::judging::judge_table;
use crate::table_code::TableCode;
use fits_card::CardList;
use fits_header::Header;
use std::alloc::{AllocError, Global};

/// The codes of a header as that of a table, by number. Its cards are copied: each is read once.
pub fn judge_header(alloc: Global, header: &mut Header) -> Result<Vec<TableCode>, AllocError>
    ensures codes { IfOk result (λ codes. codes.items
        ≡ table_codes (is_primary header.old.shape.class) header.old.header.cards) }
    ensures work { ReadsUpTo header.old header.new (length header.old.header.cards) }
{
    let primary = header.shape().class.is_primary();
    let cards = copied_cards(alloc, header)?;
    let judged = judge_table(alloc, cards, primary)?;
    Ok(judged.codes)
}

// A store of the same cards.
fn copied_cards(alloc: Global, header: &mut Header) -> Result<CardList, AllocError>
    ensures cards { IfOk result (λ list. list.header.cards ≡ header.old.header.cards) }
    ensures work { ReadsUpTo header.old header.new (length header.old.header.cards) }
{
    let count = header.len();
    let mut cards = Vec::with_capacity(alloc, count)?;
    for i in 0..count {
        cards.push(header.card(i + 1))?;
    }
    CardList::new(alloc, cards)
}
