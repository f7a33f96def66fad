//! Whether an edit of cards keeps the columns of a table.
ghost use Rattle.std.specs.Prelude.{◌≡◌, IfOk, OnErr};
ghost use Rattle.fits_rules.specs.Class.{is_primary};
ghost use Rattle.fits_hdu.specs.State.{IsDescribed, ReadsUpTo};
ghost use Rattle.fits_making.specs.Columns.{cards_keep, keeping_reads, LacksChange};

use crate::changes::change_of;
use crate::refusal::Refusal;
use fits_edit::CardEdit;
use fits_hdu::Hdu;
use std::alloc::{AllocError, Global};

/// Whether the cards of an HDU after an edit would say the same of the columns of a table. An edit
/// that one of its own tests refuses leaves them. The cards that it reads are counted.
#[tactic(auto, using(crate::proofs::ColumnLemmas::keep_steps))]
pub fn cards_keep(alloc: Global, hdu: &mut Hdu, edit: &CardEdit) -> Result<bool, AllocError>
    ensures value { IfOk result (λ keeps. keeps ≡ cards_keep
        (is_primary hdu.old.header.shape.class) hdu.old.header.header.cards edit.now) }
    ensures err { OnErr result (LacksChange hdu.old.header.header.cards edit.now) }
    ensures described { IsDescribed hdu.old }
    ensures work { ReadsUpTo hdu.old hdu.new
        (keeping_reads hdu.old.header.header.cards edit.now) }
{
    match change_of(alloc, hdu, edit) {
        Ok(change) => Ok(hdu.keeps_columns(&change)),
        Err(Refusal::Memory) => Err(AllocError),
        Err(_) => Ok(true),
    }
}
