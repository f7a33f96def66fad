//! HDUs that are kept stamped: an edit of one is followed by a stamp, whose room is asked for before
//! anything changes.
ghost use Rattle.std.specs.Prelude.{◌≡◌, ◌≤◌, ◌-◌, ◌^◌, true, is_some, length, IfOk, OnErr};
ghost use Rattle.fits_passing.specs.Hdu.{hdu_bytes};
ghost use Rattle.fits_hdu.specs.State.{parts_of, IsSeen};
ghost use Rattle.fits_making.specs.Keeping.{spare_cards};
ghost use Rattle.fits_passing.specs.Limits.{is_within_limits};
ghost use Rattle.fits_making.specs.Making.{HduEditsTo, IsFinished};

use crate::refusal::Refusal;
use crate::stamping::stamp;
use fits_edit::HduEdit;
use fits_hdu::{Hdu, StampCards};
use std::alloc::{AllocError, Global};

/// Stamps an HDU in a file of so many bytes and HDUs, and keeps it stamped from now on.
pub(crate) fn keep(alloc: Global, hdu: &mut Hdu, len: u64, hdus: u64) -> Result<(), Refusal>
    requires known { IsSeen hdu.old }
    requires part { length (hdu_bytes (parts_of hdu.old)) ≤ len }
    requires within { is_within_limits len hdus ≡ true }
    ensures { HduEditsTo HduEdit.Keep len hdus hdu.old hdu.new result }
{
    stamp(alloc, hdu, len, hdus)?;
    hdu.set_kept(true);
    Ok(())
}

/// Keeps an HDU stamped no longer. It takes no memory.
pub(crate) fn release(hdu: &mut Hdu, len: u64, hdus: u64) -> Result<(), Refusal>
    requires part { length (hdu_bytes (parts_of hdu.old)) ≤ len }
    requires within { is_within_limits len hdus ≡ true }
    ensures { HduEditsTo HduEdit.Release len hdus hdu.old hdu.new result }
{
    let _whole = hdu.card_count();
    hdu.set_kept(false);
    Ok(())
}

/// How many cards the stamp may bring that follows an edit of an HDU; none where it isn't kept.
pub(crate) fn spare_cards(hdu: &Hdu) -> usize
    ensures { result ≡ spare_cards hdu.now.kept }
{
    if hdu.kept() { 2 } else { 0 }
}

/// The cards of that stamp. Memory is asked for where the HDU is kept alone.
pub(crate) fn stamp_cards(alloc: Global, hdu: &Hdu) -> Result<Option<StampCards>, AllocError>
    ensures ok { IfOk result (λ cards. is_some cards ≡ hdu.now.kept) }
    ensures err { OnErr result (hdu.now.kept ≡ true) }
{
    if !hdu.kept() {
        return Ok(None);
    }
    let cards = StampCards::new(alloc)?;
    Ok(Some(cards))
}

/// Makes that stamp, where there are cards for it. It takes no memory.
pub(crate) fn finish(hdu: &mut Hdu, cards: Option<StampCards>)
    requires known { is_some cards ≡ true → IsSeen hdu.old }
    requires small { length (hdu_bytes (parts_of hdu.old)) ≤ 2 ^ 34 - 2 ^ 13 }
    requires room { spare_cards (is_some cards) ≤ hdu.old.header.room }
    ensures { IsFinished (is_some cards) hdu.old hdu.new }
{
    let _described = hdu.card_count();
    if let Some(cards) = cards {
        hdu.stamp_with(cards);
    }
}
