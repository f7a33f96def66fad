//! The one path of edits that change cards: the change with its own tests, the shape, the limits,
//! the room, and then the change is made.
ghost use Rattle.std.specs.Prelude.{◌≡◌, ◌≤◌, ◌<◌, ◌+◌, ◌-◌, ◌^◌, true, length, All, IsTrue, Ok};
ghost use Rattle.fits_card.specs.Change.{new_cards, IsInRange};
ghost use Rattle.fits_card.specs.Header.{header_length, IsInnerCard};
ghost use Rattle.fits_passing.specs.Hdu.{hdu_bytes};
ghost use Rattle.fits_hdu.specs.State.{parts_of, IsSeen};
ghost use Rattle.fits_passing.specs.Limits.{is_within_limits};
ghost use Rattle.fits_making.specs.Making.{ChangesTo, HduEditsTo};
ghost use Rattle.fits_passing.specs.declared.limits.TheConstants.{FILE_LIMIT};

use crate::changes::change_of;
use crate::keeping::{finish, spare_cards, stamp_cards};
use crate::refusal::Refusal;
use fits_card::{CARD_LEN, Change, header_len};
use fits_edit::{CardEdit, HduEdit};
use fits_hdu::Hdu;
use fits_passing::{FILE_LIMIT, within};
use std::alloc::Global;

/// Edits the cards of an HDU in a file of so many bytes and HDUs.
pub(crate) fn edit_cards(
    alloc: Global,
    hdu: &mut Hdu,
    len: u64,
    hdus: u64,
    edit: &CardEdit,
) -> Result<(), Refusal>
    requires known { hdu.old.kept ≡ true → IsSeen hdu.old }
    requires part { length (hdu_bytes (parts_of hdu.old)) ≤ len }
    requires within { is_within_limits len hdus ≡ true }
    ensures { HduEditsTo (HduEdit.Cards edit.now) len hdus hdu.old hdu.new result }
{
    let change = change_of(alloc, hdu, edit)?;
    make_change(alloc, hdu, &change, len, hdus)
}

// Makes a change of an HDU, if it keeps the shape and the limits, and the stamp that follows where
// the HDU is kept stamped.
fn make_change(
    alloc: Global,
    hdu: &mut Hdu,
    change: &Change,
    len: u64,
    hdus: u64,
) -> Result<(), Refusal>
    requires known { hdu.old.kept ≡ true → IsSeen hdu.old }
    requires in_range { IsInRange hdu.old.header.header.cards change.now }
    requires inner { All IsInnerCard (new_cards change.now) }
    requires part { length (hdu_bytes (parts_of hdu.old)) ≤ len }
    requires within { is_within_limits len hdus ≡ true }
    ensures { ChangesTo change.now len hdus hdu.old hdu.new result }
{
    let before = hdu.card_count();
    let after = hdu.header().count_after(change);
    if !hdu.keeps_shape(change) {
        return Err(Refusal::Shape);
    }
    let spare = spare_cards(hdu);
    if !keeps_limits(len, before, after, spare, hdus) {
        return Err(Refusal::TooLarge);
    }
    let cards = stamp_cards(alloc, hdu)?;
    hdu.reserve((after + spare).saturating_sub(before))?;
    hdu.apply(change);
    finish(hdu, cards);
    Ok(())
}

/// Whether a file of so many bytes and HDUs keeps to the limits with another number of cards in one
/// of them, and as many more as are to be spared.
#[tactic(auto, using(crate::proofs::MakingLemmas::length_steps))]
pub(crate) fn keeps_limits(len: u64, before: usize, after: usize, spare: usize, hdus: u64) -> bool
    requires part { header_length before ≤ len }
    requires within { len ≤ FILE_LIMIT }
    requires few { spare ≤ 2 ^ 10 }
    ensures value { result ≡ is_within_limits
        (len - header_length before + header_length (after + spare)) hdus }
    ensures few { IsTrue result → after < 2 ^ 32 }
{
    if after > FILE_LIMIT as usize / CARD_LEN {
        return false;
    }
    let len = len - header_len(before) as u64 + header_len(after + spare) as u64;
    within(len, hdus)
}
