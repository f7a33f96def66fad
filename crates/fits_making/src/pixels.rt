//! Edits of pixels: their tests, and then the pixels are painted.
ghost use Rattle.std.specs.Prelude.{◌≡◌, ◌≤◌, true, length};
ghost use Rattle.fits_passing.specs.Hdu.{hdu_bytes};
ghost use Rattle.fits_hdu.specs.State.{parts_of, IsSeen};
ghost use Rattle.fits_passing.specs.Limits.{is_within_limits};
ghost use Rattle.fits_hdu.specs.State.{HasPixels};
ghost use Rattle.fits_making.specs.Making.{HduEditsTo};

use crate::cards::keeps_limits;
use crate::keeping::{finish, spare_cards, stamp_cards};
use crate::refusal::Refusal;
use fits_edit::{Corner, HduEdit, Paint};
use fits_hdu::Hdu;
use std::alloc::Global;

/// Paints a rectangle of an HDU in a file of so many bytes and HDUs. Memory is asked for where the
/// HDU is kept stamped alone.
pub(crate) fn paint_pixels(
    alloc: Global,
    hdu: &mut Hdu,
    len: u64,
    hdus: u64,
    lo: &Corner,
    hi: &Corner,
    paint: &Paint,
) -> Result<(), Refusal>
    requires held { HasPixels lo.now hi.now hdu.old }
    requires known { hdu.old.kept ≡ true → IsSeen hdu.old }
    requires part { length (hdu_bytes (parts_of hdu.old)) ≤ len }
    requires within { is_within_limits len hdus ≡ true }
    ensures { HduEditsTo (HduEdit.Pixels lo.now hi.now paint.now) len hdus hdu.old hdu.new result }
{
    if hdu.kept() {
        return paint_kept(alloc, hdu, len, hdus, lo, hi, paint);
    }
    let _whole = hdu.card_count();
    hdu.paint(lo.as_slice(), hi.as_slice(), &paint.lent())?;
    Ok(())
}

// The same of an HDU that is kept stamped: all tests come before memory is asked for, and that
// before it is painted.
fn paint_kept(
    alloc: Global,
    hdu: &mut Hdu,
    len: u64,
    hdus: u64,
    lo: &Corner,
    hi: &Corner,
    paint: &Paint,
) -> Result<(), Refusal>
    requires kept { hdu.old.kept ≡ true }
    requires held { HasPixels lo.now hi.now hdu.old }
    requires known { hdu.old.kept ≡ true → IsSeen hdu.old }
    requires part { length (hdu_bytes (parts_of hdu.old)) ≤ len }
    requires within { is_within_limits len hdus ≡ true }
    ensures { HduEditsTo (HduEdit.Pixels lo.now hi.now paint.now) len hdus hdu.old hdu.new result }
{
    let count = hdu.card_count();
    let paint = paint.lent();
    hdu.may_paint(lo.as_slice(), hi.as_slice(), &paint)?;
    let spare = spare_cards(hdu);
    if !keeps_limits(len, count, count, spare, hdus) {
        return Err(Refusal::TooLarge);
    }
    let cards = stamp_cards(alloc, hdu)?;
    hdu.reserve(spare)?;
    let Ok(()) = hdu.paint(lo.as_slice(), hi.as_slice(), &paint) else {
        unreachable!();
    };
    finish(hdu, cards);
    Ok(())
}
