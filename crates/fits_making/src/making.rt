//! An edit of one HDU, whatever file it stands in.
ghost use Rattle.std.specs.Prelude.{◌≡◌, ◌≤◌, ◌^◌, true, length, IfOk};
ghost use Rattle.fits_passing.specs.Hdu.{hdu_bytes};
ghost use Rattle.fits_hdu.specs.State.{parts_of, IsSeen};
ghost use Rattle.fits_passing.specs.Limits.{is_within_limits};
ghost use Rattle.fits_making.specs.Making.{length_with, HduEditsTo, IsReadyTo};

use crate::cards::edit_cards;
use crate::keeping::{keep, release};
use crate::pixels::paint_pixels;
use crate::refusal::Refusal;
use crate::reshaping::reshape;
use crate::stamping::stamp;
use fits_edit::HduEdit;
use fits_hdu::Hdu;
use std::alloc::Global;

/// Makes an edit of an HDU in a file of so many bytes and HDUs, or refuses it, and answers how many
/// bytes the file has then.
pub fn edit_hdu(
    alloc: Global,
    hdu: &mut Hdu,
    len: u64,
    hdus: u64,
    edit: &HduEdit,
) -> Result<u64, Refusal>
    requires part { length (hdu_bytes (parts_of hdu.old)) ≤ len }
    requires within { is_within_limits len hdus ≡ true }
    requires ready { IsReadyTo edit.now hdu.old }
    requires kept { hdu.old.kept ≡ true → IsSeen hdu.old }
    ensures edits { HduEditsTo edit.now len hdus hdu.old hdu.new result }
    ensures len { IfOk result (λ after. after
        ≡ length_with len (parts_of hdu.old) (parts_of hdu.new)) }
{
    let others = len - hdu_len(hdu);
    make_edit(alloc, hdu, len, hdus, edit)?;
    Ok(others + hdu_len(hdu))
}

// The same, without the length.
fn make_edit(
    alloc: Global,
    hdu: &mut Hdu,
    len: u64,
    hdus: u64,
    edit: &HduEdit,
) -> Result<(), Refusal>
    requires part { length (hdu_bytes (parts_of hdu.old)) ≤ len }
    requires within { is_within_limits len hdus ≡ true }
    requires ready { IsReadyTo edit.now hdu.old }
    requires kept { hdu.old.kept ≡ true → IsSeen hdu.old }
    ensures { HduEditsTo edit.now len hdus hdu.old hdu.new result }
{
    match edit {
        HduEdit::Cards(edit) => edit_cards(alloc, hdu, len, hdus, edit),
        HduEdit::Pixels { lo, hi, paint } => paint_pixels(alloc, hdu, len, hdus, lo, hi, paint),
        HduEdit::Reshape { kind, axes } => reshape(alloc, hdu, len, hdus, *kind, axes),
        HduEdit::Stamp => stamp(alloc, hdu, len, hdus),
        HduEdit::Keep => keep(alloc, hdu, len, hdus),
        HduEdit::Release => release(hdu, len, hdus),
    }
}

/// How many bytes an HDU has.
pub(crate) fn hdu_len(hdu: &Hdu) -> u64
    requires { length (hdu_bytes (parts_of hdu.now)) ≤ 2 ^ 34 }
    ensures { result ≡ length (hdu_bytes (parts_of hdu.now)) }
{
    (hdu.header().byte_len() + hdu.data_len()) as u64
}
