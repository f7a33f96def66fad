//! How the blocks of a plan are written into a file beside its redo file.
ghost use Rattle.std.specs.Prelude.{◌≡◌, ◌≤◌, ◌+◌, ◌*◌, ◌||◌, true, List, ℕ, length, None, is_err, OnOk};
ghost use Rattle.fits_redo.specs.Pair.{Files, LeavesOnly, Removes, Rests};
ghost use Rattle.fits_redo.specs.Plan.{fits, redone};
ghost use Rattle.fits_redo.specs.Protocol.{IsUnfinished, IsUnfinishedOrDone};

use crate::changed_block::ChangedBlock;
use crate::pair::Pair;
use std::io;

/// Finishes an edit whose redo file stands open on the disk: its blocks are written, and once they
/// have reached the disk the redo file is removed.
pub(crate) fn finish<P: Pair>(pair: &mut P, blocks: &[ChangedBlock]) -> io::Result<()>
    ensures any_moment { (f : Files) (bytes : List ℕ) (len : ℕ) (new : List ℕ)
        → Rests P.stands P.may_leave pair.old f → IsUnfinished bytes len blocks.now new f
        → LeavesOnly P.moment P.left_since pair.old pair.new (IsUnfinishedOrDone bytes len blocks.now new) }
    ensures ok { (f : Files) (bytes : List ℕ) (len : ℕ) (new : List ℕ)
        → Rests P.stands P.may_leave pair.old f → IsUnfinished bytes len blocks.now new f
        → OnOk result (Rests P.stands P.may_leave pair.new (record { file = new; redo = None })) }
    ensures failed { P.failed pair.new ≡ (P.failed pair.old || is_err result) }
    ensures written { P.written pair.new ≤ P.written pair.old + 2880 * length blocks.now }
{
    apply(pair, blocks)?;
    pair.settle()?;
    clear(pair)
}

// Writes the blocks.
fn apply<P: Pair>(pair: &mut P, blocks: &[ChangedBlock]) -> io::Result<()>
    ensures any_moment { (bytes : List ℕ) (len : ℕ) (new : List ℕ)
        → ((c : Files) → P.may_leave pair.old c → IsUnfinished bytes len blocks.now new c)
        → LeavesOnly P.moment P.left_since pair.old pair.new (IsUnfinished bytes len blocks.now new) }
    ensures stands { (f : Files) → P.stands pair.old f → fits 0 blocks.now f.file ≡ true
        → OnOk result (P.stands pair.new (record { file = redone blocks.now f.file; redo = f.redo })) }
    ensures failed { P.failed pair.new ≡ (P.failed pair.old || is_err result) }
    ensures written { P.written pair.new ≤ P.written pair.old + 2880 * length blocks.now }
{
    for block in blocks {
        pair.write_block(block.index, &block.new)?;
    }
    Ok(())
}

/// Removes the redo file, so that it doesn't come back.
pub(crate) fn clear<P: Pair>(pair: &mut P) -> io::Result<()>
    ensures any_moment { (f : Files) → Rests P.stands P.may_leave pair.old f
        → LeavesOnly P.moment P.left_since pair.old pair.new (Removes f) }
    ensures ok { (f : Files) → Rests P.stands P.may_leave pair.old f
        → OnOk result (Rests P.stands P.may_leave pair.new (record { file = f.file; redo = None })) }
    ensures failed { P.failed pair.new ≡ (P.failed pair.old || is_err result) }
    ensures written { P.written pair.new ≡ P.written pair.old }
{
    pair.remove_redo()?;
    pair.settle()
}
