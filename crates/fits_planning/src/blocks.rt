//! The blocks of a plan, taken from bytes and from what a stored file has at their place.
ghost use Rattle.std.specs.Prelude.{◌≡◌, ◌<◌, ◌≤◌, ◌+◌, ◌*◌, ◌%◌, ◌^◌, ◌++◌, ℕ, List, length, IfErr, IsErrOf, OnOk};
ghost use Rattle.fits_stream.specs.Agree.{IsOf};
ghost use Rattle.fits_unit.specs.Again.{Follows, LoadCounts};
ghost use Rattle.fits_planning.specs.Front.{MakesFront};

use crate::reading::read_there;
use fits_redo::Plan;
use fits_stream::{ReadLog, Stored};
use fits_unit::LoadFault;

/// Whole blocks are to stand in a file from a place on: those that differ from what it has there are
/// kept in the plan.
pub(crate) fn pass_blocks<F: Stored>(
    file: &F,
    log: &mut ReadLog,
    plan: &mut Plan,
    place: u64,
    bytes: &[u8],
) -> Result<(), LoadFault>
    requires begins { place % 2880 ≡ 0 }
    requires whole { length bytes.now % 2880 ≡ 0 }
    requires few { place + length bytes.now < 2 ^ 64 }
    ensures plan { (told after : List ℕ) → IsOf told log.new → length after ≡ place
        → MakesFront told after plan.old.blocks.items
        → OnOk result (MakesFront told (after ++ bytes.now) plan.new.blocks.items) }
    ensures len { plan.new.len ≡ plan.old.len }
    ensures quiet { OnOk result (log.new.failures ≡ log.old.failures) }
    ensures counted { IfErr result (LoadCounts log.old.failures log.new.failures) }
    ensures steady { (told : List ℕ) → IsOf told log.new → place + length bytes.now ≤ length told
        → IsErrOf result LoadFault.Changed → ⊥ }
    ensures follows { Follows log.old log.new }
{
    let mut rest = bytes;
    let mut index = place / 2880;
    while let Some((block, more)) = rest.split_first_chunk::<2880>() {
        pass_block(file, log, plan, index, block)?;
        index += 1;
        rest = more;
    }
    Ok(())
}

// The same of one block.
fn pass_block<F: Stored>(
    file: &F,
    log: &mut ReadLog,
    plan: &mut Plan,
    index: u64,
    new: &[u8; 2880],
) -> Result<(), LoadFault>
    requires { 2880 * index + 2880 < 2 ^ 64 }
    ensures plan { (told after : List ℕ) → IsOf told log.new → length after ≡ 2880 * index
        → MakesFront told after plan.old.blocks.items
        → OnOk result (MakesFront told (after ++ new.now) plan.new.blocks.items) }
    ensures len { plan.new.len ≡ plan.old.len }
    ensures quiet { OnOk result (log.new.failures ≡ log.old.failures) }
    ensures counted { IfErr result (LoadCounts log.old.failures log.new.failures) }
    ensures steady { (told : List ℕ) → IsOf told log.new → 2880 * index + 2880 ≤ length told
        → IsErrOf result LoadFault.Changed → ⊥ }
    ensures follows { Follows log.old log.new }
{
    let mut old = [0; 2880];
    read_there(file, log, index * 2880, &mut old)?;
    match plan.pass(index, &old, new) {
        Ok(()) => Ok(()),
        Err(_) => Err(LoadFault::Memory),
    }
}
