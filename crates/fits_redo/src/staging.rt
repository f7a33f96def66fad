//! How a redo file is written, and its gate opened.
ghost use Rattle.std.specs.Prelude.{◌≡◌, ◌≤◌, ◌+◌, ◌++◌, ◌∷◌, ◌||◌, List, ℕ, length, Some, None, is_err, OnOk};
ghost use Rattle.fits_redo.specs.Pair.{Files, LeavesOnly, Rests};
ghost use Rattle.fits_redo.specs.Protocol.{IsStaged};
ghost use Rattle.fits_redo.specs.Redo.{made_of};

use crate::pair::Pair;
use std::io;

/// A new redo file reaches the disk, and then its gate is opened. Where that fails it's removed, if
/// it was made.
pub(crate) fn stage<P: Pair>(pair: &mut P, head: &[u8], entries: &[u8]) -> io::Result<()>
    ensures any_moment { (f : Files) (rest new : List ℕ) → Rests P.stands P.may_leave pair.old f
        → f.redo ≡ None → head.now ≡ 0 ∷ rest → length head.now ≤ 24
        → made_of (Some (1 ∷ rest ++ entries.now)) f.file ≡ new
        → LeavesOnly P.moment P.left_since pair.old pair.new (IsStaged f.file new) }
    ensures ok { (f : Files) (rest : List ℕ) → Rests P.stands P.may_leave pair.old f
        → head.now ≡ 0 ∷ rest
        → OnOk result (Rests P.stands P.may_leave pair.new
        (record { file = f.file; redo = Some (1 ∷ rest ++ entries.now) })) }
    ensures failed { P.failed pair.new ≡ (P.failed pair.old || is_err result) }
    ensures written { P.written pair.new ≤ P.written pair.old + length head.now + length entries.now + 1 }
{
    pair.make_redo(head)?;
    let Err(error) = fill(pair, entries) else {
        return Ok(());
    };
    let _ = pair.remove_redo();
    Err(error)
}

// Its entries follow, behind the shut gate.
fn fill<P: Pair>(pair: &mut P, entries: &[u8]) -> io::Result<()>
    ensures any_moment { (file rest new : List ℕ)
        → P.stands pair.old (record { file = file; redo = Some (0 ∷ rest) })
        → ((c : Files) → P.may_leave pair.old c → IsStaged file new c)
        → made_of (Some (1 ∷ rest ++ entries.now)) file ≡ new
        → LeavesOnly P.moment P.left_since pair.old pair.new (IsStaged file new) }
    ensures ok { (file rest : List ℕ)
        → P.stands pair.old (record { file = file; redo = Some (0 ∷ rest) })
        → OnOk result (Rests P.stands P.may_leave pair.new
        (record { file = file; redo = Some (1 ∷ rest ++ entries.now) })) }
    ensures failed { P.failed pair.new ≡ (P.failed pair.old || is_err result) }
    ensures written { P.written pair.new ≤ P.written pair.old + length entries.now + 1 }
{
    pair.settle()?;
    pair.add_redo(entries)?;
    open(pair)
}

// The gate is opened once all has reached the disk.
fn open<P: Pair>(pair: &mut P) -> io::Result<()>
    ensures any_moment { (file rest new : List ℕ)
        → P.stands pair.old (record { file = file; redo = Some (0 ∷ rest) })
        → ((c : Files) → P.may_leave pair.old c → IsStaged file new c)
        → made_of (Some (1 ∷ rest)) file ≡ new
        → LeavesOnly P.moment P.left_since pair.old pair.new (IsStaged file new) }
    ensures ok { (file rest : List ℕ)
        → P.stands pair.old (record { file = file; redo = Some (0 ∷ rest) })
        → OnOk result (Rests P.stands P.may_leave pair.new
        (record { file = file; redo = Some (1 ∷ rest) })) }
    ensures failed { P.failed pair.new ≡ (P.failed pair.old || is_err result) }
    ensures written { P.written pair.new ≤ P.written pair.old + 1 }
{
    pair.settle()?;
    pair.open_redo()?;
    pair.settle()
}
