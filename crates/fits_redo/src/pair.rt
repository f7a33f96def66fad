ghost use Rattle.std.specs.Prelude.{◌≡◌, ◌⊎◌, ◌≤◌, ◌+◌, ◌++◌, ◌∷◌, ◌||◌, Bool, true, false, List, ℕ, length, drop, Option, None, Some, is_err, option_map, IfErr, IfOk, OnErr, OnOk};
ghost use Rattle.fits_redo.specs.Blocks.{block, has_block, with_block};
ghost use Rattle.fits_redo.specs.Pair.{Begins, Files, Follows, Grows, LeavesOnly, Opens, Removes, Writes, IsUnread};

use crate::read_fault::ReadFault;
use std::alloc::Global;
use std::io;

/// A file, and the name beside it at which its redo file stands.
pub trait Pair {
    /// What stands there, where that is told.
    ghost stands: { Self → Files → Type 0 };

    /// What a crash at this moment may leave there.
    ghost may_leave: { Self → Files → Type 0 };

    /// The moment, as a number that doesn't fall.
    ghost moment: { Self → ℕ };

    /// What a crash at some moment from that one on might have left, during a call or between two.
    ghost left_since: { Self → ℕ → Files → Type 0 };

    /// Whether no read of it fails.
    ghost is_read: { Self → Bool };

    /// Whether a call that may change it failed.
    ghost failed: { Self → Bool };

    /// How many bytes were written.
    ghost written: { Self → ℕ };

    /// How many bytes the file has.
    fn len(&self) -> io::Result<u64>
        ensures value { (f : Files) → stands self.now f → IfOk result (λ len. len ≡ length f.file) }
        ensures err { OnErr result (is_read self.now ≡ false) };

    /// The bytes of a block of the file.
    fn read_block(&self, index: u64) -> io::Result<[u8; 2880]>
        ensures value { (f : Files) → stands self.now f → has_block index f.file ≡ true
            → IfOk result (λ bytes. bytes ≡ block index f.file) }
        ensures err { OnErr result (is_read self.now ≡ false) };

    /// The bytes of the redo file, if one stands there.
    fn read_redo(&self, alloc: Global) -> Result<Option<Vec<u8>>, ReadFault>
        ensures value { (f : Files) → stands self.now f
            → IfOk result (λ found. option_map (λ bytes. bytes.items) found ≡ f.redo) }
        ensures err { IfErr result (λ fault. IsUnread fault (is_read self.now)) };

    /// Waits until all that stands there has reached the disk.
    fn settle(&mut self) -> io::Result<()>
        ensures stands { (f : Files) → stands self.old f → stands self.new f }
        ensures only { (f : Files) → stands self.old f
            → OnOk result ((c : Files) → may_leave self.new c → c ≡ f) }
        ensures crash { (c : Files) → may_leave self.new c → may_leave self.old c }
        ensures time { LeavesOnly moment left_since self.old self.new
            (λ c. may_leave self.old c ⊎ may_leave self.new c) }
        ensures is_read { is_read self.new ≡ is_read self.old }
        ensures failed { failed self.new ≡ (failed self.old || is_err result) }
        ensures written { written self.new ≡ written self.old };

    /// Makes a redo file of these bytes, where none stands.
    fn make_redo(&mut self, head: &[u8]) -> io::Result<()>
        ensures stands { (f : Files) → stands self.old f
            → OnOk result (stands self.new (record { file = f.file; redo = Some head.now })) }
        ensures crash { Follows (Begins (length head.now)) (may_leave self.old) (may_leave self.new) }
        ensures time { LeavesOnly moment left_since self.old self.new
            (λ c. may_leave self.old c ⊎ may_leave self.new c) }
        ensures failed { failed self.new ≡ (failed self.old || is_err result) }
        ensures written { written self.new ≤ written self.old + length head.now };

    /// Writes more bytes behind those of the redo file.
    fn add_redo(&mut self, more: &[u8]) -> io::Result<()>
        ensures stands { (f : Files) (bytes : List ℕ) → stands self.old f → f.redo ≡ Some bytes
            → OnOk result (stands self.new (record { file = f.file; redo = Some (bytes ++ more.now) })) }
        ensures crash { Follows Grows (may_leave self.old) (may_leave self.new) }
        ensures time { LeavesOnly moment left_since self.old self.new
            (λ c. may_leave self.old c ⊎ may_leave self.new c) }
        ensures failed { failed self.new ≡ (failed self.old || is_err result) }
        ensures written { written self.new ≤ written self.old + length more.now };

    /// Opens the gate of the redo file: its first byte becomes 1.
    fn open_redo(&mut self) -> io::Result<()>
        ensures stands { (f : Files) (bytes : List ℕ) → stands self.old f → f.redo ≡ Some bytes
            → OnOk result (stands self.new (record { file = f.file; redo = Some (1 ∷ drop 1 bytes) })) }
        ensures crash { Follows Opens (may_leave self.old) (may_leave self.new) }
        ensures time { LeavesOnly moment left_since self.old self.new
            (λ c. may_leave self.old c ⊎ may_leave self.new c) }
        ensures failed { failed self.new ≡ (failed self.old || is_err result) }
        ensures written { written self.new ≤ written self.old + 1 };

    /// Removes the redo file.
    fn remove_redo(&mut self) -> io::Result<()>
        ensures stands { (f : Files) → stands self.old f
            → OnOk result (stands self.new (record { file = f.file; redo = None })) }
        ensures crash { Follows Removes (may_leave self.old) (may_leave self.new) }
        ensures time { LeavesOnly moment left_since self.old self.new
            (λ c. may_leave self.old c ⊎ may_leave self.new c) }
        ensures failed { failed self.new ≡ (failed self.old || is_err result) }
        ensures written { written self.new ≡ written self.old };

    /// Writes a block of the file.
    fn write_block(&mut self, index: u64, bytes: &[u8; 2880]) -> io::Result<()>
        ensures stands { (f : Files) → stands self.old f → has_block index f.file ≡ true
            → OnOk result (stands self.new (record { file = with_block index bytes.now f.file; redo = f.redo })) }
        ensures crash { Follows (Writes index bytes.now) (may_leave self.old) (may_leave self.new) }
        ensures time { LeavesOnly moment left_since self.old self.new
            (λ c. may_leave self.old c ⊎ may_leave self.new c) }
        ensures failed { failed self.new ≡ (failed self.old || is_err result) }
        ensures written { written self.new ≤ written self.old + 2880 };

    /// What stands there is left where nothing more is done.
    ghost stays: { (pair : Self) (f : Files) → stands pair f → may_leave pair f };

    /// This moment is one of those since an earlier one.
    ghost counts_now: { (pair : Self) (t : ℕ) (c : Files) → t ≤ moment pair → may_leave pair c → left_since pair t c };

    /// Since this moment there is no other.
    ghost only_now: { (pair : Self) (c : Files) → left_since pair (moment pair) c → may_leave pair c };
}
