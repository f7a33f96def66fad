ghost use Rattle.std.specs.Prelude.{◌≡◌, ◌*◌, ◌++◌, List, ℕ, length, [], OnErr, OnOk};
ghost use Rattle.fits_redo.specs.Plan.{changed, IsPlanOf};

use crate::changed_block::ChangedBlock;
use std::alloc::{AllocError, Global};

/// The blocks that an edit changes in a file whose length and places stay, in the order in which they
/// stand there. It needs as much memory as they do, twice.
#[derive(Drop)]
pub struct Plan {
    /// How many bytes the file has.
    pub len: u64,
    pub blocks: Vec<ChangedBlock>,
}

impl Plan {
    /// The plan of a file of so many bytes, of which no block has passed yet.
    pub fn new(alloc: Global, len: u64) -> Plan
        ensures blocks { result.blocks.items ≡ [] }
        ensures len { result.len ≡ len }
        ensures plan { IsPlanOf [] [] result.blocks.items }
    {
        Plan {
            len,
            blocks: Vec::new(alloc),
        }
    }

    /// The block of this index passes, as it was and as it is to be. It's kept if it changes.
    pub fn pass(&mut self, index: u64, old: &[u8; 2880], new: &[u8; 2880]) -> Result<(), AllocError>
        ensures ok { OnOk result (self.new.blocks.items
            ≡ self.old.blocks.items ++ changed index old.now new.now) }
        ensures err { OnErr result (self.new.blocks.items ≡ self.old.blocks.items) }
        ensures len { self.new.len ≡ self.old.len }

        // The plan of what passed so far becomes that of what has passed now.
        ensures plan { (before after : List ℕ) → length before ≡ 2880 * index
            → length after ≡ 2880 * index → IsPlanOf before after self.old.blocks.items
            → OnOk result (IsPlanOf (before ++ old.now) (after ++ new.now) self.new.blocks.items) }
    {
        if old == new {
            return Ok(());
        }
        self.blocks.push(ChangedBlock {
            index,
            old: *old,
            new: *new,
        })?;
        Ok(())
    }
}
