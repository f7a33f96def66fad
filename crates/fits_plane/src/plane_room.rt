use crate::tree::Tree;
use fits_pixels::Leaf;
use std::alloc::{AllocError, Global};
use std::marker::Model;

/// Room for what is kept of a data unit, seen as how many blocks that has.
#[derive(Drop)]
pub struct PlaneRoom {
    leaves: Tree<Leaf>,
}

impl Model for PlaneRoom {
    ghost use Rattle.std.specs.Prelude.{◌≡◌, ℕ, length};

    ghost Value = { ℕ };

    ghost view = { λ room. length room.leaves.leaves };

    ghost invariant = { λ room. room.leaves.joins ≡ 0 };
}

impl PlaneRoom {
    ghost use Rattle.std.specs.Prelude.{◌≡◌, ◌≤◌, ◌^◌, length, IfOk};

    /// Room for so many blocks. No block is scanned, and no node joined.
    pub fn new(alloc: Global, blocks: usize) -> Result<PlaneRoom, AllocError>
        requires few { blocks ≤ 2 ^ 62 }
        ensures { IfOk result (λ room. room ≡ blocks) }
    {
        Ok(PlaneRoom {
            leaves: Tree::units(alloc, blocks)?,
        })
    }

    pub(crate) fn leaves(self) -> Tree<Leaf>
        ensures blocks { length result.leaves ≡ self }
        ensures fresh { result.joins ≡ 0 }
    {
        self.leaves
    }
}
