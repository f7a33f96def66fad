ghost use Rattle.std.specs.Prelude.{◌≡◌, List, [], ◌∷◌, ◌++◌, ℕ};
ghost use Rattle.std.specs.Borrow.{ftrue};
ghost use Rattle.std.specs.Coded.{coded_ℕ, coded_list};

use std::marker::{Model, PhantomData};

/// Bytes that were looked at and let go. It holds none of them, and only contracts see them.
///
/// Outside this module it can only be begun anew with none; `add` adds those of a piece.
#[derive(Drop)]
pub struct GoneBytes {
    marker: PhantomData<()>,
    pub ghost bytes: { List ℕ } by { coded_list coded_ℕ },
}

impl Model for GoneBytes {
    ghost also_owns = { λ _. ftrue };
}

impl GoneBytes {
    pub fn none() -> GoneBytes
        ensures { result.bytes ≡ [] }
    {
        GoneBytes {
            marker: PhantomData,
        }
    }

    fn push(&mut self, byte: u8)
        ensures { self.new.bytes ≡ self.old.bytes ++ byte ∷ [] }
    {}

    /// The bytes of this piece too.
    pub fn add(&mut self, piece: &[u8])
        ensures { self.new.bytes ≡ self.old.bytes ++ piece.now }
    {
        for byte in piece {
            self.push(*byte);
        }
    }
}
