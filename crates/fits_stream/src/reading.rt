//! Buffers that a source is read into, and why reading stops.
ghost use Rattle.std.specs.Prelude.{◌≡◌, IfOk, vec_len};

use std::alloc::{AllocError, Global};
use thiserror::Error;

/// How many bytes a single call asks for.
pub const PIECE_LEN: usize = 65_536;

/// Why nothing was taken.
#[derive(Clone, Copy, Debug, Error)]
pub enum ReadFault {
    /// Memory was refused.
    #[error("out of memory")]
    Memory,
    /// A call of the source failed.
    #[error("a read failed")]
    Failed,
}

impl From<AllocError> for ReadFault {
    ghost use Rattle.fits_stream.specs.declared.reading.ReadFault.TheVariants.{Memory};
    ghost use Rattle.std.specs.Prelude.{◌≡◌};

    ghost from_gives = { λ _ fault. fault ≡ Memory };

    fn from(_: AllocError) -> ReadFault {
        ReadFault::Memory
    }
}

/// A buffer of so many bytes, whatever they are.
pub fn buffer_of(alloc: Global, len: usize) -> Result<Vec<u8>, AllocError>
    ensures { IfOk result (λ buffer. vec_len buffer ≡ len) }
{
    vec![in alloc; 0u8; len]
}
