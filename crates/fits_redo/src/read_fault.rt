use std::io;

/// Why a redo file isn't read.
#[derive(Clone, Copy)]
pub enum ReadFault {
    /// Memory ran out.
    Memory,
    /// A read failed.
    Failed(io::Error),
}
