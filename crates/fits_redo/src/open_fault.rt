use std::alloc::AllocError;
use std::io;

/// Why a file can't be written in its place.
#[derive(Clone, Copy)]
pub enum OpenFault {
    /// Another run of the program has it.
    Busy,
    /// A call failed, or memory ran out.
    Failed(io::Error),
}

impl From<io::Error> for OpenFault {
    fn from(error: io::Error) -> Self {
        OpenFault::Failed(error)
    }
}

impl From<AllocError> for OpenFault {
    fn from(error: AllocError) -> Self {
        OpenFault::Failed(io::Error::from(error))
    }
}
