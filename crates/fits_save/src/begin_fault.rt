use std::io;

/// Why no new file stands beside a path.
#[derive(Clone, Copy)]
pub enum BeginFault {
    /// The path's folder takes none, or the path is that of an open descriptor.
    NoPlace(io::Error),
    /// A call failed.
    Failed(io::Error),
}
