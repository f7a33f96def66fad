use std::io;

/// Why a result isn't saved.
#[derive(Clone, Copy)]
pub enum SaveFault {
    /// What stands at the path isn't what was opened there: another run, or program, wrote it.
    Changed,
    /// It can't be replaced whole, as was wanted.
    NotWhole,
    /// A file stands under the name that the old one was to keep.
    Stands,
    /// What stands at the path can't be written, or a new file can't be made.
    Opening(io::Error),
    /// A call failed; what stands at the path is as it was, unless it is written in its place.
    Failed(io::Error),
    /// A call failed while the path was written over: the whole result stands beside it.
    InPart(io::Error),
}
