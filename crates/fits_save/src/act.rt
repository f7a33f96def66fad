/// A call that was done on the way of a result to its path.
#[derive(Clone, Copy)]
pub enum Act {
    /// A new file was made beside the path.
    Begin,
    /// Bytes were written where the result goes.
    Write,
    /// All that was written beside the path reached the disk.
    Settle,
    /// What stands at the path was found to be what was opened there.
    Compare,
    /// The file beside the path took its name.
    Rename,
    /// The file beside the path got its name too, which was free.
    Link,
    /// What stands at the path was written over in part.
    Overwrite,
    /// The rest of it was, and reached the disk.
    Finish,
    /// The name beside the path was removed.
    Clear,
    /// What stands at the path was emptied.
    Expose,
    /// A device or a pipe was opened.
    Pass,
}
