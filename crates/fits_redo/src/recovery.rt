/// What came of looking for an edit that was broken off.
#[derive(Clone, Copy, PartialEq, Eq)]
pub enum Recovery {
    /// There was none.
    Nothing,
    /// One hadn't touched the file: its redo file was removed.
    Removed,
    /// One had: it was finished.
    Finished,
}
