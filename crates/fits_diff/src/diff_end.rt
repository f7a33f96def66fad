use crate::diff_fault::DiffFault;

/// How a comparison ended.
#[derive(Clone, Copy)]
pub struct DiffEnd {
    /// The program's exit status: 0 the files are the same, 1 they aren't, else that of the fault.
    pub status: u8,
    /// What ended it before its end.
    pub fault: Option<DiffFault>,
}
