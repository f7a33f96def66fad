use crate::patch_fault::PatchFault;

/// How a run of `diff -s` ended.
#[derive(Drop)]
pub struct PatchEnd {
    /// The program's exit status: 0 no line is wanted, 1 some are, else that of the fault.
    pub status: u8,
    /// What ended it before its end.
    pub fault: Option<PatchFault>,
}
