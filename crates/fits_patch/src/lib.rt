//! The script that makes the headers of one file those of another.
#![tactic(auto)]

mod gaps;
mod headers;
mod lines;
mod making;
mod patch;
mod patch_end;
mod patch_fault;
mod unmade;

pub use patch::run_patch;
pub use patch_end::PatchEnd;
pub use patch_fault::PatchFault;
