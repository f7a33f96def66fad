//! The changed blocks of a file, written into the file itself, so that a run that is broken off is
//! finished by the next one.
#![tactic(auto)]

mod agreeing;
mod applying;
mod changed_block;
mod number;
mod open_fault;
mod overwriting;
mod pair;
mod plan;
mod read_fault;
mod recovering;
mod recovery;
mod redo;
mod redo_bytes;
mod redo_fault;
mod staging;
mod system;

pub use changed_block::{BLOCK_LEN, ChangedBlock};
pub use open_fault::OpenFault;
pub use overwriting::overwrite;
pub use pair::Pair;
pub use plan::Plan;
pub use read_fault::ReadFault;
pub use recovering::recover;
pub use recovery::Recovery;
pub use redo::{HEAD_LEN, Redo, is_open};
pub use redo_fault::RedoFault;
pub use system::{System, is_broken_off};
