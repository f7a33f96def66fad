//! What differs in two files.
#![tactic(auto)]

mod alone;
mod card_lines;
mod diff;
mod diff_end;
mod diff_fault;
mod hdus;
mod laws;
mod lines;
mod matching;
mod pair_fault;
mod passing;
mod tails;
mod units;
mod walking;

pub use diff::run_diff;
pub use diff_end::DiffEnd;
pub use diff_fault::DiffFault;
pub use laws::nothing_is_told_of_one_file;
pub use matching::{CardPair, next_pair};
