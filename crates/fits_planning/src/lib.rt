//! Bytes as they are to be, held beside those of a stored file: which of its blocks are to be changed.
#![tactic(auto)]

mod blocks;
mod hdu;
mod reading;

pub use hdu::{lies_at, plan_hdu};
pub use reading::lie_there;
