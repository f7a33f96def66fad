//! Laws of the definitions, by layer: each is the contract of a function that does nothing.
#![tactic(auto)]

pub mod hdu;
pub mod header;
pub mod image;
pub mod script;
pub mod session;
pub mod value;
pub mod work;
pub mod write;
