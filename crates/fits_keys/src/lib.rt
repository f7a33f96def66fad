//! The values of keywords, a line for each file.
#![tactic(auto)]

mod fields;
mod key_choice;
mod keys;

pub use fields::heading;
pub use key_choice::KeyChoice;
pub use keys::run_keys;
