//! An edit made of one HDU, or why it is refused.
#![tactic(auto)]

mod cards;
mod changes;
mod columns;
mod keeping;
mod making;
mod pixels;
mod refusal;
mod reshaping;
mod stamping;

pub use changes::is_within;
pub use columns::cards_keep;
pub use making::edit_hdu;
pub use refusal::Refusal;
