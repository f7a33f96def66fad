//! Sums of FITS data and headers, and the text that a checksum is written as.
#![tactic(auto)]

mod checksum_text;
mod datasum;
mod fill;
pub mod laws;
mod ones_complement;
mod words;

pub use checksum_text::encode;
pub use datasum::{datasum_card, datasum_text};
pub use fill::all_are;
pub use ones_complement::fold;
pub use words::{card_total, total, words_total};
