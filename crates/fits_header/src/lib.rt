//! What is kept beside the cards of a header: the index of its keywords, the marks and totals of its
//! cards, and what stands round them.
#![tactic(auto)]

mod card_total;
mod counting;
mod counts;
mod entries;
mod entry;
mod fill_total;
mod finding;
mod findings;
mod header;
mod header_marks;
mod indexing;
mod key_index;
mod leads;
mod links;
mod lookups;
mod note;
mod notes;
mod numbers;
mod passing_total;
mod repeats;
mod seen;
mod shifts;
mod survey;

pub use counts::Counts;
pub use finding::Finding;
pub use header::Header;
pub use key_index::KeyIndex;
pub use passing_total::header_total;
