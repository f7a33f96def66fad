//! The rules of a report: what is wrong with the cards of a header, and with the header as a whole.
#![tactic(auto)]

mod alone;
mod calendar;
mod code;
mod code_set;
mod context;
mod dates;
mod fixed;
mod header_mark;
mod header_rules;
mod judging;
mod keywords;
mod laws;
mod mark;
mod said;
mod surrounding;

pub use code::Code;
pub use code_set::{CodeSet, MOST_CODES};
pub use context::Context;
pub use header_mark::{HeaderMark, says_false};
pub use header_rules::judge_header_mark;
pub use judging::judge;
pub use laws::{
    each_code_of_a_card_alone_is_found, each_code_of_a_card_is_found,
    each_code_of_a_header_is_found,
};
pub use mark::{Mark, mark_of};
pub use surrounding::Surrounding;
