//! Lines of output as JSON objects, one a line.
#![tactic(auto)]

mod column;
mod columns;
mod forms;
mod json_lines;
mod objects;
mod values;

pub use column::{Column, Kind};
pub use forms::{ANSWERS, CARDS, LISTS, REPORTS, STATISTICS, SUMS};
pub use json_lines::JsonLines;
pub use objects::json_of_line;
