//! The lines of a script: which bytes say which command.
#![tactic(auto)]

mod command;
mod cut;
mod forms;
mod image_words;
mod limits;
mod line;
mod line_fault;
mod line_reading;
mod misfit;
mod misfits;
mod next_words;
mod part;
mod rectangle_words;
mod value_words;
mod verb;
mod wording;
mod words;

pub use command::Command;
pub use cut::{split_far, split_once};
pub use limits::LINE_LIMIT;
pub use line::{parse_line, read_line};
pub use line_fault::LineFault;
pub use line_reading::LineReading;
pub use misfit::Misfit;
pub use misfits::ends_in_return;
pub use verb::Verb;
pub use wording::{write_misfit, write_unwritable};
pub use words::{cut_word, name_of_word, number_of_word, padded_name};
