//! Scripts over FITS files: the answers to their lines, and the runs of `edit` and `ask`.
#![tactic(auto)]

mod answer;
mod asking;
mod clues;
mod code_counts;
mod complaint;
mod edited;
mod editing;
mod holding;
mod kept_line;
mod limits;
mod manner;
mod new_errors;
mod new_tables;
mod overwriting;
mod pixel_answers;
mod places_line;
mod planned;
mod readying;
mod reason;
mod reasons;
mod remarking;
mod reply;
mod reports;
mod runner;
mod saves;
mod script;
mod table_problems;
mod terms;
mod value_line;

pub use answer::answer as answer_command;
pub use asking::{run_ask, run_ask_stored};
pub use edited::{Edited, end_of};
pub use editing::{run_edit, run_edit_stored, run_edit_told};
pub use fits_tell::{
    CardChoice, CardPlace, CardsEnd, End, Fault, FileFault, Level, NamePattern, Reread, Telling,
    run_cards, run_list, run_sum, run_telling, run_verify,
};
pub use limits::SCRIPT_LIMIT;
pub use manner::Manner;
pub use overwriting::run_edit_over;
pub use planned::Planned;
pub use readying::ready;
pub use saves::Saves;
pub use terms::Terms;
// The lines of a script are named here too.
pub use fits_script::{Command, LINE_LIMIT, LineFault, LineReading, parse_line, read_line};
