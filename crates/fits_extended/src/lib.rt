//! The extended lines of a script: which plain lines each stands for in a file.
#![tactic(auto)]

mod adding;
mod digit_run;
mod digit_sum;
mod each;
mod ending;
mod extended_verb;
mod guarding;
mod history;
mod keyword_verb;
mod naming;
mod number_parts;
mod number_text;
mod own_card;
mod plain_text;
mod renaming;
mod same_number;
mod same_value;
mod saying;
mod standing_for;
mod stands;
mod unmet;
mod words;

pub use each::queries_of_each;
pub use extended_verb::ExtendedVerb;
pub use keyword_verb::KeywordVerb;
pub use standing_for::plain_line;
pub use stands::Stands;
pub use unmet::Unmet;
