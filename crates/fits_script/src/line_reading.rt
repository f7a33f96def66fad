use crate::command::Command;
use crate::misfit::Misfit;

/// What a line of a script comes to.
#[derive(Drop)]
pub enum LineReading<'a> {
    /// It is past the limit, whatever it holds.
    TooLong,
    /// It has none of the forms, and this is why.
    NoCommand(Misfit<'a>),
    /// It says this command.
    Said(Command),
}
