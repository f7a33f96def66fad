//! The lines of a script: which bytes are which command.
ghost use Rattle.std.specs.Prelude.{◌≡◌, IfOk, IsErrOf, OnErr};
ghost use Rattle.std.specs.Option.{option_copied};
ghost use Rattle.fits_script.specs.Line.{cards_command, command_of, reading_of, said_by, said_of};
ghost use Rattle.fits_script.specs.Line.{verb_said, ReadingNeedsMemory, SayingNeedsMemory};
ghost use Rattle.fits_script.specs.Words.{first_word, verb_of};
ghost use Rattle.fits_script.specs.declared.command.Command.{Command};

use crate::command::Command;
use crate::forms::{
    array_words, card_words, field_words, fill_words, move_words, name_word, place_word,
    rectangle_word, write_words,
};
use crate::limits::LINE_LIMIT;
use crate::line_fault::LineFault;
use crate::line_reading::LineReading;
use crate::misfit::Misfit;
use crate::misfits::{no_verb, unless_returned};
use crate::next_words::{ended, next_hdu};
use crate::verb::{Verb, verb_of};
use crate::words::cut_word;
use fits_edit::{CardEdit, Edit, HduEdit};
use std::alloc::{AllocError, Global};

// What a line says, or why it says no command.
type Said<'a> = Result<Command, Misfit<'a>>;

/// The command that a line says, without its line feed.
pub fn parse_line(alloc: Global, line: &[u8]) -> Result<Command, LineFault>
    ensures ok { IfOk result (λ command. reading_of line.now ≡ LineReading.Said command) }
    ensures bad { IsErrOf result LineFault.Bad
        → (command : Command) → reading_of line.now ≡ LineReading.Said command → ⊥ }
    ensures memory { IsErrOf result LineFault.Memory → ReadingNeedsMemory (reading_of line.now) }
{
    match read_line(alloc, line) {
        Ok(LineReading::Said(command)) => Ok(command),
        Ok(LineReading::TooLong | LineReading::NoCommand(_)) => Err(LineFault::Bad),
        Err(refused) => Err(LineFault::from(refused)),
    }
}

/// What a line comes to, without its line feed.
#[tactic(auto, unfolding(crate::specs::Line::reading_of))]
pub fn read_line(alloc: Global, line: &[u8]) -> Result<LineReading<'_>, AllocError>
    ensures ok { IfOk result (λ reading. reading ≡ reading_of line.now) }
    ensures err { OnErr result (ReadingNeedsMemory (reading_of line.now)) }
{
    if line.len() > LINE_LIMIT {
        return Ok(LineReading::TooLong);
    }
    match command_of(alloc, line) {
        Ok(Ok(command)) => Ok(LineReading::Said(command)),
        Ok(Err(misfit)) => Ok(LineReading::NoCommand(unless_returned(line, misfit))),
        Err(refused) => Err(refused),
    }
}

// What a line within the limit says, or why it says no command.
#[tactic(auto, unfolding(crate::specs::Line::command_of))]
fn command_of(alloc: Global, line: &[u8]) -> Result<Said<'_>, AllocError>
    ensures ok { IfOk result (λ said. said ≡ command_of line.now) }
    ensures err { OnErr result (SayingNeedsMemory (command_of line.now)) }
{
    match line {
        [] | [b'#', ..] => Ok(Ok(Command::Nothing)),
        _ => words_said(alloc, line),
    }
}

// What the words of a line say.
#[tactic(auto, unfolding(crate::specs::Line::verb_said))]
fn words_said(alloc: Global, line: &[u8]) -> Result<Said<'_>, AllocError>
    ensures ok { IfOk result (λ said. said ≡ verb_said (verb_of (first_word line.now)) line.now) }
    ensures err { OnErr result (SayingNeedsMemory (verb_said (verb_of (first_word line.now)) line.now)) }
{
    let (word, rest) = cut_word(line);
    match verb_of(word) {
        Some(verb) => said_by(alloc, verb, line.len(), rest),
        None => Ok(Err(no_verb(line))),
    }
}

// What a verb and the rest of the line say: most verbs name an HDU first.
#[tactic(auto, unfolding(crate::specs::Line::said_by))]
fn said_by(
    alloc: Global,
    verb: Verb,
    size: usize,
    rest: Option<&[u8]>,
) -> Result<Said<'_>, AllocError>
    ensures ok { IfOk result (λ said. said ≡ said_by verb size (option_copied rest.entry)) }
    ensures err { OnErr result (SayingNeedsMemory (said_by verb size (option_copied rest.entry))) }
{
    match verb {
        Verb::Offsets => Ok(ended(size, rest, Command::Offsets)),
        Verb::Report => Ok(ended(size, rest, Command::Report)),
        _ => match next_hdu(size, rest) {
            Ok((hdu, rest)) => said_of(alloc, verb, size, hdu, rest),
            Err(misfit) => Ok(Err(misfit)),
        },
    }
}

// What a verb says of an HDU, by what follows the HDU's number.
#[tactic(auto, unfolding(crate::specs::Line::said_of))]
fn said_of(
    alloc: Global,
    verb: Verb,
    size: usize,
    hdu: usize,
    rest: Option<&[u8]>,
) -> Result<Said<'_>, AllocError>
    ensures ok { IfOk result (λ said. said ≡ said_of verb size hdu (option_copied rest.entry)) }
    ensures err { OnErr result (SayingNeedsMemory (said_of verb size hdu (option_copied rest.entry))) }
{
    Ok(match verb {
        Verb::Insert => card_words(size, rest).map(|(place, card)| cards_command(
            hdu,
            CardEdit::Insert { place, card },
        )),
        Verb::Put => card_words(size, rest).map(|(place, card)| cards_command(
            hdu,
            CardEdit::Put { place, card },
        )),
        Verb::Delete => place_word(size, rest).map(|place| cards_command(
            hdu,
            CardEdit::Delete { place },
        )),
        Verb::Move => move_words(size, rest).map(|(from, to)| cards_command(
            hdu,
            CardEdit::Move { from, to },
        )),
        Verb::Set => field_words(alloc, size, rest)?.map(|(name, value, comment)| cards_command(
            hdu,
            CardEdit::Set {
                name,
                value,
                comment,
            },
        )),
        Verb::Unset => name_word(size, rest).map(|name| cards_command(
            hdu,
            CardEdit::Unset { name },
        )),
        Verb::Fill => fill_words(alloc, size, rest)?.map(|(lo, hi, paint)| hdu_command(
            hdu,
            HduEdit::Pixels { lo, hi, paint },
        )),
        Verb::Write => write_words(alloc, size, rest)?.map(|(lo, hi, paint)| hdu_command(
            hdu,
            HduEdit::Pixels { lo, hi, paint },
        )),
        Verb::Reshape => array_words(alloc, size, rest)?.map(|(kind, axes)| hdu_command(
            hdu,
            HduEdit::Reshape { kind, axes },
        )),
        Verb::New => array_words(alloc, size, rest)?.map(|(kind, axes)| Command::Edit(
            Edit::NewImage {
                at: hdu,
                kind,
                axes,
            },
        )),
        Verb::Remove => ended(size, rest, Command::Edit(Edit::RemoveHdu { hdu })),
        Verb::Stamp => ended(size, rest, hdu_command(hdu, HduEdit::Stamp)),
        Verb::Keep => ended(size, rest, hdu_command(hdu, HduEdit::Keep)),
        Verb::Release => ended(size, rest, hdu_command(hdu, HduEdit::Release)),
        Verb::Kept => ended(size, rest, Command::Kept { hdu }),
        Verb::Get => name_word(size, rest).map(|name| Command::Get { hdu, name }),
        Verb::Positions => name_word(size, rest).map(|name| Command::Positions { hdu, name }),
        Verb::Statistics => ended(size, rest, Command::Statistics { hdu }),
        Verb::Rectangle => rectangle_word(alloc, size, rest)?.map(|(lo, hi)| Command::Rectangle {
            hdu,
            lo,
            hi,
        }),
        Verb::Sums => ended(size, rest, Command::Sums { hdu }),
        Verb::Offsets => ended(size, rest, Command::Offsets),
        Verb::Report => ended(size, rest, Command::Report),
    })
}

// An edit of an HDU.
fn hdu_command(hdu: usize, edit: HduEdit) -> Command
    ensures { result ≡ Command.Edit (Edit.Hdu hdu edit) }
{
    Command::Edit(Edit::Hdu { hdu, edit })
}

// An edit of its cards.
fn cards_command(hdu: usize, edit: CardEdit) -> Command
    ensures { result ≡ cards_command hdu edit }
{
    hdu_command(hdu, HduEdit::Cards(edit))
}
