//! What the refusal of a command comes from, and what a command tells of that.
ghost use Rattle.std.specs.Prelude.{◌≡◌, true, Some};
ghost use Rattle.std.specs.Char.{is_ascii_lowercase};
ghost use Rattle.std.specs.List.{list_any};
ghost use Rattle.fits_script.specs.Misfit.{ends_in_return};
ghost use Rattle.fits_cli.specs.Remark.{clues_of, clues_of_cards, clues_of_edit, clues_of_hdu, name_alone, no_clues};
ghost use Rattle.fits_cli.specs.Remark.{name_reason, reason_of, unless_returned, value_reason};

use crate::clues::Clues;
use crate::reason::Reason;
use fits_card::Name;
use fits_script::{Command, ends_in_return};
use fits_session::{CardEdit, Edit, HduEdit, Refusal};
use fits_value::{Unwritable, writable};

/// What a command tells of why it may be refused, where that is wanted.
pub(crate) fn clues_of(wanted: bool, command: &Command) -> Clues
    ensures { wanted ≡ true → result ≡ clues_of command.now }
{
    if wanted {
        clues_in(command)
    } else {
        no_clues()
    }
}

// A command that tells nothing.
fn no_clues() -> Clues
    ensures { result ≡ no_clues }
{
    Clues {
        name: None,
        unwritable: None,
    }
}

// One that tells a keyword name alone.
fn name_alone(name: &Name) -> Clues
    ensures { result ≡ name_alone name.now }
{
    Clues {
        name: Some(*name),
        unwritable: None,
    }
}

#[tactic(auto, unfolding(crate::specs::Remark::clues_of))]
fn clues_in(command: &Command) -> Clues
    ensures { result ≡ clues_of command.now }
{
    match command {
        Command::Get { name, .. } => name_alone(name),
        Command::Positions { name, .. } => name_alone(name),
        Command::Edit(edit) => clues_of_edit(edit),
        _ => no_clues(),
    }
}

fn clues_of_edit(edit: &Edit) -> Clues
    ensures { result ≡ clues_of_edit edit.now }
{
    match edit {
        Edit::Hdu { edit, .. } => clues_of_hdu(edit),
        _ => no_clues(),
    }
}

fn clues_of_hdu(edit: &HduEdit) -> Clues
    ensures { result ≡ clues_of_hdu edit.now }
{
    match edit {
        HduEdit::Cards(edit) => clues_of_cards(edit),
        _ => no_clues(),
    }
}

// The keyword, and why what it is given can't be written.
fn clues_of_cards(edit: &CardEdit) -> Clues
    ensures { result ≡ clues_of_cards edit.now }
{
    match edit {
        CardEdit::Set {
            name,
            value,
            comment,
        } => Clues {
            name: Some(*name),
            unwritable: writable(value, comment).err(),
        },
        CardEdit::Unset { name } => name_alone(name),
        _ => no_clues(),
    }
}

/// What the refusal of a command with these clues comes from, as far as its line tells.
#[tactic(auto, unfolding(crate::specs::Remark::reason_of))]
pub(crate) fn reason_of(line: &[u8], clues: Clues, why: Refusal) -> Reason
    ensures { result ≡ reason_of line.now clues why }
{
    match why {
        Refusal::NoKey => unless_returned(line, name_reason(clues.name)),
        Refusal::BadName => unless_returned(line, name_reason(clues.name)),
        Refusal::BadText => unless_returned(line, Reason::Plain),
        Refusal::BadValue => value_reason(clues.unwritable),
        _ => Reason::Plain,
    }
}

// A carriage return at the end of a line is a byte of its name or its card.
fn unless_returned(line: &[u8], reason: Reason) -> Reason
    ensures { result ≡ unless_returned line.now reason }
{
    if ends_in_return(line) {
        Reason::CarriageReturn
    } else {
        reason
    }
}

// A keyword name with a small letter is none.
fn name_reason(name: Option<Name>) -> Reason
    ensures { result ≡ name_reason name }
{
    match name {
        Some(name) => letters_reason(&name),
        None => Reason::Plain,
    }
}

fn letters_reason(name: &Name) -> Reason
    ensures { result ≡ name_reason (Some name.now) }
{
    if has_small_letter(name) {
        Reason::SmallLetters
    } else {
        Reason::Plain
    }
}

fn has_small_letter(name: &Name) -> bool
    ensures { result ≡ list_any is_ascii_lowercase name.now }
{
    name.0.iter().any(|byte| byte.is_ascii_lowercase())
}

// What can't be written.
fn value_reason(why: Option<Unwritable>) -> Reason
    ensures { result ≡ value_reason why }
{
    match why {
        Some(why) => Reason::Unwritten(why),
        None => Reason::Plain,
    }
}
