//! A script, run over a file under edits.
ghost use Rattle.std.specs.Prelude.{◌≡◌, Ok, Err, IfErr, OnOk};
ghost use Rattle.fits_session.specs.Session.{marked_of};
ghost use Rattle.fits_script.specs.Line.{reading_of};
ghost use Rattle.fits_patch.specs.Making.{edit_made, line_made, lines_made, lines_of};
ghost use Rattle.fits_patch.specs.Steps.{unmade_of, LineStops, ScriptStops};

use crate::patch_fault::PatchFault;
use crate::unmade::Unmade;
use fits_edit::{CardEdit, Edit, HduEdit};
use fits_making::Refusal;
use fits_script::{Command, LineReading, read_line, split_far};
use fits_session::{Holder, Session};
use std::alloc::Global;

/// Makes each line of a script, one after another.
pub(crate) fn make_script<H: Holder + Drop>(
    alloc: Global,
    session: &mut Session<H>,
    script: &[u8],
) -> Result<(), PatchFault>
    ensures ok { OnOk result (lines_made (marked_of session.old) (lines_of script.now)
        ≡ Ok (marked_of session.new)) }
    ensures err { IfErr result (ScriptStops (lines_made (marked_of session.old) (lines_of script.now))) }
{
    let mut rest = script;
    'line: while let Some((line, more)) = split_far(rest, b'\n') {
        match make_next(alloc, session, line) {
            Ok(()) => {}
            Err(why) => return Err(why),
        }
        rest = more;
    }
    make_next(alloc, session, rest)
}

// Makes a line, or says which one it is that isn't accepted.
fn make_next<H: Holder + Drop>(
    alloc: Global,
    session: &mut Session<H>,
    line: &[u8],
) -> Result<(), PatchFault>
    ensures ok { OnOk result (line_made (marked_of session.old) line.now (reading_of line.now)
        ≡ Ok (marked_of session.new)) }
    ensures err { IfErr result (ScriptStops
        (line_made (marked_of session.old) line.now (reading_of line.now))) }
{
    match make_line(alloc, session, line) {
        Ok(()) => Ok(()),
        Err(Unmade::Refused(why)) => Err(PatchFault::Unmade {
            line: line.to_vec(alloc)?,
            why,
        }),
        Err(Unmade::Memory) => Err(PatchFault::Memory),
    }
}

// Makes the edit that a line says, if it says one.
fn make_line<H: Holder + Drop>(
    alloc: Global,
    session: &mut Session<H>,
    line: &[u8],
) -> Result<(), Unmade>
    ensures ok { OnOk result (line_made (marked_of session.old) line.now (reading_of line.now)
        ≡ Ok (marked_of session.new)) }
    ensures err { IfErr result (LineStops line.now
        (line_made (marked_of session.old) line.now (reading_of line.now))) }
{
    match read_line(alloc, line)? {
        LineReading::Said(
            Command::Edit(
                Edit::Hdu {
                    hdu,
                    edit: HduEdit::Cards(edit),
                },
            ),
        ) => make_cards(session, line, hdu, edit),
        LineReading::Said(Command::Nothing) => Ok(()),
        _ => Err(Unmade::Refused(None)),
    }
}

// Makes an edit of the cards of HDU h, which a line says.
fn make_cards<H: Holder + Drop>(
    session: &mut Session<H>,
    line: &[u8],
    h: usize,
    edit: CardEdit,
) -> Result<(), Unmade>
    ensures ok { OnOk result (edit_made (marked_of session.old) line.now (Edit.Hdu h (HduEdit.Cards edit))
        ≡ Ok (marked_of session.new)) }
    ensures err { IfErr result (LineStops line.now
        (edit_made (marked_of session.old) line.now (Edit.Hdu h (HduEdit.Cards edit)))) }
{
    let edit = Edit::Hdu {
        hdu: h,
        edit: HduEdit::Cards(edit),
    };
    match session.make(edit) {
        Ok(()) => Ok(()),
        Err(why) => Err(unmade_of(why)),
    }
}

// A refusal, as why a line isn't accepted.
fn unmade_of(why: Refusal) -> Unmade
    ensures { result ≡ unmade_of why }
{
    match why {
        Refusal::Memory => Unmade::Memory,
        _ => Unmade::Refused(Some(why)),
    }
}
