//! Whether an HDU is kept stamped.
ghost use Rattle.std.specs.Prelude.{◌≡◌, IfOk, IfErr, OnErr, Ok};
ghost use Rattle.fits_session.specs.Away.{LieStill};
ghost use Rattle.fits_session.specs.Session.{absences_of, marked_of};
ghost use Rattle.fits_cli.specs.Answer.{kept_line, outcome_of, CommandFails};
ghost use Rattle.fits_script.specs.declared.command.Command.TheVariants.{Kept};

use fits_session::{Holder, Refusal, Session};
use std::alloc::{AllocError, Global};

/// `kept H`
#[tactic(auto, unfolding(crate::specs::Answer::outcome_of, crate::specs::Answer::OutcomeNeedsMemory))]
pub(crate) fn kept<H: Holder + Drop>(
    alloc: Global,
    session: &mut Session<H>,
    hdu: usize,
) -> Result<Vec<u8>, Refusal>
    ensures ok { IfOk result (λ text. outcome_of (marked_of session.old) (Kept hdu)
        ≡ Ok (record { text = text.items; left = marked_of session.new })) }
    ensures err { IfErr result (CommandFails (marked_of session.old) (Kept hdu)) }
    ensures same { OnErr result (marked_of session.new ≡ marked_of session.old) }
    ensures stays { LieStill session.old.hdus session.new.hdus }
    ensures absences { absences_of session.new.hdus ≡ absences_of session.old.hdus }
{
    let kept = session.kept(hdu)?;
    Ok(kept_line(alloc, kept)?)
}

// What is said of it.
fn kept_line(alloc: Global, kept: bool) -> Result<Vec<u8>, AllocError>
    ensures { IfOk result (λ text. text.items ≡ kept_line kept) }
{
    Vec::from_slice(alloc, if kept { b"yes\n" } else { b"no\n" })
}
