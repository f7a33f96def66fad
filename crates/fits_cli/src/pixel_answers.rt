//! What queries of pixels and sums print.
ghost use Rattle.std.specs.Prelude.{◌≡◌, IfOk, IfErr, OnErr, Ok};
ghost use Rattle.fits_session.specs.Away.{LieStill};
ghost use Rattle.fits_session.specs.Session.{absences_of, marked_of, HasPixels, HasStats, IsSeen, IsSoOf};
ghost use Rattle.fits_cli.specs.Answer.{outcome_of, CommandFails};
ghost use Rattle.fits_script.specs.declared.command.Command.TheVariants.{Rectangle, Statistics, Sums};

use fits_session::{Corner, Holder, Refusal, Session};
use fits_tell::{statistics_line, sums_line, values_line};
use std::alloc::Global;

/// `stat H`
#[tactic(auto, unfolding(crate::specs::Answer::outcome_of, crate::specs::Answer::OutcomeNeedsMemory))]
pub(crate) fn statistics<H: Holder + Drop>(
    alloc: Global,
    session: &mut Session<H>,
    hdu: usize,
) -> Result<Vec<u8>, Refusal>
    requires { IsSoOf HasStats hdu session.old.hdus }
    ensures ok { IfOk result (λ text. outcome_of (marked_of session.old) (Statistics hdu)
        ≡ Ok (record { text = text.items; left = marked_of session.new })) }
    ensures err { IfErr result (CommandFails (marked_of session.old) (Statistics hdu)) }
    ensures kept { OnErr result (marked_of session.new ≡ marked_of session.old) }
    ensures stays { LieStill session.old.hdus session.new.hdus }
    ensures absences { absences_of session.new.hdus ≡ absences_of session.old.hdus }
{
    let stats = session.known_stats(hdu)?;
    Ok(statistics_line(alloc, &stats)?)
}

/// `rect H RECT`
#[tactic(auto, unfolding(crate::specs::Answer::outcome_of, crate::specs::Answer::OutcomeNeedsMemory))]
pub(crate) fn rectangle<H: Holder + Drop>(
    alloc: Global,
    session: &mut Session<H>,
    hdu: usize,
    lo: Corner,
    hi: Corner,
) -> Result<Vec<u8>, Refusal>
    requires { IsSoOf (HasPixels lo hi) hdu session.old.hdus }
    ensures ok { IfOk result (λ text. outcome_of (marked_of session.old) (Rectangle hdu lo hi)
        ≡ Ok (record { text = text.items; left = marked_of session.new })) }
    ensures err { IfErr result (CommandFails (marked_of session.old) (Rectangle hdu lo hi)) }
    ensures kept { OnErr result (marked_of session.new ≡ marked_of session.old) }
    ensures stays { LieStill session.old.hdus session.new.hdus }
    ensures absences { absences_of session.new.hdus ≡ absences_of session.old.hdus }
{
    let values = session.held_rect(hdu, lo.as_slice(), hi.as_slice())?;
    Ok(values_line(alloc, &values)?)
}

/// `sum H`
#[tactic(auto, unfolding(crate::specs::Answer::outcome_of, crate::specs::Answer::OutcomeNeedsMemory))]
pub(crate) fn sums<H: Holder + Drop>(
    alloc: Global,
    session: &mut Session<H>,
    hdu: usize,
) -> Result<Vec<u8>, Refusal>
    requires { IsSoOf IsSeen hdu session.old.hdus }
    ensures ok { IfOk result (λ text. outcome_of (marked_of session.old) (Sums hdu)
        ≡ Ok (record { text = text.items; left = marked_of session.new })) }
    ensures err { IfErr result (CommandFails (marked_of session.old) (Sums hdu)) }
    ensures kept { OnErr result (marked_of session.new ≡ marked_of session.old) }
    ensures stays { LieStill session.old.hdus session.new.hdus }
    ensures absences { absences_of session.new.hdus ≡ absences_of session.old.hdus }
{
    let sum = session.known_datasum(hdu)?;
    let verdicts = session.known_verdicts(hdu)?;
    Ok(sums_line(alloc, sum, verdicts)?)
}
