//! The places of a keyword: what `pos` prints.
ghost use Rattle.std.specs.Prelude.{◌≡◌, ◌∷◌, IfOk, IfErr, OnErr, Ok};
ghost use Rattle.fits_session.specs.Away.{LieStill};
ghost use Rattle.fits_session.specs.Session.{absences_of, marked_of};
ghost use Rattle.fits_cli.specs.Answer.{outcome_of, places_line, CommandFails};
ghost use Rattle.fits_script.specs.declared.command.Command.TheVariants.{Positions};

use fits_card::Name;
use fits_session::{Holder, Refusal, Session};
use fits_tell::push_number;
use std::alloc::{AllocError, Global};

/// `pos H NAME`
#[tactic(auto, unfolding(crate::specs::Answer::outcome_of, crate::specs::Answer::OutcomeNeedsMemory))]
pub(crate) fn positions<H: Holder + Drop>(
    alloc: Global,
    session: &mut Session<H>,
    hdu: usize,
    name: &Name,
) -> Result<Vec<u8>, Refusal>
    ensures ok { IfOk result (λ text. outcome_of (marked_of session.old) (Positions hdu name.now)
        ≡ Ok (record { text = text.items; left = marked_of session.new })) }
    ensures err { IfErr result (CommandFails (marked_of session.old) (Positions hdu name.now)) }
    ensures kept { OnErr result (marked_of session.new ≡ marked_of session.old) }
    ensures stays { LieStill session.old.hdus session.new.hdus }
    ensures absences { absences_of session.new.hdus ≡ absences_of session.old.hdus }
{
    let places = session.positions(hdu, name)?;
    let Some((first, more)) = places.split_first() else {
        return Err(Refusal::NoKey);
    };
    Ok(places_line(alloc, *first, more)?)
}

// Places, a space between, and a line feed.
#[tactic(auto, using(crate::proofs::PlacesLemmas::places_steps))]
fn places_line(alloc: Global, first: usize, more: &[usize]) -> Result<Vec<u8>, AllocError>
    ensures { IfOk result (λ line. line.items ≡ places_line (first ∷ more.now)) }
{
    let mut line = Vec::new(alloc);
    push_number(&mut line, b"", first as u64)?;
    for place in more {
        push_number(&mut line, b" ", *place as u64)?;
    }
    line.push(b'\n')?;
    Ok(line)
}
