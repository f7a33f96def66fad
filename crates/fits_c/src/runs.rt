//! The runs over bytes in memory.
ghost use Rattle.std.specs.Prelude.{◌≡◌, [], IfOk};
ghost use Rattle.fits_cli.specs.Ends.{end_of};
ghost use Rattle.fits_c.specs.Message.{message_of};
ghost use Rattle.fits_c.specs.Outcome.{only, CardsComeTo, EditComesTo, TellComesTo};
ghost use Rattle.fits_c.specs.Runs.{IsOutcomeOf};

use crate::message::message_of;
use crate::outcome::Outcome;
use fits_cli::{CardChoice, End, Telling, Terms, end_of, run_cards, run_edit_told, run_telling};
use fits_stream::Watched;
use fits_tell::AskedHdu;
use std::alloc::{AllocError, Global};
use std::io;

/// Answers a script over a file, and saves what the terms say of what it made of the file.
pub fn edit(alloc: Global, terms: Terms, file: &[u8], script: &[u8]) -> Outcome
    ensures { EditComesTo terms file.now script.now result }
{
    let mut file = file;
    let mut script = script;
    let mut saved = Watched::new(Vec::new(alloc));
    let mut answers = Watched::new(Vec::new(alloc));
    let mut told: Option<Watched<io::Sink>> = None;
    let edited = run_edit_told(
        alloc,
        terms,
        &mut file,
        &mut script,
        &mut saved,
        &mut answers,
        &mut told,
    );
    outcome_of(
        alloc,
        end_of(edited),
        answers.into_inner(),
        saved.into_inner(),
    )
}

/// Tells a text of a file.
pub fn tell(alloc: Global, telling: Telling, file: &[u8]) -> Outcome
    ensures { TellComesTo telling file.now result }
{
    let mut file = file;
    let mut answers = Watched::new(Vec::new(alloc));
    let end = run_telling(alloc, telling, &mut file, &mut answers);
    outcome_of(alloc, end, answers.into_inner(), Vec::new(alloc))
}

/// Shows the cards of HDU h, or of all at 0.
pub fn cards(alloc: Global, h: u64, file: &[u8]) -> Outcome
    ensures { CardsComeTo h file.now result }
{
    let Ok(choice) = choice_of(alloc, h) else {
        return refused(alloc);
    };
    let mut file = file;
    let mut answers = Watched::new(Vec::new(alloc));
    let shown = run_cards(alloc, &choice, &mut file, &mut answers);
    outcome_of(alloc, shown.end, answers.into_inner(), Vec::new(alloc))
}

// The cards of HDU h, or of all at 0.
fn choice_of(alloc: Global, h: u64) -> Result<CardChoice, AllocError>
    ensures hdus { IfOk result (λ choice. choice.hdus.items ≡ only h) }
    ensures names { IfOk result (λ choice. choice.names.items ≡ []) }
{
    let mut hdus = Vec::new(alloc);
    if h != 0 {
        hdus.push(AskedHdu::Number(h))?;
    }
    Ok(CardChoice {
        hdus,
        names: Vec::new(alloc),
    })
}

// What a run made that ended so.
fn outcome_of(alloc: Global, end: End, answers: Vec<u8>, saved: Vec<u8>) -> Outcome
    ensures { IsOutcomeOf end.status end.fault answers.items saved.items result }
{
    let Ok(message) = message_of(alloc, end.fault) else {
        return refused(alloc);
    };
    Outcome {
        status: end.status,
        answers,
        saved,
        message,
    }
}

// Memory was refused.
fn refused(alloc: Global) -> Outcome
    ensures { result.status ≡ 3 }
{
    Outcome {
        status: 3,
        answers: Vec::new(alloc),
        saved: Vec::new(alloc),
        message: Vec::new(alloc),
    }
}
