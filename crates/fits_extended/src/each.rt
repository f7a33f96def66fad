//! Lines for each HDU.
ghost use Rattle.std.specs.Prelude.{◌≡◌, ℕ, List, length, true, Err, IfNone, IfOk, IfSome, Ok, OnErr};
ghost use Rattle.std.specs.Option.{option_copied};
ghost use Rattle.fits_session.specs.Away.{LieStill};
ghost use Rattle.fits_session.specs.Session.{absences_of, file_of, marked_of};
ghost use Rattle.fits_script.specs.Words.{after_next, after_word, first_word};
ghost use Rattle.fits_extended.specs.Stands.{both, for_each, lines_if, lines_in, queries_for, stood, with_numbers};
ghost use Rattle.fits_extended.specs.Words.{may_stand};

use crate::plain_text::with_number;
use crate::standing_for::said_in;
use crate::stands::Stands;
use crate::unmet::Unmet;
use crate::words::{is_query_of_each, may_stand, next_of};
use fits_script::cut_word;
use fits_session::{Holder, Session};
use std::alloc::{AllocError, Global};

/// What a line stands for in each HDU, one after another.
pub(crate) fn for_each<H: Holder + Drop>(
    alloc: Global,
    session: &mut Session<H>,
    line: &[u8],
) -> Result<Stands, AllocError>
    ensures ok { IfOk result (λ it. (any : List ℕ) → stood any it
        ≡ for_each (file_of session.old) (first_word line.now) (after_next (after_word line.now))
        (length (file_of session.old).hdus) 1) }
    ensures same { marked_of session.new ≡ marked_of session.old }
    ensures stays { LieStill session.old.hdus session.new.hdus }
    ensures absences { absences_of session.new.hdus ≡ absences_of session.old.hdus }
{
    let (verb, rest) = cut_word(line);
    let (_, more) = next_of(rest);
    let count = session.hdus();
    let mut lines = Vec::new(alloc);
    let mut before = 0;
    'hdus: while before < count {
        let text = with_number(alloc, verb, before + 1, more)?;
        let said = said_in(alloc, session, &text)?;
        if let Some(why) = push_said(&mut lines, text, said)? {
            return Ok(Stands::Unmet(why));
        }
        before += 1;
    }
    Ok(Stands::Lines(lines))
}

// Adds what a line stands for, if it stands for something.
fn push_said(
    lines: &mut Vec<Vec<u8>>,
    line: Vec<u8>,
    said: Stands,
) -> Result<Option<Unmet>, AllocError>
    ensures some { IfOk result (λ unmet. IfSome unmet (λ why. stood line.items said ≡ Err why)) }
    ensures none { IfOk result (λ unmet. IfNone unmet (both (Ok (lines_in lines.old.items)) (stood line.items said)
        ≡ Ok (lines_in lines.new.items))) }
{
    match said {
        Stands::Itself => lines.push(line)?,
        Stands::Line(plain) => lines.push(plain)?,
        Stands::Lines(mut plains) => lines.append(&mut plains)?,
        Stands::Unmet(why) => return Ok(Some(why)),
    }
    Ok(None)
}

/// The plain queries of each HDU, if a line is one of each. No card is read.
#[tactic(auto, unfolding(crate::specs::Stands::queries_for))]
pub fn queries_of_each<H: Holder + Drop>(
    alloc: Global,
    session: &Session<H>,
    line: &[u8],
) -> Result<Option<Vec<Vec<u8>>>, AllocError>
    ensures ok { IfOk result (λ it. lines_if it ≡ queries_for (file_of session.now) line.now) }
    ensures err { OnErr result (may_stand line.now ≡ true) }
{
    if !may_stand(line) || !is_query_of_each(line) {
        return Ok(None);
    }
    let (verb, rest) = cut_word(line);
    let (_, more) = next_of(rest);
    Ok(Some(with_numbers(alloc, verb, more, session.hdus())?))
}

// `VERB H`, and what follows, of each of so many HDUs.
fn with_numbers(
    alloc: Global,
    verb: &[u8],
    rest: Option<&[u8]>,
    count: usize,
) -> Result<Vec<Vec<u8>>, AllocError>
    ensures { IfOk result (λ lines. lines_in lines.items
        ≡ with_numbers verb.now (option_copied rest.entry) count 1) }
{
    let mut lines = Vec::new(alloc);
    let mut before = 0;
    'hdus: while before < count {
        lines.push(with_number(alloc, verb, before + 1, rest)?)?;
        before += 1;
    }
    Ok(lines)
}
