//! HDUs by the names of extensions.
ghost use Rattle.std.specs.Prelude.{◌≡◌, IfNone, IfOk, IfSome};
ghost use Rattle.fits_session.specs.Away.{LieStill};
ghost use Rattle.fits_session.specs.Session.{absences_of, file_of, marked_of};
ghost use Rattle.fits_extended.specs.Stands.{has_name, has_version, is_called, number_at, number_called, numbered};

use crate::plain_text::with_number;
use crate::same_value::is_text;
use crate::saying::{Said, said_of};
use crate::words::{is_at_name, next_of};
use fits_card::Name;
use fits_script::{cut_word, number_of_word};
use fits_session::{Holder, Session};
use fits_tell::{cut_version, is_version};
use std::alloc::{AllocError, Global};

const EXTNAME: Name = Name(*b"EXTNAME ");

const EXTVER: Name = Name(*b"EXTVER  ");

/// The line in which the number of its HDU stands, where it has the name of one.
#[tactic(auto, unfolding(crate::specs::Stands::numbered))]
pub(crate) fn numbered<H: Holder + Drop>(
    alloc: Global,
    session: &mut Session<H>,
    line: &[u8],
) -> Result<Option<Vec<u8>>, AllocError>
    ensures some { IfOk result (λ found. IfSome found (λ text.
        text.items ≡ numbered (file_of session.old) line.now)) }
    ensures none { IfOk result (λ found. IfNone found
        (numbered (file_of session.old) line.now ≡ line.now)) }
    ensures same { marked_of session.new ≡ marked_of session.old }
    ensures stays { LieStill session.old.hdus session.new.hdus }
    ensures absences { absences_of session.new.hdus ≡ absences_of session.old.hdus }
{
    let (verb, rest) = cut_word(line);
    let (word, more) = next_of(rest);
    if !is_at_name(word) {
        return Ok(None);
    }
    let number = number_at(session, word)?;
    Ok(Some(with_number(alloc, verb, number, more)?))
}

// The number of the HDU that `@NAME` or `@NAME,VER` is, or 0.
#[tactic(auto, unfolding(crate::specs::Stands::number_at))]
fn number_at<H: Holder + Drop>(session: &mut Session<H>, word: &[u8]) -> Result<usize, AllocError>
    ensures value { IfOk result (λ number. number ≡ number_at (file_of session.old) word.now) }
    ensures same { marked_of session.new ≡ marked_of session.old }
    ensures stays { LieStill session.old.hdus session.new.hdus }
    ensures absences { absences_of session.new.hdus ≡ absences_of session.old.hdus }
{
    let (_, text) = word.split_at(word.len().min(1));
    let (name, version) = cut_version(text);
    match number_of_word(version) {
        Some(version) => number_called(session, name, Some(version)),
        None => number_called(session, text, None),
    }
}

// The number of the first extension of this name, and this version where one is wanted, or 0.
#[tactic(auto, unfolding(crate::specs::Stands::first_from))]
fn number_called<H: Holder + Drop>(
    session: &mut Session<H>,
    name: &[u8],
    version: Option<usize>,
) -> Result<usize, AllocError>
    ensures value { IfOk result (λ number.
        number ≡ number_called (file_of session.old) name.now version) }
    ensures same { marked_of session.new ≡ marked_of session.old }
    ensures stays { LieStill session.old.hdus session.new.hdus }
    ensures absences { absences_of session.new.hdus ≡ absences_of session.old.hdus }
{
    let count = session.hdus();
    let mut before = 1;
    'hdus: while before < count {
        let hdu = before + 1;
        if is_called(session, name, version, hdu)? {
            return Ok(hdu);
        }
        before = hdu;
    }
    Ok(0)
}

// Whether HDU h has this name, and this version where one is wanted.
#[tactic(auto, unfolding(crate::specs::Stands::is_called))]
fn is_called<H: Holder + Drop>(
    session: &mut Session<H>,
    name: &[u8],
    version: Option<usize>,
    hdu: usize,
) -> Result<bool, AllocError>
    ensures value { IfOk result (λ called.
        called ≡ is_called (file_of session.old) name.now version hdu) }
    ensures same { marked_of session.new ≡ marked_of session.old }
    ensures stays { LieStill session.old.hdus session.new.hdus }
    ensures absences { absences_of session.new.hdus ≡ absences_of session.old.hdus }
{
    let named = said_of(session, hdu, &EXTNAME)?;
    if !has_name(name, &named) {
        return Ok(false);
    }
    let Some(version) = version else {
        return Ok(true);
    };
    let numbered = said_of(session, hdu, &EXTVER)?;
    Ok(has_version(version, &numbered))
}

// Whether the name of an extension is this text.
fn has_name(name: &[u8], said: &Said) -> bool
    ensures { result ≡ has_name name.now said.now }
{
    match said {
        Ok((value, _)) => is_text(name, value),
        Err(_) => false,
    }
}

// Whether the version of an extension is this.
fn has_version(version: usize, said: &Said) -> bool
    ensures { result ≡ has_version version said.now }
{
    match said {
        Ok((value, _)) => is_version(version, value),
        Err(_) => version == 1,
    }
}
