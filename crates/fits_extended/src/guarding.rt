//! Lines that want something of the file, and stand for an empty line where it is so.
ghost use Rattle.std.specs.Prelude.{◌≡◌, ◌≤◌, IfOk, List, ℕ, length};
ghost use Rattle.std.specs.Option.{option_copied};
ghost use Rattle.fits_session.specs.Away.{LieStill};
ghost use Rattle.fits_session.specs.Session.{absences_of, file_of, marked_of};
ghost use Rattle.fits_extended.specs.Stands.{as_one, lacking_by, met_if, stood, want_cards, want_value, wanted_by};
ghost use Rattle.fits_value.specs.Says.{field_says};

use crate::plain_text::{get_line, push_rest, set_line};
use crate::same_value::{has_comment, is_as_wanted, is_same_value};
use crate::saying::{has_cards, said_of};
use crate::stands::Stands;
use crate::unmet::Unmet;
use fits_script::padded_name;
use fits_session::{Holder, Refusal, Session};
use fits_value::read_field;
use std::alloc::{AllocError, Global};

/// `want H NAME`, or with a FIELD.
pub(crate) fn wanted<H: Holder + Drop>(
    alloc: Global,
    session: &mut Session<H>,
    hdu: usize,
    word: &[u8],
    rest: Option<&[u8]>,
) -> Result<Stands, AllocError>
    requires { length word.now ≤ 8 }
    ensures ok { IfOk result (λ it. (line : List ℕ) → stood line it
        ≡ as_one (wanted_by (file_of session.old) hdu word.now (option_copied rest.entry))) }
    ensures same { marked_of session.new ≡ marked_of session.old }
    ensures stays { LieStill session.old.hdus session.new.hdus }
    ensures absences { absences_of session.new.hdus ≡ absences_of session.old.hdus }
{
    match rest {
        Some(field) => want_value(alloc, session, hdu, word, field),
        None => want_cards(alloc, session, hdu, word, true),
    }
}

/// `lack H NAME`
pub(crate) fn lacking<H: Holder + Drop>(
    alloc: Global,
    session: &Session<H>,
    hdu: usize,
    word: &[u8],
    rest: Option<&[u8]>,
) -> Result<Stands, AllocError>
    requires { length word.now ≤ 8 }
    ensures ok { IfOk result (λ it. (line : List ℕ) → stood line it
        ≡ as_one (lacking_by (file_of session.now) hdu word.now (option_copied rest.entry))) }
{
    if rest.is_none() {
        return want_cards(alloc, session, hdu, word, false);
    }
    let mut line = get_line(alloc, hdu, word)?;
    push_rest(&mut line, rest)?;
    Ok(Stands::Line(line))
}

// Whether a name has cards, or has none, as it is wanted.
fn want_cards<H: Holder + Drop>(
    alloc: Global,
    session: &Session<H>,
    hdu: usize,
    word: &[u8],
    wanted: bool,
) -> Result<Stands, AllocError>
    requires { length word.now ≤ 8 }
    ensures ok { IfOk result (λ it. (line : List ℕ) → stood line it
        ≡ as_one (want_cards wanted (file_of session.now) hdu word.now)) }
{
    match has_cards(session, hdu, &padded_name(word))? {
        Ok(found) => Ok(met_if(alloc, is_as_wanted(wanted, found))),
        Err(_) => Ok(Stands::Line(get_line(alloc, hdu, word)?)),
    }
}

// Whether a keyword says what is wanted of it.
fn want_value<H: Holder + Drop>(
    alloc: Global,
    session: &mut Session<H>,
    hdu: usize,
    word: &[u8],
    field: &[u8],
) -> Result<Stands, AllocError>
    requires { length word.now ≤ 8 }
    ensures ok { IfOk result (λ it. (line : List ℕ) → stood line it
        ≡ as_one (want_value (file_of session.old) hdu word.now field.now (field_says field.now))) }
    ensures same { marked_of session.new ≡ marked_of session.old }
    ensures stays { LieStill session.old.hdus session.new.hdus }
    ensures absences { absences_of session.new.hdus ≡ absences_of session.old.hdus }
{
    let Some((value, comment)) = read_field(alloc, field)? else {
        return Ok(Stands::Line(set_line(alloc, hdu, word, field)?));
    };
    match said_of(session, hdu, &padded_name(word))? {
        Ok((had, noted)) => Ok(met_if(
            alloc,
            is_same_value(&value, &had) && has_comment(&comment, &noted),
        )),
        Err(Refusal::NoHdu) => Ok(Stands::Line(get_line(alloc, hdu, word)?)),
        Err(_) => Ok(Stands::Unmet(Unmet::Other)),
    }
}

// An empty line where something is so.
fn met_if(alloc: Global, so: bool) -> Stands
    ensures { (line : List ℕ) → stood line result ≡ as_one (met_if so) }
{
    if so {
        Stands::Line(Vec::new(alloc))
    } else {
        Stands::Unmet(Unmet::Other)
    }
}
