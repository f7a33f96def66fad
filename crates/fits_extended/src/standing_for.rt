//! Which plain lines an extended line stands for.
ghost use Rattle.std.specs.Prelude.{◌≡◌, ◌≤◌, ◌++◌, IfOk, List, Ok, OnErr, OnOk, length, true, unwrap_or, ℕ};
ghost use Rattle.std.specs.Option.{option_copied};
ghost use Rattle.fits_session.specs.Away.{LieStill};
ghost use Rattle.fits_session.specs.Query.{value_in};
ghost use Rattle.fits_session.specs.Session.{absences_of, file_of, marked_of};
ghost use Rattle.fits_script.specs.Words.{name_of_text};
ghost use Rattle.fits_value.specs.Says.{field_says};
ghost use Rattle.fits_extended.specs.Stands.{comment_text, commented, field_text, noted, said_for, said_in, said_next, stands_for, staying, stood, value_lines};
ghost use Rattle.fits_extended.specs.Words.{keyword_of, may_stand};

use crate::adding::add_line;
use crate::each::for_each;
use crate::extended_verb::{ExtendedVerb, extended_verb_of};
use crate::guarding::{lacking, wanted};
use crate::history::history_lines;
use crate::keyword_verb::KeywordVerb;
use crate::naming::numbered;
use crate::own_card::set_lines;
use crate::plain_text::{get_line, push_field, push_note, set_line, with_verb};
use crate::renaming::renaming;
use crate::saying::said_of;
use crate::stands::Stands;
use crate::words::{is_for_each, keyword_of, may_stand, text_of};
use fits_script::{cut_word, padded_name};
use fits_session::{Holder, Session};
use fits_tell::push_both;
use fits_value::{Text, Value, read_field};
use std::alloc::{AllocError, Global};

/// What a line stands for in a file as it is; one for each HDU is taken where every line is to be
/// done alone. The file stays, and its cards alone are read.
#[tactic(auto, unfolding(crate::specs::Stands::stands_for))]
pub fn plain_line<H: Holder + Drop>(
    alloc: Global,
    session: &mut Session<H>,
    whole: bool,
    line: &[u8],
) -> Result<Stands, AllocError>
    ensures ok { IfOk result (λ it. stood line.now it
        ≡ stands_for whole (file_of session.old) line.now) }
    ensures err { OnErr result (may_stand line.now ≡ true) }
    ensures same { marked_of session.new ≡ marked_of session.old }
    ensures stays { LieStill session.old.hdus session.new.hdus }
    ensures absences { absences_of session.new.hdus ≡ absences_of session.old.hdus }
{
    if !may_stand(line) {
        return Ok(Stands::Itself);
    }
    if whole && is_for_each(line) {
        return for_each(alloc, session, line);
    }
    let Some(text) = numbered(alloc, session, line)? else {
        return said_in(alloc, session, line);
    };
    match said_in(alloc, session, &text)? {
        Stands::Itself => Ok(Stands::Line(text)),
        stands => Ok(stands),
    }
}

/// What a line says whose HDU has a number.
#[tactic(auto, unfolding(crate::specs::Stands::said_in))]
pub(crate) fn said_in<H: Holder + Drop>(
    alloc: Global,
    session: &mut Session<H>,
    line: &[u8],
) -> Result<Stands, AllocError>
    ensures ok { IfOk result (λ it. stood line.now it ≡ said_in (file_of session.old) line.now) }
    ensures same { marked_of session.new ≡ marked_of session.old }
    ensures stays { LieStill session.old.hdus session.new.hdus }
    ensures absences { absences_of session.new.hdus ≡ absences_of session.old.hdus }
{
    let (word, rest) = cut_word(line);
    let Some(verb) = extended_verb_of(word) else {
        return Ok(Stands::Itself);
    };
    match verb {
        ExtendedVerb::Keyword(verb) => said_next(alloc, session, verb, rest),
        ExtendedVerb::Add => Ok(Stands::Line(add_line(alloc, session, rest)?)),
        ExtendedVerb::History => Ok(Stands::Lines(history_lines(alloc, session, rest)?)),
    }
}

// What is said of the keyword that comes next.
fn said_next<H: Holder + Drop>(
    alloc: Global,
    session: &mut Session<H>,
    verb: KeywordVerb,
    rest: Option<&[u8]>,
) -> Result<Stands, AllocError>
    ensures ok { IfOk result (λ it. (line : List ℕ) → stood line it
        ≡ said_next (file_of session.old) verb (option_copied rest.entry) (keyword_of (option_copied rest.entry))) }
    ensures same { marked_of session.new ≡ marked_of session.old }
    ensures stays { LieStill session.old.hdus session.new.hdus }
    ensures absences { absences_of session.new.hdus ≡ absences_of session.old.hdus }
{
    match keyword_of(rest) {
        Some((hdu, word, rest)) => said_for(alloc, session, verb, hdu, word, rest),
        None => Ok(Stands::Line(with_verb(alloc, b"get", rest)?)),
    }
}

// What is said of a keyword, by what follows it.
#[tactic(auto, unfolding(crate::specs::Stands::said_for))]
fn said_for<H: Holder + Drop>(
    alloc: Global,
    session: &mut Session<H>,
    verb: KeywordVerb,
    hdu: usize,
    word: &[u8],
    rest: Option<&[u8]>,
) -> Result<Stands, AllocError>
    requires { length word.now ≤ 8 }
    ensures ok { IfOk result (λ it. (line : List ℕ) → stood line it
        ≡ said_for (file_of session.old) verb hdu word.now (option_copied rest.entry)) }
    ensures same { marked_of session.new ≡ marked_of session.old }
    ensures stays { LieStill session.old.hdus session.new.hdus }
    ensures absences { absences_of session.new.hdus ≡ absences_of session.old.hdus }
{
    match verb {
        KeywordVerb::Value => value_lines(alloc, session, hdu, word, text_of(rest)),
        KeywordVerb::Note => note_lines(alloc, session, hdu, word, text_of(rest)),
        KeywordVerb::Rename => renaming(alloc, session, hdu, word, rest),
        KeywordVerb::Want => wanted(alloc, session, hdu, word, rest),
        KeywordVerb::Lack => lacking(alloc, session, hdu, word, rest),
    }
}

// `val H NAME FIELD`
fn value_lines<H: Holder + Drop>(
    alloc: Global,
    session: &mut Session<H>,
    hdu: usize,
    word: &[u8],
    field: &[u8],
) -> Result<Stands, AllocError>
    requires { length word.now ≤ 8 }
    ensures ok { IfOk result (λ it. (line : List ℕ) → stood line it
        ≡ Ok (value_lines (file_of session.old) hdu word.now field.now (field_says field.now))) }
    ensures same { marked_of session.new ≡ marked_of session.old }
    ensures stays { LieStill session.old.hdus session.new.hdus }
    ensures absences { absences_of session.new.hdus ≡ absences_of session.old.hdus }
{
    let Some((_, comment)) = read_field(alloc, field)? else {
        return Ok(Stands::Line(set_line(alloc, hdu, word, field)?));
    };
    let Ok((_, had)) = said_of(session, hdu, &padded_name(word))? else {
        return Ok(Stands::Line(get_line(alloc, hdu, word)?));
    };
    let whole = staying_field(alloc, field, &comment, &had)?;
    set_lines(alloc, session, hdu, word, &whole)
}

// A field with the comment that stays.
fn staying_field(
    alloc: Global,
    field: &[u8],
    said: &Option<Text>,
    had: &Option<Text>,
) -> Result<Vec<u8>, AllocError>
    ensures { IfOk result (λ whole. whole.items ≡ field.now ++ staying said.now had.now) }
{
    let mut whole = Vec::new(alloc);
    whole.extend_from_slice(field)?;
    push_staying(&mut whole, said, had)?;
    Ok(whole)
}

// Adds the comment that stays, where a line says none.
fn push_staying(
    line: &mut Vec<u8>,
    said: &Option<Text>,
    had: &Option<Text>,
) -> Result<(), AllocError>
    ensures { OnOk result (line.new.items ≡ line.old.items ++ staying said.now had.now) }
{
    match said {
        Some(_) => Ok(()),
        None => push_comment(line, had),
    }
}

// Adds a comment, if there is one.
fn push_comment(line: &mut Vec<u8>, comment: &Option<Text>) -> Result<(), AllocError>
    ensures { OnOk result (line.new.items ≡ line.old.items ++ comment_text comment.now) }
{
    match comment {
        Some(comment) => push_both(line, b" /", comment.as_bytes()),
        None => Ok(()),
    }
}

// `note H NAME COMMENT`
fn note_lines<H: Holder + Drop>(
    alloc: Global,
    session: &mut Session<H>,
    hdu: usize,
    word: &[u8],
    text: &[u8],
) -> Result<Stands, AllocError>
    requires { length word.now ≤ 8 }
    ensures ok { IfOk result (λ it. (line : List ℕ) → stood line it
        ≡ Ok (commented (file_of session.old) hdu word.now text.now (value_in (file_of session.old) hdu (name_of_text word.now)))) }
    ensures same { marked_of session.new ≡ marked_of session.old }
    ensures stays { LieStill session.old.hdus session.new.hdus }
    ensures absences { absences_of session.new.hdus ≡ absences_of session.old.hdus }
{
    let Ok((value, _)) = said_of(session, hdu, &padded_name(word))? else {
        return Ok(Stands::Line(get_line(alloc, hdu, word)?));
    };
    let whole = noted_field(alloc, &value, text)?;
    set_lines(alloc, session, hdu, word, &whole)
}

// A value with a comment.
fn noted_field(alloc: Global, value: &Value, text: &[u8]) -> Result<Vec<u8>, AllocError>
    ensures { IfOk result (λ whole. whole.items ≡ field_text value.now ++ noted text.now) }
{
    let mut whole = Vec::new(alloc);
    push_field(&mut whole, value)?;
    push_note(&mut whole, text)?;
    Ok(whole)
}
