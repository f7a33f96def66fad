//! A comment that has no room after a string, on a card of its own that ends the string.
ghost use Rattle.std.specs.Prelude.{◌≡◌, ◌≤◌, ◌+◌, ◌-◌, ◌<◌, ◌^◌, ◌++◌, ◌∷◌, [], IfOk, IfSome, OnOk, List, None, codes, length, take, true, unwrap_or, ℕ, Ok};
ghost use Rattle.fits_card.specs.Name.{is_settable};
ghost use Rattle.fits_session.specs.Away.{LieStill};
ghost use Rattle.fits_session.specs.Session.{absences_of, file_of, marked_of};
ghost use Rattle.fits_value.specs.Says.{field_says};
ghost use Rattle.fits_value.specs.Spelling.{doubled};
ghost use Rattle.fits_value.specs.Unwritable.{writable};
ghost use Rattle.fits_value.specs.Written.{characters_of, quoted, write_says};
ghost use Rattle.fits_extended.specs.OwnCard.{comment_card, string_ending, is_string, is_sum_name, lacks_room, longer_field, open_card, open_len, own_ending, wants_own_card, with_room};
ghost use Rattle.fits_extended.specs.Stands.{place_of_lead, lines_in, own_card_lines, set_lines, stood};

use crate::ending::Ending;
use crate::plain_text::{card_line, set_line};
use crate::renaming::lead_of;
use crate::stands::Stands;
use fits_card::{CARD_LEN, Card, Cards, Name};
use fits_script::padded_name;
use fits_session::{Holder, Session};
use fits_tell::{push_both, push_doubled};
use fits_value::{
    Text, Unwritable, Value, WriteFault, card_string, read_field, writable, write_value,
};
use std::alloc::{AllocError, Global};

/// The most bytes that a piece has between quotes before an ampersand.
const OPEN_LEN: usize = 67;

/// `set H NAME FIELD`, or the lines that put its comment on a card of its own.
pub(crate) fn set_lines<H: Holder + Drop>(
    alloc: Global,
    session: &mut Session<H>,
    hdu: usize,
    word: &[u8],
    field: &[u8],
) -> Result<Stands, AllocError>
    requires { length word.now ≤ 8 }
    ensures ok { IfOk result (λ it. (line : List ℕ) → stood line it
        ≡ Ok (set_lines (file_of session.old) hdu word.now field.now (field_says field.now))) }
    ensures same { marked_of session.new ≡ marked_of session.old }
    ensures stays { LieStill session.old.hdus session.new.hdus }
    ensures absences { absences_of session.new.hdus ≡ absences_of session.old.hdus }
{
    let line = set_line(alloc, hdu, word, field)?;
    let Some((value, comment)) = read_field(alloc, field)? else {
        return Ok(Stands::Line(line));
    };
    let name = padded_name(word);
    let Some(ending) = own_ending(alloc, &name, &value, &comment)? else {
        return Ok(Stands::Line(line));
    };
    let Some(place) = place_of_lead(alloc, session, hdu, &name)? else {
        return Ok(Stands::Line(line));
    };
    Ok(Stands::Lines(own_card_lines(alloc, hdu, word, &value, &comment, place, &ending)?))
}

// The place of the first card of a name that has a value.
fn place_of_lead<H: Holder + Drop>(
    alloc: Global,
    session: &mut Session<H>,
    hdu: usize,
    name: &Name,
) -> Result<Option<usize>, AllocError>
    ensures ok { IfOk result (λ place. place ≡ place_of_lead (file_of session.old) hdu name.now) }
    ensures low { IfOk result (λ place. IfSome place (λ place. place < 2 ^ 63)) }
    ensures same { marked_of session.new ≡ marked_of session.old }
    ensures stays { LieStill session.old.hdus session.new.hdus }
    ensures absences { absences_of session.new.hdus ≡ absences_of session.old.hdus }
{
    let Ok(_count) = session.card_count(hdu) else {
        return Ok(None);
    };
    match lead_of(alloc, session, hdu, name)? {
        Some((place, _)) => Ok(Some(place)),
        None => Ok(None),
    }
}

// Whether a value and a comment can be written, but the comment has no room after the value.
fn lacks_room(value: &Value, comment: &Option<Text>) -> bool
    ensures { result ≡ lacks_room (writable value.now comment.now) }
{
    match writable(value, comment) {
        Err(Unwritable::NoRoom) => true,
        Err(Unwritable::LongComment { .. }) => true,
        _ => false,
    }
}

// Whether a value is a string.
fn is_string(value: &Value) -> bool
    ensures { result ≡ is_string value.now }
{
    match value {
        Value::Str(_) => true,
        _ => false,
    }
}

// Whether a name is that of a sum.
fn is_sum_name(name: &Name) -> bool
    ensures { result ≡ is_sum_name name.now }
{
    name.is(b"DATASUM ") || name.is(b"CHECKSUM")
}

// Whether a keyword of this name may have its comment on a card of its own, and wants it there.
fn wants_own_card(name: &Name, value: &Value, comment: &Option<Text>) -> bool
    ensures { result ≡ wants_own_card name.now value.now comment.now }
{
    name.is_settable() && !is_sum_name(name) && is_string(value) && lacks_room(value, comment)
}

// The cards that a value is written to without a comment.
fn written(alloc: Global, name: &Name, value: &Value) -> Result<Option<Cards>, AllocError>
    requires { is_settable name.now ≡ true }
    ensures { IfOk result (λ cards. write_says name.now value.now None ≡ cards) }
{
    match write_value(alloc, name, value, &None) {
        Ok(cards) => Ok(Some(cards)),
        Err(WriteFault::BadValue) => Ok(None),
        Err(WriteFault::Memory) => Err(AllocError),
    }
}

// The first ten bytes of a card.
fn lead_bytes(card: &Card) -> [u8; 10]
    ensures { result ≡ take 10 card.now }
{
    let [a, b, c, d, e, f, g, h, i, j, ..] = card.0;
    [a, b, c, d, e, f, g, h, i, j]
}

// How a string ends that stands on these cards.
#[tactic(auto, unfolding(crate::specs::OwnCard::string_ending))]
fn string_ending(cards: &[Card]) -> Option<Ending>
    ensures value { result ≡ string_ending cards.now }
    ensures few { IfSome result (λ ending. ending.count < 2 ^ 63) }
{
    let card = cards.get(cards.len().saturating_sub(1))?;
    let piece = card_string(card)?;
    Some(Ending {
        count: cards.len(),
        lead: lead_bytes(card),
        piece,
    })
}

// How a keyword's string ends that is to have its comment on a card of its own.
#[tactic(auto, unfolding(crate::specs::OwnCard::own_ending))]
fn own_ending(
    alloc: Global,
    name: &Name,
    value: &Value,
    comment: &Option<Text>,
) -> Result<Option<Ending>, AllocError>
    ensures ok { IfOk result (λ ending. own_ending name.now value.now comment.now ≡ ending) }
    ensures few { IfOk result (λ ending. IfSome ending (λ ending. ending.count < 2 ^ 63)) }
{
    if !wants_own_card(name, value, comment) {
        return Ok(None);
    }
    let Some(cards) = written(alloc, name, value)? else {
        return Ok(None);
    };
    let Some(ending) = string_ending(cards.as_slice()) else {
        return Ok(None);
    };
    with_room(alloc, comment_of(comment), ending)
}

// The bytes of a comment, if there is one.
fn comment_of(comment: &Option<Text>) -> &[u8]
    ensures { result.now ≡ unwrap_or comment.now [] }
{
    match comment {
        Some(text) => text.as_bytes(),
        None => b"",
    }
}

// The characters of a string.
fn characters_of(value: &Value) -> &[u8]
    ensures { result.now ≡ characters_of value.now }
{
    match value {
        Value::Str(text) => text.as_bytes(),
        _ => b"",
    }
}

// The same, where the comment has room there.
fn with_room(alloc: Global, comment: &[u8], ending: Ending) -> Result<Option<Ending>, AllocError>
    requires { ending.count < 2 ^ 63 }
    ensures ok { IfOk result (λ found. with_room comment.now ending ≡ found) }
    ensures few { IfOk result (λ found. IfSome found (λ ending. ending.count < 2 ^ 63)) }
{
    let card = comment_card(alloc, &ending, comment)?;
    Ok(if card.len() <= CARD_LEN {
        Some(ending)
    } else {
        None
    })
}

// How many bytes characters take between quotes.
fn doubled_len(alloc: Global, characters: &[u8]) -> Result<usize, AllocError>
    ensures { IfOk result (λ len. len ≡ length (doubled characters.now)) }
{
    let mut text = Vec::new(alloc);
    push_doubled(&mut text, characters)?;
    Ok(text.len())
}

// How many characters of a piece have room before an ampersand.
fn open_len(alloc: Global, piece: &[u8]) -> Result<usize, AllocError>
    ensures value { IfOk result (λ len. len ≡ open_len piece.now) }
    ensures within { IfOk result (λ len. len ≤ length piece.now) }
{
    let len = doubled_len(alloc, piece)?;
    Ok(if len <= OPEN_LEN {
        piece.len()
    } else {
        piece.len().saturating_sub(1)
    })
}

// Adds characters between quotes.
fn push_quoted(line: &mut Vec<u8>, characters: &[u8]) -> Result<(), AllocError>
    ensures { OnOk result (line.new.items ≡ line.old.items ++ quoted characters.now) }
{
    line.extend_from_slice(b"'")?;
    push_doubled(line, characters)?;
    line.extend_from_slice(b"'")
}

// The last card of a string made one that goes on.
fn open_card(alloc: Global, ending: &Ending) -> Result<Vec<u8>, AllocError>
    ensures { IfOk result (λ card. card.items ≡ open_card ending.now) }
{
    let piece = ending.piece.as_bytes();
    let (open, _) = piece.split_at(open_len(alloc, piece)?);
    let mut text = Vec::new(alloc);
    push_both(&mut text, open, b"&")?;
    let mut card = Vec::new(alloc);
    card.extend_from_slice(&ending.lead)?;
    push_quoted(&mut card, &text)?;
    Ok(card)
}

// The card that ends it then.
fn comment_card(alloc: Global, ending: &Ending, comment: &[u8]) -> Result<Vec<u8>, AllocError>
    ensures { IfOk result (λ card. card.items ≡ comment_card ending.now comment.now) }
{
    let piece = ending.piece.as_bytes();
    let (_, left) = piece.split_at(open_len(alloc, piece)?);
    let mut card = Vec::new(alloc);
    card.extend_from_slice(b"CONTINUE  ")?;
    push_quoted(&mut card, left)?;
    push_both(&mut card, b" /", comment)?;
    Ok(card)
}

// A string as a line spells it, with as many characters more as make one card more of it.
fn longer_field(alloc: Global, text: &[u8], ending: &Ending) -> Result<Vec<u8>, AllocError>
    ensures { IfOk result (λ field. field.items ≡ longer_field text.now ending.now) }
{
    let more = 69usize.saturating_sub(doubled_len(alloc, ending.piece.as_bytes())?);
    let mut field = Vec::new(alloc);
    field.extend_from_slice(b"'")?;
    push_doubled(&mut field, text)?;
    field.resize(field.len() + more, b'x')?;
    field.extend_from_slice(b"'")?;
    Ok(field)
}

// The lines that put a comment on a card of its own, for a keyword whose lead is at a place.
fn own_card_lines(
    alloc: Global,
    hdu: usize,
    word: &[u8],
    value: &Value,
    comment: &Option<Text>,
    place: usize,
    ending: &Ending,
) -> Result<Vec<Vec<u8>>, AllocError>
    requires { place + ending.now.count < 2 ^ 64 }
    ensures { IfOk result (λ lines. lines_in lines.items
        ≡ own_card_lines hdu word.now (value.now, comment.now) place ending.now) }
{
    let field = longer_field(alloc, characters_of(value), ending)?;
    let last = place + ending.count;
    let ends = comment_card(alloc, ending, comment_of(comment))?;
    let goes_on = open_card(alloc, ending)?;
    let long = set_line(alloc, hdu, word, &field)?;
    let ends = card_line(alloc, b"put", hdu, last, &ends)?;
    let goes_on = card_line(alloc, b"put", hdu, last.saturating_sub(1), &goes_on)?;
    three(alloc, long, ends, goes_on)
}

// Three lines.
fn three(
    alloc: Global,
    first: Vec<u8>,
    second: Vec<u8>,
    third: Vec<u8>,
) -> Result<Vec<Vec<u8>>, AllocError>
    ensures { IfOk result (λ lines. lines_in lines.items
        ≡ first.items ∷ second.items ∷ third.items ∷ []) }
{
    let mut lines = Vec::with_capacity(alloc, 3)?;
    lines.push(first)?;
    lines.push(second)?;
    lines.push(third)?;
    Ok(lines)
}
