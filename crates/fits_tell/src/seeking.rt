//! The HDUs that are asked for, among the headers of a file.
ghost use Rattle.std.specs.Prelude.{◌≡◌, IfOk};
ghost use Rattle.fits_passing.specs.Headers.{read_cards};
ghost use Rattle.fits_tell.specs.Asked.{extension_number, is_asked_extension, is_name_said, is_string, is_version, is_version_said, lead_says, number_asked, numbers_asked};

use crate::asked_extension::AskedExtension;
use crate::asked_hdu::AskedHdu;
use fits_card::{CardList, Name};
use fits_rules::lead;
use fits_value::{Text, Value, denotes, long_value};
use std::alloc::{AllocError, Global};

const EXTNAME: Name = Name(*b"EXTNAME ");

const EXTVER: Name = Name(*b"EXTVER  ");

/// What a keyword says: its value and its comment.
type Said = Option<(Value, Option<Text>)>;

/// The numbers of the HDUs that are asked for, in a file of these headers.
pub(crate) fn numbers_asked(
    alloc: Global,
    asked: &[AskedHdu],
    headers: &mut Vec<CardList>,
) -> Result<Vec<u64>, AllocError>
    ensures value { IfOk result (λ numbers. numbers.items
        ≡ numbers_asked (read_cards headers.old.items) asked.now) }
    ensures same { read_cards headers.new.items ≡ read_cards headers.old.items }
{
    let mut numbers = Vec::new(alloc);
    for it in asked {
        numbers.push(number_asked(alloc, it, headers)?)?;
    }
    Ok(numbers)
}

/// The number of the HDU that is asked for, in a file of these headers: 0 for an extension that isn't
/// there.
pub fn number_asked(
    alloc: Global,
    asked: &AskedHdu,
    headers: &mut Vec<CardList>,
) -> Result<u64, AllocError>
    ensures value { IfOk result (λ number.
        number ≡ number_asked (read_cards headers.old.items) asked.now) }
    ensures same { read_cards headers.new.items ≡ read_cards headers.old.items }
{
    match asked {
        AskedHdu::Number(number) => Ok(*number),
        AskedHdu::Called(asked) => Ok(extension_number(alloc, asked, headers)? as u64),
    }
}

// The number of the first extension that is called so, or 0.
#[tactic(auto, using(crate::proofs::AskedLemmas::seeking_steps))]
fn extension_number(
    alloc: Global,
    asked: &AskedExtension,
    headers: &mut Vec<CardList>,
) -> Result<usize, AllocError>
    ensures value { IfOk result (λ number.
        number ≡ extension_number (read_cards headers.old.items) asked.now) }
    ensures same { read_cards headers.new.items ≡ read_cards headers.old.items }
{
    let count = headers.len().saturating_sub(1);
    for i in 0..count {
        if is_asked_extension(alloc, asked, &mut headers[i + 1])? {
            return Ok(i + 2);
        }
    }
    Ok(0)
}

// Whether an extension with these cards is called so.
#[tactic(auto, unfolding(crate::specs::Asked::is_asked_extension))]
fn is_asked_extension(
    alloc: Global,
    asked: &AskedExtension,
    cards: &mut CardList,
) -> Result<bool, AllocError>
    ensures value { IfOk result (λ is. is ≡ is_asked_extension asked.now cards.old.header.cards) }
    ensures same { cards.new.header ≡ cards.old.header }
{
    let named = lead_says(alloc, cards, &EXTNAME)?;
    if !is_name_said(&asked.name, &named) {
        return Ok(false);
    }
    let Some(version) = asked.version else {
        return Ok(true);
    };
    let numbered = lead_says(alloc, cards, &EXTVER)?;
    Ok(is_version_said(version, &numbered))
}

// What the lead of a name says, with the CONTINUE cards of its string.
#[tactic(auto, using(crate::proofs::AskedLemmas::said_steps))]
fn lead_says(alloc: Global, cards: &mut CardList, name: &Name) -> Result<Said, AllocError>
    ensures value { IfOk result (λ said. said ≡ lead_says cards.old.header.cards name.now) }
    ensures same { cards.new.header ≡ cards.old.header }
{
    match lead(cards, name) {
        Some(place) => long_value(alloc, cards, place),
        None => Ok(None),
    }
}

// Whether the name of an extension is this text.
fn is_name_said(name: &[u8], said: &Said) -> bool
    ensures { result ≡ is_name_said name.now said.now }
{
    match said {
        Some((value, _)) => is_string(name, value),
        None => false,
    }
}

// Whether a value is the string of this text.
fn is_string(text: &[u8], value: &Value) -> bool
    ensures { result ≡ is_string text.now value.now }
{
    match value {
        Value::Str(other) => other.as_bytes() == text,
        _ => false,
    }
}

// Whether the version of an extension is this.
fn is_version_said(version: usize, said: &Said) -> bool
    ensures { result ≡ is_version_said version said.now }
{
    match said {
        Some((value, _)) => is_version(version, value),
        None => version == 1,
    }
}

/// Whether a value that is the version of an extension is this.
pub fn is_version(version: usize, value: &Value) -> bool
    ensures { result ≡ is_version version value.now }
{
    match value {
        Value::Integer(text) => denotes(text.as_bytes(), version as i128),
        Value::Real(text) => denotes(text.as_bytes(), version as i128),
        _ => version == 1,
    }
}
