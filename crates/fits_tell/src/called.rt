//! What `list -l` says of what an HDU is called.
ghost use Rattle.std.specs.Prelude.{◌≡◌, ◌++◌, option_and_then, IfOk, OnOk};
ghost use Rattle.fits_rules.specs.Reads.{string_said};
ghost use Rattle.fits_passing.specs.ExtensionName.{names_something};
ghost use Rattle.fits_tell.specs.Called.{called_words, name_words, quoted, type_words, version_words};

use crate::problem_card::card_in;
use crate::pushing::{push_doubled, push_signed};
use fits_card::{Card, CardList, Name};
use fits_rules::{IntegerSaid, integer_said, lead_card};
use fits_value::{CardString, card_string};
use std::alloc::{AllocError, Global};

const EXTNAME: Name = Name(*b"EXTNAME ");

const EXTVER: Name = Name(*b"EXTVER  ");

/// The words of what the HDU of a header is called: of an extension its type, its name and its
/// version, of the primary HDU its name.
#[tactic(auto, unfolding(crate::specs::Called::called_words))]
pub(crate) fn called_words(
    alloc: Global,
    cards: &mut CardList,
    primary: bool,
) -> Result<Vec<u8>, AllocError>
    ensures words { IfOk result (λ words. words.items
        ≡ called_words primary cards.old.header.cards) }
    ensures same { cards.new.header ≡ cards.old.header }
{
    let mut words = Vec::new(alloc);
    let name = lead_card(cards, &EXTNAME);
    if primary {
        push_name(&mut words, string_of(name))?;
        return Ok(words);
    }
    let first = card_in(cards, 1);
    let version = lead_card(cards, &EXTVER);
    push_type(&mut words, string_of(first))?;
    push_name(&mut words, string_of(name))?;
    push_version(&mut words, version)?;
    Ok(words)
}

// ` type 'TYPE'`
fn push_type(words: &mut Vec<u8>, xtension: Option<CardString>) -> Result<(), AllocError>
    ensures { OnOk result (words.new.items ≡ words.old.items ++ type_words xtension) }
{
    let Some(text) = xtension else {
        return Ok(());
    };
    words.extend_from_slice(b" type ")?;
    push_quoted(words, text.as_bytes())
}

// ` name 'NAME'`
fn push_name(words: &mut Vec<u8>, extname: Option<CardString>) -> Result<(), AllocError>
    ensures { OnOk result (words.new.items ≡ words.old.items ++ name_words extname) }
{
    let Some(text) = extname else {
        return Ok(());
    };
    if !names_something(text.as_bytes()) {
        return Ok(());
    }
    words.extend_from_slice(b" name ")?;
    push_quoted(words, text.as_bytes())
}

// ` ver VERSION`
fn push_version(words: &mut Vec<u8>, lead: Option<Card>) -> Result<(), AllocError>
    ensures { OnOk result (words.new.items ≡ words.old.items ++ version_words lead) }
{
    let Some(card) = lead else {
        return Ok(());
    };
    match integer_said(&card) {
        IntegerSaid::Number(number) => push_signed(words, b" ver ", number as i128),
        _ => Ok(()),
    }
}

// A string in quotes.
fn push_quoted(words: &mut Vec<u8>, text: &[u8]) -> Result<(), AllocError>
    ensures { OnOk result (words.new.items ≡ words.old.items ++ quoted text.now) }
{
    words.extend_from_slice(b"'")?;
    push_doubled(words, text)?;
    words.extend_from_slice(b"'")
}

// Whether a text names something.
fn names_something(text: &[u8]) -> bool
    ensures { result ≡ names_something text.now }
{
    text != b"".as_slice() && text != b" ".as_slice()
}

// The string that a card says, if there is one.
fn string_of(card: Option<Card>) -> Option<CardString>
    ensures { result ≡ option_and_then string_said card }
{
    match card {
        Some(card) => string_said(&card),
        None => None,
    }
}

// The string that a card says alone.
#[tactic(auto, unfolding(fits_rules::specs::Reads::string_said))]
fn string_said(card: &Card) -> Option<CardString>
    ensures { result ≡ string_said card.now }
{
    if card.has_value() {
        card_string(card)
    } else {
        None
    }
}
