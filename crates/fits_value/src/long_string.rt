//! Strings that go on over CONTINUE cards (FITS Standard 4.0, section 4.2.1.2).
ghost use Rattle.std.specs.Prelude.{◌≡◌, ◌≤◌, ◌<◌, ◌+◌, ℕ, List, Option, None, [], ◌∷◌, ◌++◌, length, drop, IfOk, IfSome, Ok, OnOk};
ghost use Rattle.fits_card.specs.CardList.{ReadsUpTo};
ghost use Rattle.fits_value.specs.Text.{normal_form};
ghost use Rattle.fits_value.specs.LongString.{cards_from, without_last};
ghost use Rattle.fits_value.specs.Says.{ends_in_ampersand, link_says, links_of, links_after, whole_string, long_says, chain_length, link_count};
ghost use Rattle.fits_value.specs.Chaining.{next_link, next_string};

use crate::characters::normalize;
use crate::read::read_value;
use crate::strings::{CardString, card_string, link_string};
use crate::text::Text;
use crate::value::Value;
use fits_card::{Card, CardList};
use std::alloc::{AllocError, Global};

// The card at a place, and those after it.
fn card_at(cards: &mut CardList, place: usize) -> Card
    requires from { 1 ≤ place }
    requires to { place ≤ length cards.old.header.cards }
    ensures at { cards_from cards.old.header.cards place
        ≡ result ∷ drop place cards.old.header.cards }
    ensures work { cards.new ≡ record cards.old { reads = cards.old.reads + 1 } }
{
    cards.card(place)
}

/// Whether a text ends in an ampersand.
pub(crate) fn is_open(text: &[u8]) -> bool
    ensures { result ≡ ends_in_ampersand text.now }
{
    matches!(text, [.., b'&'])
}

// The string and the comment of a proper CONTINUE card. Nothing else asks for memory.
fn link_of(alloc: Global, card: &Card) -> Result<Option<(Text, Option<Text>)>, AllocError>
    ensures value { IfOk result (λ link. link ≡ link_says card.now) }
    ensures firm { link_says card.now ≡ None → result ≡ Ok None }
{
    let Some(_) = link_string(card) else {
        return Ok(None);
    };
    let Some((value, comment)) = read_value(alloc, card)? else {
        return Ok(None);
    };
    match value {
        Value::Str(text) => Ok(Some((text, comment))),
        _ => Ok(None),
    }
}

// The string and the comment of the card after a place, where it continues this piece.
fn next_piece(
    alloc: Global,
    cards: &mut CardList,
    place: usize,
    piece: &[u8],
) -> Result<Option<(Text, Option<Text>)>, AllocError>
    requires { place ≤ length cards.old.header.cards }
    ensures value { IfOk result (λ next.
        next ≡ next_link piece.now (drop place cards.old.header.cards)) }
    ensures firm { next_link piece.now (drop place cards.old.header.cards) ≡ None
        → result ≡ Ok None }
    ensures fits { IfOk result (λ next. IfSome next (λ more. place < usize.MAX)) }
    ensures work { ReadsUpTo cards.old cards.new 1 }
{
    if place == cards.len() || !is_open(piece) {
        return Ok(None);
    }
    let card = card_at(cards, place + 1);
    link_of(alloc, &card)
}

// Adds a piece that is continued, without its ampersand.
fn join(joined: &mut Vec<u8>, piece: &[u8]) -> Result<(), AllocError>
    requires { 0 < length piece.now }
    ensures { OnOk result (joined.new.items ≡ joined.old.items ++ without_last piece.now) }
{
    let (kept, _) = piece.split_at(piece.len() - 1);
    joined.extend_from_slice(kept)?;
    Ok(())
}

// The string in normal form that pieces join to, of which the last ends it.
fn ended(mut joined: Vec<u8>, piece: &[u8]) -> Result<Text, AllocError>
    ensures { IfOk result (λ text. text ≡ normal_form (joined.items ++ piece.now)) }
{
    joined.extend_from_slice(piece)?;
    normalize(&mut joined);
    Ok(Text::new(joined))
}

// The string of the chain whose first card stands at a place and says this piece and comment.
fn chain_at(
    alloc: Global,
    cards: &mut CardList,
    first: usize,
    piece: Text,
    comment: Option<Text>,
) -> Result<(Text, Option<Text>), AllocError>
    requires { first ≤ length cards.old.header.cards }
    ensures value { IfOk result (λ said.
        said ≡ whole_string piece comment (drop first cards.old.header.cards)) }
    ensures work { ReadsUpTo cards.old cards.new
        (links_after piece (links_of (drop first cards.old.header.cards)) + 1) }
{
    let mut joined = Vec::new(alloc);
    let mut piece = piece;
    let mut comment = comment;
    let mut place = first;
    'links: loop {
        let Some((more, more_comment)) = next_piece(alloc, cards, place, piece.as_bytes())? else {
            return Ok((ended(joined, piece.as_bytes())?, comment));
        };
        join(&mut joined, piece.as_bytes())?;
        piece = more;
        comment = more_comment;
        place += 1;
    }
}

/// What the card at a place says: where it begins a chain, the chain's string and the comment of
/// its last card.
pub fn long_value(
    alloc: Global,
    cards: &mut CardList,
    place: usize,
) -> Result<Option<(Value, Option<Text>)>, AllocError>
    requires from { 1 ≤ place }
    requires to { place ≤ length cards.old.header.cards }
    ensures value { IfOk result (λ said. said ≡ long_says cards.old.header.cards place) }

    // A place that says nothing is never out of memory.
    ensures firm { long_says cards.old.header.cards place ≡ None → result ≡ Ok None }

    // The cards of the chain are read, and the one after them.
    ensures work { ReadsUpTo cards.old cards.new (chain_length cards.old.header.cards place + 1) }
{
    let card = card_at(cards, place);
    let Some((value, comment)) = read_value(alloc, &card)? else {
        return Ok(None);
    };
    if !card.has_value() {
        return Ok(Some((value, comment)));
    }
    match value {
        Value::Str(piece) => {
            let (text, comment) = chain_at(alloc, cards, place, piece, comment)?;
            Ok(Some((Value::Str(text), comment)))
        }
        other => Ok(Some((other, comment))),
    }
}

// The string of the card after a place, where it continues this text.
fn next_text(cards: &mut CardList, place: usize, text: &CardString) -> Option<CardString>
    requires { place ≤ length cards.old.header.cards }
    ensures value { result ≡ next_string text.now (drop place cards.old.header.cards) }
    ensures fits { IfSome result (λ next. place < usize.MAX) }
    ensures work { ReadsUpTo cards.old cards.new 1 }
{
    if place == cards.len() || !is_open(text.as_bytes()) {
        return None;
    }
    let card = card_at(cards, place + 1);
    link_string(&card)
}

/// How many CONTINUE cards belong to the string that begins at a place, 0 where none begins.
///
/// It takes no memory.
pub fn link_count(cards: &mut CardList, place: usize) -> usize
    requires from { 1 ≤ place }
    requires to { place ≤ length cards.old.header.cards }
    ensures value { result ≡ link_count cards.old.header.cards place }
    ensures within { place + result ≤ length cards.old.header.cards }

    // The cards of the chain are read, and the one after them.
    ensures work { ReadsUpTo cards.old cards.new (chain_length cards.old.header.cards place + 1) }
{
    let card = card_at(cards, place);
    if !card.has_value() {
        return 0;
    }
    let Some(text) = card_string(&card) else {
        return 0;
    };
    links_from(cards, place, text)
}

// How many links a text goes on in that stands on the card at a place.
fn links_from(cards: &mut CardList, first: usize, text: CardString) -> usize
    requires { first ≤ length cards.old.header.cards }
    ensures value { result ≡ links_after text (links_of (drop first cards.old.header.cards)) }
    ensures within { first + result ≤ length cards.old.header.cards }
    ensures work { ReadsUpTo cards.old cards.new (result + 1) }
{
    let mut text = text;
    let mut place = first;
    'links: loop {
        let Some(next) = next_text(cards, place, &text) else {
            return place - first;
        };
        text = next;
        place += 1;
    }
}
