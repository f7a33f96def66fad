//! The headers of a file under edits, beside those of another.
ghost use Rattle.std.specs.Prelude.{◌≡◌, ◌↔◌, ◌++◌, List, ℕ, length, IsTrue, IfOk, OnOk};
ghost use Rattle.std.specs.Str.{bytes_eq};
ghost use Rattle.fits_passing.specs.File.{IsFile};
ghost use Rattle.fits_passing.specs.Headers.{cards_of, read_cards};
ghost use Rattle.fits_session.specs.Session.{file_of, marked_of};
ghost use Rattle.fits_patch.specs.Patch.{cards_at, PatchesCards, PatchesHdus};

use crate::gaps::header_patch;
use fits_card::{Card, CardList};
use fits_session::{Holder, Session};
use std::alloc::{AllocError, Global};

// The cards of HDU h, if it is there.
fn cards_at<H: Holder + Drop>(
    alloc: Global,
    session: &mut Session<H>,
    h: usize,
) -> Result<Vec<Card>, AllocError>
    ensures ok { IfOk result (λ cards. cards.items ≡ cards_at (file_of session.old) h) }
    ensures same { marked_of session.new ≡ marked_of session.old }
{
    let mut cards = Vec::new(alloc);
    'card: while let Ok(card) = session.card(h, cards.len() + 1) {
        cards.push(card)?;
    }
    Ok(cards)
}

/// The lines that are to make the cards of all HDUs others.
pub(crate) fn patch_text<H: Holder + Drop>(
    alloc: Global,
    session: &mut Session<H>,
    headers: &mut Vec<CardList>,
) -> Result<Vec<u8>, AllocError>
    requires whole { IsFile (file_of session.old) }
    requires count { length headers.old.items ≡ length (file_of session.old).hdus }
    ensures drawn { IfOk result (λ text. PatchesHdus 1 (cards_of (file_of session.old).hdus)
        (read_cards headers.old.items) text.items) }
    ensures same { marked_of session.new ≡ marked_of session.old }
    ensures same_headers { read_cards headers.new.items ≡ read_cards headers.old.items }
{
    let mut text = Vec::new(alloc);
    for index in 0..headers.len() {
        let others = &mut headers[index];
        let lines = hdu_patch(alloc, session, index + 1, others)?;
        text.extend_from_slice(&lines)?;
    }
    Ok(text)
}

// The lines that are to make the cards of HDU h others.
fn hdu_patch<H: Holder + Drop>(
    alloc: Global,
    session: &mut Session<H>,
    h: usize,
    others: &mut CardList,
) -> Result<Vec<u8>, AllocError>
    requires whole { IsFile (file_of session.old) }
    ensures drawn { IfOk result (λ text. PatchesCards h
        (cards_at (file_of session.old) h) others.old.header.cards text.items) }
    ensures same { marked_of session.new ≡ marked_of session.old }
    ensures same_others { others.new.header ≡ others.old.header }
{
    let cards = cards_at(alloc, session, h)?;
    let mut cards = CardList::new(alloc, cards)?;
    header_patch(alloc, h, &mut cards, others)
}

/// Whether the cards of all HDUs are these.
pub(crate) fn are_cards<H: Holder + Drop>(
    alloc: Global,
    session: &mut Session<H>,
    headers: &mut Vec<CardList>,
) -> Result<bool, AllocError>
    ensures { IfOk result (λ same. IsTrue same
        ↔ (cards_of (file_of session.old).hdus ≡ read_cards headers.old.items)) }
{
    if session.hdus() != headers.len() {
        return Ok(false);
    }
    for index in 0..headers.len() {
        let cards = cards_at(alloc, session, index + 1)?;
        let others = &mut headers[index];
        if !are_same(&cards, others) {
            return Ok(false);
        }
    }
    Ok(true)
}

// Whether the cards of a header are these.
fn are_same(cards: &[Card], others: &mut CardList) -> bool
    ensures value { IsTrue result ↔ (cards.now ≡ others.old.header.cards) }
    ensures same { others.new.header ≡ others.old.header }
{
    if cards.len() != others.len() {
        return false;
    }
    for index in 0..cards.len() {
        let other = others.card(index + 1);
        if !is_card(&cards[index], &other) {
            return false;
        }
    }
    true
}

// Whether two cards are one, byte for byte.
fn is_card(card: &Card, other: &Card) -> bool
    ensures { result ≡ bytes_eq card.now other.now }
{
    card.bytes() == other.bytes()
}
