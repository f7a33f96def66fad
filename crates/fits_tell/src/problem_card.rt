//! The card that a problem of a report is at.
ghost use Rattle.std.specs.Prelude.{◌≡◌, ◌++◌, OnOk};
ghost use Rattle.fits_passing.specs.Headers.{read_cards};
ghost use Rattle.fits_tell.specs.Report.{after_colon, card_in, card_of, card_problem_line};

use crate::card_lines::push_shown_text;
use crate::report_lines::push_problem_text;
use fits_card::{Card, CardList};
use fits_passing::Problem;
use std::alloc::AllocError;

/// `CODE HDU PLACE TEXT: CARD`, and without a card `CODE HDU PLACE TEXT`
#[tactic(auto, unfolding(crate::specs::Report::card_problem_line))]
pub(crate) fn push_card_problem(
    line: &mut Vec<u8>,
    it: Problem,
    headers: &mut Vec<CardList>,
) -> Result<(), AllocError>
    ensures line { OnOk result (line.new.items
        ≡ line.old.items ++ card_problem_line (read_cards headers.old.items) it) }
    ensures same { read_cards headers.new.items ≡ read_cards headers.old.items }
{
    let card = card_of(headers, it.hdu, it.place);
    push_problem_text(line, it)?;
    push_card(line, card)?;
    line.extend_from_slice(b"\n")
}

// A colon and a card, where there is one.
fn push_card(line: &mut Vec<u8>, card: Option<Card>) -> Result<(), AllocError>
    ensures { OnOk result (line.new.items ≡ line.old.items ++ after_colon card) }
{
    let Some(card) = card else {
        return Ok(());
    };
    line.extend_from_slice(b": ")?;
    push_shown_text(line, &card)
}

// The card at a place of HDU h, if there is one.
#[tactic(auto, using(crate::proofs::ProblemCardLemmas::header_steps))]
fn card_of(headers: &mut Vec<CardList>, h: usize, place: usize) -> Option<Card>
    ensures value { result ≡ card_of (read_cards headers.old.items) h place }
    ensures same { read_cards headers.new.items ≡ read_cards headers.old.items }
{
    if h == 0 {
        return None;
    }
    if headers.len() < h {
        return None;
    }
    card_in(&mut headers[h - 1], place)
}

/// The card at a place of a header, if there is one.
#[tactic(auto, using(crate::proofs::ProblemCardLemmas::place_steps))]
pub(crate) fn card_in(cards: &mut CardList, place: usize) -> Option<Card>
    ensures value { result ≡ card_in place cards.old.header.cards }
    ensures same { cards.new.header ≡ cards.old.header }
{
    if place == 0 {
        return None;
    }
    if cards.len() < place {
        return None;
    }
    Some(cards.card(place))
}
