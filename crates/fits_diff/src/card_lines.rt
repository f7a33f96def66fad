//! The lines of the cards of two headers that aren't matched.
ghost use Rattle.std.specs.Prelude.{◌≡◌, ◌++◌, ◌≤◌, [], codes, length, IfOk, OnOk};
ghost use Rattle.fits_diff.specs.Matching.{lines_before, lines_between, TellsCards};

use crate::lines::push_signed_line;
use crate::matching::{CardPair, next_pair};
use fits_card::CardList;
use std::alloc::{AllocError, Global};

/// The lines of the cards of an HDU that aren't matched.
pub(crate) fn card_differences(
    alloc: Global,
    number: usize,
    cards: &mut CardList,
    others: &mut CardList,
) -> Result<Vec<u8>, AllocError>
    ensures told { IfOk result (λ text. TellsCards number
        cards.old.header.cards others.old.header.cards text.items) }
    ensures same { cards.new.header ≡ cards.old.header }
    ensures same_others { others.new.header ≡ others.old.header }
{
    let _few = cards.len();
    let _few = others.len();
    let mut text = Vec::new(alloc);
    let mut at = CardPair {
        first: 0,
        second: 0,
    };
    'pair: loop {
        let Some(next) = next_pair(cards, at.first, others, at.second) else {
            let end = CardPair {
                first: cards.len(),
                second: others.len(),
            };
            push_before(&mut text, number, cards, others, at, end)?;
            return Ok(text);
        };
        push_before(&mut text, number, cards, others, at, next)?;
        at = CardPair {
            first: next.first + 1,
            second: next.second + 1,
        };
    }
}

// Adds the lines of the cards between two pairs.
fn push_before(
    text: &mut Vec<u8>,
    number: usize,
    cards: &mut CardList,
    others: &mut CardList,
    from: CardPair,
    to: CardPair,
) -> Result<(), AllocError>
    requires ordered { from.first ≤ to.first }
    requires ordered_other { from.second ≤ to.second }
    requires within { to.first ≤ length cards.old.header.cards }
    requires within_other { to.second ≤ length others.old.header.cards }
    ensures told { OnOk result (text.new.items ≡ text.old.items ++ lines_before number
        cards.old.header.cards others.old.header.cards
        from.first from.second to.first to.second) }
    ensures same { cards.new.header ≡ cards.old.header }
    ensures same_others { others.new.header ≡ others.old.header }
{
    push_between(text, b"- ", number, cards, from.first, to.first)?;
    push_between(text, b"+ ", number, others, from.second, to.second)
}

// Adds the lines of cards from one index up to another.
#[tactic(auto, using(crate::proofs::LineLemmas::between_steps))]
fn push_between(
    text: &mut Vec<u8>,
    sign: &[u8],
    number: usize,
    cards: &mut CardList,
    from: usize,
    to: usize,
) -> Result<(), AllocError>
    requires ordered { from ≤ to }
    requires within { to ≤ length cards.old.header.cards }
    ensures told { OnOk result (text.new.items ≡ text.old.items
        ++ lines_between sign.now number cards.old.header.cards from to) }
    ensures same { cards.new.header ≡ cards.old.header }
{
    for index in from..to {
        let card = cards.card(index + 1);
        push_signed_line(text, sign, number, index + 1, &card)?;
    }
    Ok(())
}
