//! The lines of the cards that aren't matched.
ghost use Rattle.std.specs.Prelude.{◌≡◌, ◌++◌, ◌+◌, ◌-◌, ◌≤◌, codes, length, IfOk, OnOk};
ghost use Rattle.fits_patch.specs.Patch.{card_lines, deletion, gap_lines, repeated, PatchesCards};

use crate::lines::{push_card_line, push_deletion};
use fits_card::CardList;
use fits_diff::{CardPair, next_pair};
use std::alloc::{AllocError, Global};

/// The lines that are to make the cards of an HDU others.
pub(crate) fn header_patch(
    alloc: Global,
    h: usize,
    cards: &mut CardList,
    others: &mut CardList,
) -> Result<Vec<u8>, AllocError>
    ensures drawn { IfOk result (λ text. PatchesCards h
        cards.old.header.cards others.old.header.cards text.items) }
    ensures same { cards.new.header ≡ cards.old.header }
    ensures same_others { others.new.header ≡ others.old.header }
{
    let _few = cards.len();
    let _few = others.len();
    let mut text = Vec::new(alloc);
    let mut at = CardPair {
        first: 0,
        second: 0,
    };
    'pair: loop {
        let Some(next) = next_pair(cards, at.first, others, at.second) else {
            let gone = cards.len() - at.first;
            let end = others.len();
            push_gap(&mut text, h, others, gone, at.second, end)?;
            return Ok(text);
        };
        push_gap(
            &mut text,
            h,
            others,
            next.first - at.first,
            at.second,
            next.second,
        )?;
        at = CardPair {
            first: next.first + 1,
            second: next.second + 1,
        };
    }
}

// Adds the lines by which cards come where so many others go.
fn push_gap(
    text: &mut Vec<u8>,
    h: usize,
    cards: &mut CardList,
    gone: usize,
    from: usize,
    to: usize,
) -> Result<(), AllocError>
    requires ordered { from ≤ to }
    requires within { to ≤ length cards.old.header.cards }
    ensures drawn { OnOk result (text.new.items
        ≡ text.old.items ++ gap_lines h cards.old.header.cards gone from to) }
    ensures same { cards.new.header ≡ cards.old.header }
{
    let _few = cards.len();
    let both = gone.min(to - from);
    push_cards(text, b"put", h, cards, from, from + both)?;
    push_cards(text, b"ins", h, cards, from + both, to)?;
    push_deletions(text, h, to + 1, gone - both)
}

// Adds the lines of cards from one index up to another.
#[tactic(auto, using(fits_diff::proofs::LineLemmas::between_steps))]
fn push_cards(
    text: &mut Vec<u8>,
    verb: &[u8],
    h: usize,
    cards: &mut CardList,
    from: usize,
    to: usize,
) -> Result<(), AllocError>
    requires ordered { from ≤ to }
    requires within { to ≤ length cards.old.header.cards }
    ensures drawn { OnOk result (text.new.items ≡ text.old.items
        ++ card_lines verb.now h cards.old.header.cards from to) }
    ensures same { cards.new.header ≡ cards.old.header }
{
    for index in from..to {
        let card = cards.card(index + 1);
        push_card_line(text, verb, h, index + 1, &card)?;
    }
    Ok(())
}

// Adds the line of a deletion so many times.
fn push_deletions(
    text: &mut Vec<u8>,
    h: usize,
    place: usize,
    count: usize,
) -> Result<(), AllocError>
    ensures { OnOk result (text.new.items
        ≡ text.old.items ++ repeated count (deletion h place)) }
{
    let mut left = count;
    'deletion: while left > 0 {
        push_deletion(text, h, place)?;
        left -= 1;
    }
    Ok(())
}
