//! The lead of a name after a change, found by the index of the cards before it.
ghost use Rattle.std.specs.Prelude.{◌≡◌, ◌≤◌, ◌+◌, ◌<◌, ◌^◌, None, All, length};
ghost use Rattle.fits_card.specs.CardList.{ReadsUpTo};
ghost use Rattle.fits_card.specs.Change.{cards_after, moved, spliced, IsInRange};
ghost use Rattle.fits_rules.specs.Lead.{AreLeads, is_value_of, lead_card};
ghost use Rattle.fits_header.specs.Index.{IsIndexOf};
ghost use Rattle.fits_header.specs.Places.{cards_within};
ghost use Rattle.fits_header.specs.Stretch.{cards_in_turn, stretches_moved};
ghost use Rattle.fits_header.specs.declared.leads.Stretch.{Stretch};

use crate::key_index::KeyIndex;
use fits_card::{Card, CardList, Change, Name};
use fits_rules::ShapeLeads;

// The cards from a place on and before another.
#[derive(Clone, Copy)]
struct Stretch {
    from: usize,
    to: usize,
}

/// The lead of a name after a change. It takes no memory.
#[tactic(auto, using(crate::proofs::TurnLemmas::change_steps))]
pub(crate) fn lead_after(
    cards: &mut CardList,
    index: &KeyIndex,
    change: &Change,
    name: &Name,
) -> Option<Card>
    requires index { IsIndexOf index.now.entries cards.old.header.cards }
    requires in_range { IsInRange cards.old.header.cards change.now }
    ensures value { result
        ≡ lead_card (cards_after cards.old.header.cards change.now) name.now }
    ensures work { ReadsUpTo cards.old cards.new 1 }
{
    match change {
        Change::Splice {
            place,
            removed,
            cards: new,
        } => lead_spliced(cards, index, *place, *removed, new.as_slice(), name),
        Change::Move { from, to } => lead_moved(cards, index, *from, *to, name),
    }
}

/// The leads that count for a shape, after a change. It takes no memory.
pub(crate) fn leads_after(cards: &mut CardList, index: &KeyIndex, change: &Change) -> ShapeLeads
    requires index { IsIndexOf index.now.entries cards.old.header.cards }
    requires in_range { IsInRange cards.old.header.cards change.now }
    ensures value { AreLeads (cards_after cards.old.header.cards change.now) result }
    ensures work { ReadsUpTo cards.old cards.new 3 }
{
    let groups = lead_after(cards, index, change, &Name(*b"GROUPS  "));
    let pcount = lead_after(cards, index, change, &Name(*b"PCOUNT  "));
    let gcount = lead_after(cards, index, change, &Name(*b"GCOUNT  "));
    ShapeLeads {
        groups,
        pcount,
        gcount,
    }
}

// The lead after a splice: among the cards before it, then the new ones, then those after it.
#[tactic(auto, using(crate::proofs::TurnLemmas::splice_steps))]
fn lead_spliced(
    cards: &mut CardList,
    index: &KeyIndex,
    place: usize,
    removed: usize,
    new: &[Card],
    name: &Name,
) -> Option<Card>
    requires index { IsIndexOf index.now.entries cards.old.header.cards }
    requires from { 1 ≤ place }
    requires to { place + removed ≤ length cards.old.header.cards + 1 }
    ensures value { result
        ≡ lead_card (spliced cards.old.header.cards place removed new.now) name.now }
    ensures work { ReadsUpTo cards.old cards.new 1 }
{
    let end = cards.len() + 1;
    let before = Stretch { from: 1, to: place };
    let behind = Stretch {
        from: place + removed,
        to: end,
    };
    if let Some(card) = lead_within(cards, index, before, name) {
        return Some(card);
    }
    if let Some(card) = lead_of(new, name) {
        return Some(card);
    }
    lead_within(cards, index, behind, name)
}

// The lead after a move: the cards stand in another order.
#[tactic(auto, using(crate::proofs::TurnLemmas::move_steps))]
fn lead_moved(
    cards: &mut CardList,
    index: &KeyIndex,
    from: usize,
    to: usize,
    name: &Name,
) -> Option<Card>
    requires index { IsIndexOf index.now.entries cards.old.header.cards }
    requires from_first { 1 ≤ from }
    requires from_last { from ≤ length cards.old.header.cards }
    requires to_first { 1 ≤ to }
    requires to_last { to ≤ length cards.old.header.cards }
    ensures value { result ≡ lead_card (moved cards.old.header.cards from to) name.now }
    ensures work { ReadsUpTo cards.old cards.new 1 }
{
    let stretches = stretches_moved(from, to, cards.len() + 1);
    lead_in_turn(cards, index, &stretches, name)
}

// The stretches of the cards before a place, in the order in which a move leaves them.
fn stretches_moved(from: usize, to: usize, end: usize) -> [Stretch; 4]
    requires from_first { 1 ≤ from }
    requires from_last { from < end }
    requires to_first { 1 ≤ to }
    requires to_last { to < end }
    ensures { result ≡ stretches_moved from to end }
{
    let item = Stretch { from, to: from + 1 };
    if to < from {
        [
            Stretch { from: 1, to },
            item,
            Stretch { from: to, to: from },
            Stretch {
                from: from + 1,
                to: end,
            },
        ]
    } else {
        [
            Stretch { from: 1, to: from },
            Stretch {
                from: from + 1,
                to: to + 1,
            },
            item,
            Stretch {
                from: to + 1,
                to: end,
            },
        ]
    }
}

// The lead among the cards of stretches, one after another.
#[tactic(auto, using(crate::proofs::TurnLemmas::turn_steps))]
fn lead_in_turn(
    cards: &mut CardList,
    index: &KeyIndex,
    stretches: &[Stretch],
    name: &Name,
) -> Option<Card>
    requires index { IsIndexOf index.now.entries cards.old.header.cards }
    requires from { All (λ stretch. 1 ≤ stretch.from) stretches.now }
    ensures value { result
        ≡ lead_card (cards_in_turn cards.old.header.cards stretches.now) name.now }
    ensures work { ReadsUpTo cards.old cards.new 1 }
{
    for i in 0..stretches.len() {
        if let Some(card) = lead_within(cards, index, stretches[i], name) {
            return Some(card);
        }
    }
    None
}

// The lead among the cards of a stretch.
#[tactic(auto, using(crate::proofs::TurnLemmas::within_steps))]
fn lead_within(
    cards: &mut CardList,
    index: &KeyIndex,
    stretch: Stretch,
    name: &Name,
) -> Option<Card>
    requires index { IsIndexOf index.now.entries cards.old.header.cards }
    requires from { 1 ≤ stretch.from }
    ensures value { result
        ≡ lead_card (cards_within cards.old.header.cards stretch.from stretch.to) name.now }
    ensures work { ReadsUpTo cards.old cards.new 1 }
    ensures none { result ≡ None → cards.new ≡ cards.old }
{
    match index.lead_within(name, stretch.from, stretch.to) {
        Some(place) => Some(cards.card(place)),
        None => None,
    }
}

// The lead among cards that are at hand.
#[tactic(auto, using(crate::proofs::TurnLemmas::hand_steps))]
fn lead_of(cards: &[Card], name: &Name) -> Option<Card>
    ensures { result ≡ lead_card cards.now name.now }
{
    for i in 0..cards.len() {
        if is_value_of(&cards[i], name) {
            return Some(cards[i]);
        }
    }
    None
}

// Whether a card has this name and a value.
#[tactic(auto, unfolding(fits_rules::specs::Lead::is_value_of))]
fn is_value_of(card: &Card, name: &Name) -> bool
    ensures { result ≡ is_value_of name.now card.now }
{
    card.name() == *name && card.has_value()
}
