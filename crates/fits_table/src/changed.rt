//! The cards of a header after a change that isn't made.
ghost use Rattle.std.specs.Prelude.{◌≡◌, ◌≤◌, ◌+◌, ◌-◌, Some, length, slice_get};
ghost use Rattle.fits_card.specs.Change.{cards_after, moved, spliced, IsInRange};
ghost use Rattle.fits_card.specs.Header.{card_at};
ghost use Rattle.fits_header.specs.State.{ReadsUpTo};

use fits_card::{Card, Change};
use fits_header::Header;

/// The card at a place.
#[tactic(auto, using(crate::proofs::ChangedLemmas::place_steps), unfolding(fits_card::specs::Change::cards_after, fits_card::specs::Change::IsInRange))]
pub(crate) fn card_after(header: &mut Header, change: &Change, place: usize) -> Option<Card>
    requires in_range { IsInRange header.old.header.cards change.now }
    requires from { 1 ≤ place }
    ensures value { result ≡ card_at (cards_after header.old.header.cards change.now) place }
    ensures work { ReadsUpTo header.old header.new 1 }
{
    if header.count_after(change) < place {
        return None;
    }
    match change {
        Change::Splice {
            place: first,
            removed,
            cards,
        } => Some(spliced_card(header, *first, *removed, cards.as_slice(), place)),
        Change::Move { from, to } => Some(moved_card(header, *from, *to, place)),
    }
}

// The card at a place after a splice.
#[tactic(auto, using(fits_card::proofs::ChangeLemmas::change_steps))]
fn spliced_card(
    header: &mut Header,
    first: usize,
    removed: usize,
    new: &[Card],
    place: usize,
) -> Card
    requires first { 1 ≤ first }
    requires removed { first + removed ≤ length header.old.header.cards + 1 }
    requires from { 1 ≤ place }
    requires to { place ≤ length (spliced header.old.header.cards first removed new.now) }
    ensures value { slice_get (spliced header.old.header.cards first removed new.now) (place - 1)
        ≡ Some result }
    ensures work { ReadsUpTo header.old header.new 1 }
{
    if place < first {
        return header.card(place);
    }
    let index = place - first;
    if index < new.len() {
        return new[index];
    }
    // A card after the new ones stands as far from the end as before.
    let kept = header.len() - removed;
    let to_end = kept - (place - new.len());
    header.card(header.len() - to_end)
}

// The card at a place after a move.
#[tactic(auto, using(fits_card::proofs::ChangeLemmas::change_steps))]
fn moved_card(header: &mut Header, from: usize, to: usize, place: usize) -> Card
    requires from_first { 1 ≤ from }
    requires from_last { from ≤ length header.old.header.cards }
    requires to_first { 1 ≤ to }
    requires to_last { to ≤ length header.old.header.cards }
    requires first { 1 ≤ place }
    requires last { place ≤ length header.old.header.cards }
    ensures value { slice_get (moved header.old.header.cards from to) (place - 1) ≡ Some result }
    ensures work { ReadsUpTo header.old header.new 1 }
{
    if place == to {
        return header.card(from);
    }
    let among_others = if place < to { place } else { place - 1 };
    if among_others < from {
        header.card(among_others)
    } else {
        header.card(among_others + 1)
    }
}
