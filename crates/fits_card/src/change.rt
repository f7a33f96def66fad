ghost use Rattle.std.specs.Prelude.{◌≡◌, ◌≤◌, ◌+◌, ◌-◌, ◌↔◌, IsTrue, Some, length, slice_get};
ghost use Rattle.fits_card.specs.CardList.{ReadsUpTo};
ghost use Rattle.fits_card.specs.Change.{moved, spliced};

use crate::card::Card;
use crate::card_list::CardList;
use crate::cards::Cards;

/// A change of a header's cards. Places count from 1.
#[derive(Drop)]
pub enum Change {
    /// From a place on, so many cards go, and these cards come instead.
    Splice {
        /// From 1 to one past the last card.
        place: usize,
        /// How many go, none that isn't there.
        removed: usize,
        cards: Cards,
    },
    /// The card at a place is taken out, and put where it has this place in the result.
    Move {
        /// The place of a card.
        from: usize,
        /// The place of a card.
        to: usize,
    },
}

/// What the cards would be after a change that isn't made, and the change made.
impl Change {
    ghost use Rattle.std.specs.Prelude.{All};
    ghost use Rattle.fits_card.specs.Card.{IsEnd};
    ghost use Rattle.fits_card.specs.Header.{IsHeader, with_cards};
    ghost use Rattle.fits_card.specs.Change.{cards_after, new_cards, IsInRange};

    /// Makes the change. END stays, and the fill is spaces, also where no card comes or goes.
    ///
    /// It takes no memory: the room is reserved before.
    #[tactic(auto, using(crate::proofs::ChangeLemmas::change_lengths), unfolding(crate::specs::Change::cards_after, crate::specs::Change::new_cards, crate::specs::Change::IsInRange))]
    pub fn apply(&self, list: &mut CardList)
        requires in_range { IsInRange list.old.header.cards self.now }
        requires not_end { All (λ card. IsEnd card → ⊥) (new_cards self.now) }
        requires room { length (cards_after list.old.header.cards self.now)
            ≤ length list.old.header.cards + list.old.room }
        ensures header { list.new.header
            ≡ with_cards list.old.header (cards_after list.old.header.cards self.now) }
        ensures whole { IsHeader list.new.header }
        ensures room { list.new.room + length list.new.header.cards
            ≡ list.old.room + length list.old.header.cards }
        ensures work { list.new.reads ≡ list.old.reads }
    {
        match self {
            Change::Splice {
                place,
                removed,
                cards,
            } => list.splice(*place, *removed, cards.as_slice()),
            Change::Move { from, to } => list.move_card(*from, *to),
        }
    }

    /// The cards that it puts in. A move puts in none.
    #[tactic(auto, unfolding(crate::specs::Change::new_cards))]
    pub fn cards(&self) -> &[Card]
        ensures { result.now ≡ new_cards self.now }
    {
        match self {
            Change::Splice { cards, .. } => cards.as_slice(),
            Change::Move { .. } => &[],
        }
    }

    /// Whether its places are in range.
    #[tactic(auto, unfolding(crate::specs::Change::IsInRange))]
    pub fn is_in_range(&self, cards: &CardList) -> bool
        ensures { IsTrue result ↔ IsInRange cards.now.header.cards self.now }
    {
        let count = cards.len();
        match self {
            Change::Splice { place, removed, .. } => {
                1 <= *place && *place <= count + 1 && *removed <= count + 1 - *place
            }
            Change::Move { from, to } => {
                1 <= *from && *from <= count && 1 <= *to && *to <= count
            }
        }
    }

    /// How many cards there are after it.
    #[tactic(auto, using(crate::proofs::ChangeLemmas::change_lengths), unfolding(crate::specs::Change::cards_after, crate::specs::Change::IsInRange))]
    pub fn len_after(&self, cards: &CardList) -> usize
        requires { IsInRange cards.now.header.cards self.now }
        ensures { result ≡ length (cards_after cards.now.header.cards self.now) }
    {
        match self {
            Change::Splice {
                removed,
                cards: new,
                ..
            } => cards.len() - *removed + new.as_slice().len(),
            Change::Move { .. } => cards.len(),
        }
    }

    /// The card that stands at a place after it. One that the store has is read and counted.
    #[tactic(auto, using(crate::proofs::ChangeLemmas::change_lengths), unfolding(crate::specs::Change::cards_after, crate::specs::Change::IsInRange))]
    pub fn card_after(&self, cards: &mut CardList, place: usize) -> Card
        requires in_range { IsInRange cards.old.header.cards self.now }
        requires from { 1 ≤ place }
        requires to { place ≤ length (cards_after cards.old.header.cards self.now) }
        ensures value { slice_get (cards_after cards.old.header.cards self.now) (place - 1)
            ≡ Some result }
        ensures work { ReadsUpTo cards.old cards.new 1 }
    {
        match self {
            Change::Splice {
                place: first,
                removed,
                cards: new,
            } => spliced_card(cards, *first, *removed, new.as_slice(), place),
            Change::Move { from, to } => moved_card(cards, *from, *to, place),
        }
    }
}

// The card at a place after a splice.
#[tactic(auto, using(crate::proofs::ChangeLemmas::change_steps))]
fn spliced_card(
    cards: &mut CardList,
    first: usize,
    removed: usize,
    new: &[Card],
    place: usize,
) -> Card
    requires first { 1 ≤ first }
    requires removed { first + removed ≤ length cards.old.header.cards + 1 }
    requires from { 1 ≤ place }
    requires to { place ≤ length (spliced cards.old.header.cards first removed new.now) }
    ensures value { slice_get (spliced cards.old.header.cards first removed new.now) (place - 1)
        ≡ Some result }
    ensures work { ReadsUpTo cards.old cards.new 1 }
{
    if place < first {
        return cards.card(place);
    }
    let index = place - first;
    if index < new.len() {
        return new[index];
    }
    // A card after the new ones stands as far from the end as before.
    let kept = cards.len() - removed;
    let to_end = kept - (place - new.len());
    cards.card(cards.len() - to_end)
}

// The card at a place after a move.
#[tactic(auto, using(crate::proofs::ChangeLemmas::change_steps))]
fn moved_card(cards: &mut CardList, from: usize, to: usize, place: usize) -> Card
    requires from_first { 1 ≤ from }
    requires from_last { from ≤ length cards.old.header.cards }
    requires to_first { 1 ≤ to }
    requires to_last { to ≤ length cards.old.header.cards }
    requires first { 1 ≤ place }
    requires last { place ≤ length cards.old.header.cards }
    ensures value { slice_get (moved cards.old.header.cards from to) (place - 1) ≡ Some result }
    ensures work { ReadsUpTo cards.old cards.new 1 }
{
    if place == to {
        return cards.card(from);
    }
    let among_others = if place < to { place } else { place - 1 };
    if among_others < from {
        cards.card(among_others)
    } else {
        cards.card(among_others + 1)
    }
}
