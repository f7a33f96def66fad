//! Which cards of two headers are matched.
ghost use Rattle.std.specs.Prelude.{◌≡◌, ◌↔◌, ℕ, ◌+◌, ◌-◌, ◌^◌, ◌<◌, ◌≤◌, length, IsTrue, IfSome, IfNone};
ghost use Rattle.std.specs.Str.{bytes_eq};
ghost use Rattle.fits_diff.specs.Matching.{AreAlike, IsNext, NoneNearer};

use fits_card::{Card, CardList};

/// Two cards, by their indices.
#[derive(Clone, Copy)]
pub struct CardPair {
    pub first: usize,
    pub second: usize,
}

/// The next two cards that are alike, from these indices on: those with the fewest cards before them.
/// A pair is looked at once at most.
#[tactic(auto, using(crate::proofs::MatchLemmas::match_steps))]
pub fn next_pair(
    cards: &mut CardList,
    from: usize,
    others: &mut CardList,
    other_from: usize,
) -> Option<CardPair>
    requires from { from ≤ length cards.old.header.cards }
    requires other_from { other_from ≤ length others.old.header.cards }
    ensures found { IfSome result (λ pair. IsNext cards.old.header.cards others.old.header.cards
        from other_from pair.first pair.second) }
    ensures none { IfNone result (NoneNearer cards.old.header.cards others.old.header.cards
        from other_from (length cards.old.header.cards + length others.old.header.cards)) }
    ensures same { cards.new.header ≡ cards.old.header }
    ensures same_others { others.new.header ≡ others.old.header }
{
    let most = cards.len() + others.len();
    for far in from + other_from..most {
        if let Some(first) = pair_at(cards, from, others, other_from, far) {
            return Some(CardPair {
                first,
                second: far - first,
            });
        }
    }
    None
}

// The first card of two that are alike, where their indices come to so much.
fn pair_at(
    cards: &mut CardList,
    from: usize,
    others: &mut CardList,
    other_from: usize,
    far: usize,
) -> Option<usize>
    requires from { from ≤ length cards.old.header.cards }
    requires other_from { other_from ≤ length others.old.header.cards }
    requires least { from + other_from ≤ far }
    requires most { far < length cards.old.header.cards + length others.old.header.cards }
    ensures from { IfSome result (λ first. from ≤ first) }
    ensures other_from { IfSome result (λ first. first + other_from ≤ far) }
    ensures within { IfSome result (λ first. first < length cards.old.header.cards) }
    ensures within_other { IfSome result (λ first. far < first + length others.old.header.cards) }
    ensures alike { IfSome result (λ first. AreAlike
        cards.old.header.cards others.old.header.cards first (far - first)) }
    ensures none { IfNone result ((s : ℕ) → from ≤ s → s + other_from ≤ far
        → s < length cards.old.header.cards → far < s + length others.old.header.cards
        → AreAlike cards.old.header.cards others.old.header.cards s (far - s) → ⊥) }
    ensures same { cards.new.header ≡ cards.old.header }
    ensures same_others { others.new.header ≡ others.old.header }
{
    let len = cards.len();
    let other_len = others.len();
    let least = first_index(from, far, other_len);
    let most = len.min(far - other_from + 1);
    for first in least..most {
        if are_alike(cards, first, others, far - first) {
            return Some(first);
        }
    }
    None
}

// The least index from which on the other one is within so many.
fn first_index(from: usize, far: usize, other_len: usize) -> usize
    requires ordered { from ≤ far }
    requires few { far < 2 ^ 64 - 1 }
    ensures from { from ≤ result }
    ensures within { far < result + other_len }
    ensures least { (s : ℕ) → from ≤ s → far < s + other_len → result ≤ s }
{
    if far - from < other_len {
        from
    } else {
        far - other_len + 1
    }
}

// Whether two cards, at these indices, are one.
fn are_alike(cards: &mut CardList, index: usize, others: &mut CardList, other_index: usize) -> bool
    requires within { index < length cards.old.header.cards }
    requires within_other { other_index < length others.old.header.cards }
    ensures value { IsTrue result
        ↔ AreAlike cards.old.header.cards others.old.header.cards index other_index }
    ensures same { cards.new.header ≡ cards.old.header }
    ensures same_others { others.new.header ≡ others.old.header }
{
    let _few = cards.len();
    let _few = others.len();
    let card = cards.card(index + 1);
    let other = others.card(other_index + 1);
    are_same(&card, &other)
}

// Whether two cards are one, byte for byte.
fn are_same(card: &Card, other: &Card) -> bool
    ensures { result ≡ bytes_eq card.now other.now }
{
    card.bytes() == other.bytes()
}
