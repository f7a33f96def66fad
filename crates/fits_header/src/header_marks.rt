//! The mark of a header as a whole, found by its index.
ghost use Rattle.std.specs.Prelude.{◌≡◌, ◌≤◌, ◌+◌, ◌<◌, length, is_some};
ghost use Rattle.fits_card.specs.CardList.{ReadsUpTo};
ghost use Rattle.fits_rules.specs.Shape.{card_named};
ghost use Rattle.fits_codes.specs.HeaderCodes.{has_counts_in_place, other_first_name, begins_false, blank_said, header_mark_of};
ghost use Rattle.fits_header.specs.Index.{IsIndexOf};

use crate::key_index::KeyIndex;
use fits_card::{CardList, Name};
use fits_codes::{HeaderMark, says_false};
use fits_rules::{Class, IntegerSaid, Shape, integer_said};

/// The mark of a header that has this index and this shape. It takes no memory.
#[tactic(auto, unfolding(fits_codes::specs::HeaderCodes::header_mark_of))]
pub(crate) fn header_mark_of(cards: &mut CardList, index: &KeyIndex, shape: &Shape) -> HeaderMark
    requires index { IsIndexOf index.now.entries cards.old.header.cards }
    requires small { length shape.now.axes < 1000 }
    ensures value { result ≡ header_mark_of cards.old.header shape.now }
    ensures work { ReadsUpTo cards.old cards.new 4 }
{
    let end_blank = cards.end_blank();
    let fill_blank = cards.fill_blank();
    let counts_in_place = has_counts_in_place(cards, shape.axes.as_slice().len());
    let has_other_first = index.has(&other_first_name(shape.class));
    let begins_false = begins_false(cards);
    let blank = blank_said(cards, index);
    HeaderMark {
        end_blank,
        fill_blank,
        counts_in_place,
        has_other_first,
        begins_false,
        blank,
    }
}

// Whether the card at a place is there and has this name.
fn is_named(cards: &mut CardList, place: usize, name: &Name) -> bool
    requires { 1 ≤ place }
    ensures value { result ≡ is_some (card_named cards.old.header.cards place name.now) }
    ensures work { ReadsUpTo cards.old cards.new 1 }
{
    if place > cards.len() {
        return false;
    }
    cards.card(place).name() == *name
}

// Whether PCOUNT and GCOUNT follow so many axes.
fn has_counts_in_place(cards: &mut CardList, axes: usize) -> bool
    requires { axes < 1000 }
    ensures value { result ≡ has_counts_in_place cards.old.header.cards axes }
    ensures work { ReadsUpTo cards.old cards.new 2 }
{
    is_named(cards, 4 + axes, &Name(*b"PCOUNT  ")) && is_named(cards, 5 + axes, &Name(*b"GCOUNT  "))
}

// The name that begins the other kind of HDU.
fn other_first_name(class: Class) -> Name
    ensures { result ≡ other_first_name class }
{
    if class.is_primary() {
        Name(*b"XTENSION")
    } else {
        Name(*b"SIMPLE  ")
    }
}

// Whether the first card says F.
fn begins_false(cards: &mut CardList) -> bool
    ensures value { result ≡ begins_false cards.old.header.cards }
    ensures work { ReadsUpTo cards.old cards.new 1 }
{
    cards.len() > 0 && says_false(&cards.card(1))
}

// What the first BLANK with a value says.
#[tactic(auto, using(fits_rules::proofs::LeadCardLemmas::lead_card_steps))]
fn blank_said(cards: &mut CardList, index: &KeyIndex) -> Option<IntegerSaid>
    requires index { IsIndexOf index.now.entries cards.old.header.cards }
    ensures value { result ≡ blank_said cards.old.header.cards }
    ensures work { ReadsUpTo cards.old cards.new 1 }
{
    match index.lead(&Name(*b"BLANK   ")) {
        Some(place) => Some(integer_said(&cards.card(place))),
        None => None,
    }
}
