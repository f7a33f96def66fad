//! The rules of the mandatory keywords, one by one (FITS Standard 4.0, sections 4.4.1.1, 4.4.1.2
//! and 6).
ghost use Rattle.std.specs.Prelude.{◌≡◌, ◌≤◌, ◌+◌, ◌<◌, [], length, min, IfSome};
ghost use Rattle.fits_card.specs.CardList.{ReadsUpTo};
ghost use Rattle.fits_rules.specs.Shape.{axis_name, card_named, first_card, bitpix_of, naxis_of, axis_of, axes_of, has_group_axes, says_groups, class_of, count_of};
ghost use Rattle.fits_rules.specs.ShapeSteps.{cards_left, written, CanLeave};
ghost use Rattle.fits_rules.specs.declared.rules.TheConstants.{LARGEST};

use crate::axis_buffer::{AxisBuffer, MOST_AXES};
use crate::axis_names::axis_name;
use crate::changed::card_at;
use crate::class::Class;
use crate::reads;
use fits_card::{Card, CardList, Change, Name};

/// The largest axis, PCOUNT and GCOUNT (FITS Standard 4.0, sections 4.4.1.1 and 4.4.1.2).
pub(crate) const LARGEST: u64 = 9223372036854775807;

// The card at a place, where it has this name.
#[tactic(auto, using(crate::proofs::ShapeLemmas::named_steps))]
fn card_named(
    cards: &mut CardList,
    change: Option<&Change>,
    place: usize,
    name: &Name,
) -> Option<Card>
    requires in_range { CanLeave cards.old.header.cards change }
    requires from { 1 ≤ place }
    ensures value { result ≡
        card_named (cards_left cards.old.header.cards change.entry) place name.now }
    ensures work { ReadsUpTo cards.old cards.new 1 }
{
    let Some(card) = card_at(cards, change, place) else {
        return None;
    };
    if card.name() == *name {
        Some(card)
    } else {
        None
    }
}

/// The first card, with its name (4.4.1.1, 4.4.1.2).
pub(crate) fn first_card(
    cards: &mut CardList,
    change: Option<&Change>,
    primary: bool,
) -> Option<Card>
    requires { CanLeave cards.old.header.cards change }
    ensures value { result ≡ first_card primary (cards_left cards.old.header.cards change.entry) }
    ensures work { ReadsUpTo cards.old cards.new 1 }
{
    let name = if primary {
        Name(*b"SIMPLE  ")
    } else {
        Name(*b"XTENSION")
    };
    card_named(cards, change, 1, &name)
}

/// BITPIX (4.4.1.1).
#[tactic(auto, using(crate::proofs::ShapeLemmas::bitpix_steps))]
pub(crate) fn bitpix(cards: &mut CardList, change: Option<&Change>) -> Option<i64>
    requires { CanLeave cards.old.header.cards change }
    ensures value { result ≡ bitpix_of (cards_left cards.old.header.cards change.entry) }
    ensures work { ReadsUpTo cards.old cards.new 1 }
{
    match card_named(cards, change, 2, &Name(*b"BITPIX  ")) {
        Some(card) => reads::bitpix(&card),
        None => None,
    }
}

/// NAXIS (4.4.1.1).
#[tactic(auto, using(crate::proofs::ShapeLemmas::naxis_steps))]
pub(crate) fn naxis(cards: &mut CardList, change: Option<&Change>) -> Option<u64>
    requires { CanLeave cards.old.header.cards change }
    ensures value { result ≡ naxis_of (cards_left cards.old.header.cards change.entry) }
    ensures within { IfSome result (λ naxis. naxis < 1000) }
    ensures work { ReadsUpTo cards.old cards.new 1 }
{
    match card_named(cards, change, 3, &Name(*b"NAXIS   ")) {
        Some(card) => reads::number_up_to(&card, MOST_AXES as u64),
        None => None,
    }
}

/// NAXISn (4.4.1.1).
#[tactic(auto, using(crate::proofs::ShapeLemmas::axis_steps))]
pub(crate) fn axis(cards: &mut CardList, change: Option<&Change>, n: usize) -> Option<u64>
    requires in_range { CanLeave cards.old.header.cards change }
    requires small { n < 1000 }
    ensures value { result ≡ axis_of (cards_left cards.old.header.cards change.entry) n }
    ensures work { ReadsUpTo cards.old cards.new 1 }
{
    match card_named(cards, change, 3 + n, &axis_name(n)) {
        Some(card) => reads::number_up_to(&card, LARGEST),
        None => None,
    }
}

/// NAXIS1 and the further axes into an empty buffer, or the place of the first that breaks its rule
/// (4.4.1.1).
#[tactic(auto, using(crate::proofs::AxesLemmas::axes_steps))]
pub(crate) fn read_axes(
    cards: &mut CardList,
    change: Option<&Change>,
    naxis: usize,
    axes: &mut AxisBuffer,
) -> Result<(), usize>
    requires in_range { CanLeave cards.old.header.cards change }
    requires small { naxis < 1000 }
    requires empty { axes.old ≡ [] }
    ensures value { written result axes.new
        ≡ axes_of (cards_left cards.old.header.cards change.entry) naxis }
    ensures work { ReadsUpTo cards.old cards.new
        (min naxis (length (cards_left cards.old.header.cards change.entry) + 1)) }
{
    for i in 0..naxis {
        let Some(number) = axis(cards, change, i + 1) else {
            return Err(4 + i);
        };
        axes.push(number);
    }
    Ok(())
}

// Whether two axes or more are there, and the first is 0 (6).
fn has_group_axes(axes: &[u64]) -> bool
    ensures { result ≡ has_group_axes axes.now }
{
    matches!(axes, [0, _, ..])
}

// Whether GROUPS is T, by its lead (6).
#[tactic(auto, unfolding(crate::specs::Shape::says_groups))]
fn says_groups(lead: &Option<Card>) -> bool
    ensures { result ≡ says_groups lead.now }
{
    match lead {
        Some(card) => reads::is_true(card),
        None => false,
    }
}

/// The class, by the first card, the axes and the lead of GROUPS (3.3, 3.4, 6).
#[tactic(auto, unfolding(crate::specs::Shape::class_of))]
pub(crate) fn class(primary: bool, first: &Card, axes: &[u64], groups: &Option<Card>) -> Class
    ensures { result ≡ class_of primary first.now axes.now groups.now }
{
    if !primary {
        return reads::extension_class(first);
    }
    if has_group_axes(axes) && says_groups(groups) {
        Class::Groups
    } else {
        Class::Primary
    }
}

/// PCOUNT or GCOUNT, by its lead, where that says a count (4.4.1.2, 6).
#[tactic(auto, unfolding(crate::specs::Shape::count_of))]
pub(crate) fn count(class: Class, lead: &Option<Card>, default: u64) -> Option<u64>
    ensures { result ≡ count_of class lead.now default }
{
    if !class.has_counts() {
        return Some(default);
    }
    match lead {
        Some(card) => reads::number_up_to(card, LARGEST),
        None => Some(default),
    }
}
