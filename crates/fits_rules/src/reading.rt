//! The shape that a header describes, read without memory: of its cards as they are, or as a change
//! would leave them.
ghost use Rattle.std.specs.Prelude.{◌≡◌, ◌+◌, ◌<◌, [], length, min, IfOk};
ghost use Rattle.fits_card.specs.CardList.{ReadsUpTo};
ghost use Rattle.fits_rules.specs.ShapeSteps.{cards_left, front_of, reading_of, written, CanLeave};

use crate::rules::{bitpix, class, count, first_card, naxis, read_axes};
use crate::shape_leads::ShapeLeads;
use crate::shape_reading::ShapeReading;
use fits_card::{Card, CardList, Change};

/// The first card, BITPIX and NAXIS.
#[derive(Drop)]
pub(crate) struct Front {
    pub(crate) first: Card,
    pub(crate) bitpix: i64,
    pub(crate) naxis: u64,
}

/// The first three cards, or the first of them that breaks its rule.
#[tactic(auto, using(crate::proofs::PartLemmas::front_steps))]
pub(crate) fn read_front(
    cards: &mut CardList,
    change: Option<&Change>,
    primary: bool,
) -> Result<Front, usize>
    requires { CanLeave cards.old.header.cards change }
    ensures value { result ≡ front_of primary (cards_left cards.old.header.cards change.entry) }
    ensures within { IfOk result (λ front. front.naxis < 1000) }
    ensures work { ReadsUpTo cards.old cards.new 3 }
{
    let Some(first) = first_card(cards, change, primary) else {
        return Err(1);
    };
    let Some(bitpix) = bitpix(cards, change) else {
        return Err(2);
    };
    let Some(naxis) = naxis(cards, change) else {
        return Err(3);
    };
    Ok(Front {
        first,
        bitpix,
        naxis,
    })
}

/// The shape behind the first three cards, by the leads, or the first axis that breaks its rule.
#[tactic(auto, using(crate::proofs::PartLemmas::reading_steps))]
pub(crate) fn read_shape(
    cards: &mut CardList,
    change: Option<&Change>,
    primary: bool,
    front: &Front,
    leads: &ShapeLeads,
    reading: &mut ShapeReading,
) -> Result<(), usize>
    requires in_range { CanLeave cards.old.header.cards change }
    requires small { front.now.naxis < 1000 }
    requires empty { reading.old.axes ≡ [] }
    ensures value { written result reading.new ≡
        reading_of primary (cards_left cards.old.header.cards change.entry) leads.now front.now }
    ensures work { ReadsUpTo cards.old cards.new
        (min front.now.naxis
        (length (cards_left cards.old.header.cards change.entry) + 1)) }
{
    read_axes(cards, change, front.naxis as usize, &mut reading.axes)?;
    let class = class(
        primary,
        &front.first,
        reading.axes.as_slice(),
        &leads.groups,
    );
    reading.class = class;
    reading.bitpix = front.bitpix;
    reading.pcount = count(class, &leads.pcount, 0);
    reading.gcount = count(class, &leads.gcount, 1);
    Ok(())
}
