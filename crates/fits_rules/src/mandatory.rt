//! The shape that a header's mandatory keywords describe (FITS Standard 4.0, sections 4.4.1.1,
//! 4.4.1.2 and 6).
ghost use Rattle.std.specs.Prelude.{◌≡◌, ◌+◌, ◌*◌, ℕ, [], length, IfOk, IfErr, OnOk, IsErrOf, Ok, Err};
ghost use Rattle.fits_card.specs.CardList.{ReadsUpTo};
ghost use Rattle.fits_card.specs.Change.{cards_after, IsInRange};
ghost use Rattle.fits_rules.specs.Class.{is_primary};
ghost use Rattle.fits_rules.specs.Lead.{AreLeads};
ghost use Rattle.fits_rules.specs.SameShape.{same_shape};
ghost use Rattle.fits_rules.specs.Shape.{shape_of};
ghost use Rattle.fits_rules.specs.ShapeSteps.{shape_read};

use crate::array_shape::Shape;
use crate::axes::Axes;
use crate::leads::lead_or_end;
use crate::reading::{read_front, read_shape};
use crate::shape_leads::ShapeLeads;
use crate::shape_reading::{ShapeReading, is_shape};
use fits_card::{CardList, Change, Name};
use std::alloc::{AllocError, Global};
use thiserror::Error;

/// Why a header has no shape.
#[derive(Clone, Copy, PartialEq, Eq, Debug, Error)]
pub enum ShapeFault {
    /// The card at this place, counted from 1, breaks a rule. A missing card's place is one past
    /// the last card's.
    #[error("card {0} breaks a rule of the mandatory keywords, or is missing")]
    Bad(usize),
    /// Memory was refused.
    #[error("out of memory")]
    Memory,
}

impl From<AllocError> for ShapeFault {
    ghost use Rattle.fits_rules.specs.declared.mandatory.ShapeFault.TheVariants.{Memory};
    ghost use Rattle.std.specs.Prelude.{◌≡◌};

    ghost from_gives = { λ _ fault. fault ≡ Memory };

    fn from(_: AllocError) -> ShapeFault {
        ShapeFault::Memory
    }
}

/// The shape that a header describes, of the primary HDU or of an extension.
///
/// The rules are those of the mandatory keywords in their order, then that of PCOUNT, then that of
/// GCOUNT. They are tried before memory is asked for.
pub fn shape(alloc: Global, cards: &mut CardList, primary: bool) -> Result<Shape, ShapeFault>
    ensures ok { IfOk result (λ shape. shape_of primary cards.old.header.cards ≡ Ok shape) }

    // The first broken place, whatever memory there is.
    ensures bad { (place : ℕ) → IsErrOf result (ShapeFault.Bad place)
        → shape_of primary cards.old.header.cards ≡ Err place }
    ensures broken { (place : ℕ) → shape_of primary cards.old.header.cards ≡ Err place
        → IsErrOf result (ShapeFault.Bad place) }

    ensures work { ReadsUpTo cards.old cards.new (3 * length cards.old.header.cards + 4) }
{
    // It has room for many axes: it is made once, and filled where it stands.
    let mut reading = ShapeReading::new();
    match read_mandatory(cards, primary, &mut reading) {
        Ok(()) => to_shape(alloc, cards, &reading),
        Err(place) => Err(ShapeFault::Bad(place)),
    }
}

// The shape of a header as it is, or the first broken place before its counts.
fn read_mandatory(
    cards: &mut CardList,
    primary: bool,
    reading: &mut ShapeReading,
) -> Result<(), usize>
    requires empty { reading.old.axes ≡ [] }
    ensures ok { OnOk result (shape_of primary cards.old.header.cards
        ≡ shape_read cards.old.header.cards reading.new) }
    ensures err { IfErr result (λ place. shape_of primary cards.old.header.cards ≡ Err place) }
    ensures work { ReadsUpTo cards.old cards.new (2 * length cards.old.header.cards + 4) }
{
    let leads = ShapeLeads::find(cards);
    let front = read_front(cards, None, primary)?;
    read_shape(cards, None, primary, &front, &leads, reading)
}

// The shape that was read, where the leads say its counts.
#[tactic(auto, using(crate::proofs::PartLemmas::count_steps))]
fn to_shape(
    alloc: Global,
    cards: &mut CardList,
    reading: &ShapeReading,
) -> Result<Shape, ShapeFault>
    ensures ok { IfOk result (λ shape. shape_read cards.old.header.cards reading.now ≡ Ok shape) }
    ensures bad { (place : ℕ) → IsErrOf result (ShapeFault.Bad place)
        → shape_read cards.old.header.cards reading.now ≡ Err place }
    ensures broken { (place : ℕ) → shape_read cards.old.header.cards reading.now ≡ Err place
        → IsErrOf result (ShapeFault.Bad place) }
    ensures work { ReadsUpTo cards.old cards.new (length cards.old.header.cards) }
{
    match (reading.pcount, reading.gcount) {
        (Some(pcount), Some(gcount)) => Ok(Shape {
            class: reading.class,
            bitpix: reading.bitpix,
            axes: Axes::new(reading.axes.as_slice().to_vec(alloc)?),
            pcount,
            gcount,
        }),
        (None, _) => Err(ShapeFault::Bad(lead_or_end(cards, &Name(*b"PCOUNT  ")))),
        (_, None) => Err(ShapeFault::Bad(lead_or_end(cards, &Name(*b"GCOUNT  ")))),
    }
}

/// Whether the cards after a change would describe this shape, in an HDU of its class. Their leads
/// are found by the caller.
///
/// It takes no memory.
pub fn keeps_shape(cards: &mut CardList, shape: &Shape, change: &Change, leads: &ShapeLeads) -> bool
    requires in_range { IsInRange cards.old.header.cards change.now }
    requires leads { AreLeads (cards_after cards.old.header.cards change.now) leads.now }
    ensures value { result ≡
        same_shape (Ok shape.now)
        (shape_of (is_primary shape.now.class) (cards_after cards.old.header.cards change.now)) }
    ensures work { ReadsUpTo cards.old cards.new (3 + length shape.now.axes) }
{
    let primary = shape.class.is_primary();
    let Ok(front) = read_front(cards, Some(change), primary) else {
        return false;
    };
    // Another number of axes would be read in vain.
    if front.naxis != shape.axes.as_slice().len() as u64 {
        return false;
    }
    let mut reading = ShapeReading::new();
    match read_shape(cards, Some(change), primary, &front, leads, &mut reading) {
        Ok(()) => is_shape(&reading, shape),
        Err(_) => false,
    }
}
