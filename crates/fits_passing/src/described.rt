//! The header of the HDU that comes next in a source, and what it says of its data unit.
ghost use Rattle.std.specs.Prelude.{◌≡◌, ◌+◌, ◌*◌, ◌^◌, ◌<◌, ◌≤◌, length, Ok, IfOk, IfErr, OnOk};
ghost use Rattle.fits_card.specs.Header.{header_bytes, IsHeader};
ghost use Rattle.fits_stream.specs.Intake.{supply, Takes};
ghost use Rattle.fits_rules.specs.Shape.{shape_of};
ghost use Rattle.fits_rules.specs.Size.{data_length};
ghost use Rattle.fits_rules.specs.Class.{is_primary};
ghost use Rattle.fits_passing.specs.HduReading.{HduStops, IsPassed, TakesHdu};

use crate::data_unit::unit_len;
use crate::passing::skip_unit;
use crate::read_hdu_fault::ReadHduFault;
use fits_card::{CardList, read_header};
use fits_rules::{Shape, shape};
use fits_stream::{Intake, Source};
use std::alloc::Global;

/// A header, the shape that its cards describe, and how long its data unit is with the fill.
#[derive(Drop)]
pub struct Described {
    pub cards: CardList,
    pub shape: Shape,
    pub unit_len: usize,
}

/// The header that comes next, where its data unit may be
/// taken after it.
#[tactic(auto, using(crate::proofs::ReadingLemmas::described_steps))]
pub fn read_described<R: Source>(
    alloc: Global,
    intake: &mut Intake,
    source: &mut R,
    primary: bool,
) -> Result<Described, ReadHduFault>
    ensures taken { IfOk result (λ head. Takes
        (supply (R.state source.old) intake.old) (supply (R.state source.new) intake.new)
        (header_bytes head.cards.header)) }
    ensures whole { IfOk result (λ head. IsHeader head.cards.header) }
    ensures described { IfOk result (λ head. shape_of primary head.cards.header.cards
        ≡ Ok head.shape) }
    ensures len { IfOk result (λ head. head.unit_len ≡ data_length head.shape) }
    ensures room { IfOk result (λ head. head.unit_len
        ≤ length intake.new.ahead + intake.new.left) }
    ensures work { IfOk result (λ head. head.cards.reads
        ≤ 3 * length head.cards.header.cards + 4) }
    ensures err { IfErr result (HduStops primary
        (supply (R.state source.old) intake.old) (supply (R.state source.new) intake.new)) }
{
    let mut cards = match read_header(alloc, intake, source) {
        Ok(cards) => cards,
        Err(fault) => return Err(ReadHduFault::from(fault)),
    };
    let shape = match shape(alloc, &mut cards, primary) {
        Ok(shape) => shape,
        Err(fault) => return Err(ReadHduFault::from(fault)),
    };
    match unit_len(&shape, intake.left()) {
        Ok(unit_len) => Ok(Described {
            cards,
            shape,
            unit_len,
        }),
        Err(fault) => Err(ReadHduFault::from(fault)),
    }
}

/// The header that comes next, as `read_described`. Its data unit is skipped.
pub(crate) fn read_past<R: Source>(
    alloc: Global,
    intake: &mut Intake,
    source: &mut R,
    primary: bool,
) -> Result<Described, ReadHduFault>
    requires { length intake.old.ahead + intake.old.left ≤ 2 ^ 34 }
    ensures ok { IfOk result (λ head. TakesHdu
        (λ hdu. IsPassed hdu head.cards.header head.shape head.unit_len) primary
        (supply (R.state source.old) intake.old) (supply (R.state source.new) intake.new)) }
    ensures described { IfOk result (λ head. shape_of (is_primary head.shape.class)
        head.cards.header.cards ≡ Ok head.shape) }
    ensures small { IfOk result (λ head. length (header_bytes head.cards.header) ≤ 2 ^ 34) }
    ensures err { IfErr result (HduStops primary
        (supply (R.state source.old) intake.old) (supply (R.state source.new) intake.new)) }
{
    let head = read_described(alloc, intake, source, primary)?;
    match skip_unit(intake, source, head.unit_len) {
        Ok(()) => Ok(head),
        Err(fault) => {
            drop(head);
            Err(fault)
        }
    }
}
