//! An HDU that passes by, of whose data unit all is known but its pixels.
ghost use Rattle.std.specs.Prelude.{◌≡◌, ◌+◌, ◌^◌, ◌≤◌, length, IfOk, IfErr};
ghost use Rattle.fits_card.specs.Header.{header_bytes};
ghost use Rattle.fits_stream.specs.Intake.{supply};
ghost use Rattle.fits_passing.specs.Passing.{IsSummed};
ghost use Rattle.fits_passing.specs.HduReading.{HduStops, TakesHdu};

use crate::described::{Described, read_described};
use crate::layout::layout_of_bytes;
use crate::passing::pass_unit;
use crate::read_hdu_fault::ReadHduFault;
use fits_stream::{Intake, Source};
use fits_unit::PassedUnit;
use std::alloc::Global;

/// A header, and what is known of its data unit.
#[derive(Drop)]
pub(crate) struct Summed {
    pub head: Described,
    pub unit: PassedUnit,
}

/// The HDU that comes next, as `read_described`. Its data unit passes by: one piece of it is held
/// at a time.
pub(crate) fn read_summed<R: Source>(
    alloc: Global,
    intake: &mut Intake,
    source: &mut R,
    primary: bool,
) -> Result<Summed, ReadHduFault>
    requires { length intake.old.ahead + intake.old.left ≤ 2 ^ 34 }
    ensures ok { IfOk result (λ it. TakesHdu
        (IsSummed it.head.cards.header it.head.shape it.unit) primary
        (supply (R.state source.old) intake.old) (supply (R.state source.new) intake.new)) }
    ensures small { IfOk result (λ it. length (header_bytes it.head.cards.header) ≤ 2 ^ 34) }
    ensures err { IfErr result (HduStops primary
        (supply (R.state source.old) intake.old) (supply (R.state source.new) intake.new)) }
{
    let head = read_described(alloc, intake, source, primary)?;
    let layout = layout_of_bytes(&head.shape);
    match pass_unit(intake, source, head.unit_len, layout) {
        Ok(unit) => Ok(Summed { head, unit }),
        Err(fault) => {
            drop(head);
            Err(fault)
        }
    }
}
