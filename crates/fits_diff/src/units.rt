//! The data units of two HDUs, as they pass by.
ghost use Rattle.std.specs.Prelude.{◌≡◌, ◌≤◌, IfErr, OnOk};
ghost use Rattle.fits_stream.specs.Intake.{supply, Passes};
ghost use Rattle.fits_diff.specs.DiffSteps.{TakesUnits, UnitsStop};

use crate::lines::push_data_line;
use crate::pair_fault::PairFault;
use crate::passing::{pass_same, skip_unit};
use fits_stream::{Intake, Source};

/// How many bytes two data units have.
#[derive(Clone, Copy)]
pub(crate) struct UnitLens {
    pub first: usize,
    pub second: usize,
}

/// Takes the data units that come next, which have so many bytes, and adds the line of how they
/// differ, if they do.
pub(crate) fn compare_units<F: Source>(
    text: &mut Vec<u8>,
    number: usize,
    lens: UnitLens,
    first: &mut Intake,
    a: &mut F,
    second: &mut Intake,
    b: &mut F,
) -> Result<(), PairFault>
    ensures ok { OnOk result (TakesUnits number lens.first lens.second
        (supply (F.state a.old) first.old) (supply (F.state a.new) first.new)
        (supply (F.state b.old) second.old) (supply (F.state b.new) second.new)
        text.old.items text.new.items) }
    ensures err { IfErr result (UnitsStop lens.first lens.second
        (supply (F.state a.old) first.old) (supply (F.state a.new) first.new)
        (supply (F.state b.old) second.old) (supply (F.state b.new) second.new)) }
{
    if lens.first != lens.second {
        skip_units(lens, first, a, second, b)?;
        push_data_line(text, number, lens.first, lens.second, 0)?;
        return Ok(());
    }
    let len = lens.first;
    let same = match pass_same(first, a, second, b, len) {
        Ok(same) => same,
        Err(why) => return Err(why),
    };
    let rest = UnitLens {
        first: len - same,
        second: len - same,
    };
    match skip_units(rest, first, a, second, b) {
        Ok(()) => {}
        Err(why) => return Err(why),
    }
    push_data_line(text, number, len, len, same)?;
    Ok(())
}

// Goes past so many bytes of each.
fn skip_units<F: Source>(
    lens: UnitLens,
    first: &mut Intake,
    a: &mut F,
    second: &mut Intake,
    b: &mut F,
) -> Result<(), PairFault>
    ensures ok { OnOk result (Passes
        (supply (F.state a.old) first.old) (supply (F.state a.new) first.new) lens.first) }
    ensures ok_other { OnOk result (Passes
        (supply (F.state b.old) second.old) (supply (F.state b.new) second.new) lens.second) }
    ensures err { IfErr result (UnitsStop lens.first lens.second
        (supply (F.state a.old) first.old) (supply (F.state a.new) first.new)
        (supply (F.state b.old) second.old) (supply (F.state b.new) second.new)) }
{
    match skip_unit(first, a, lens.first) {
        Ok(()) => {}
        Err(why) => return Err(PairFault::First(why)),
    }
    match skip_unit(second, b, lens.second) {
        Ok(()) => Ok(()),
        Err(why) => Err(PairFault::Second(why)),
    }
}
