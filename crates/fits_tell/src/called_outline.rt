ghost use Rattle.std.specs.Prelude.{◌≡◌, ◌+◌, ◌<◌, ◌≤◌, ◌^◌, length, Ok, IfOk, IfErr, OnOk};
ghost use Rattle.fits_card.specs.Header.{header_bytes};
ghost use Rattle.fits_stream.specs.Intake.{supply, Passes};
ghost use Rattle.fits_rules.specs.Class.{is_primary};
ghost use Rattle.fits_rules.specs.Shape.{shape_of};
ghost use Rattle.fits_passing.specs.HduReading.{HduStops, IsPassed, TakesHdu};
ghost use Rattle.fits_passing.specs.Passing.{UnitStops};

use crate::called::called_words;
use fits_passing::{Described, HduFault, Kept, Outline, ReadHduFault, read_described};
use fits_stream::{Intake, Source};
use std::alloc::Global;

/// The outline of an HDU, and what it is called.
#[derive(Drop)]
pub(crate) struct CalledOutline {
    pub outline: Outline,
    /// The words of that.
    pub words: Vec<u8>,
}

impl CalledOutline {
    ghost use Rattle.std.specs.Prelude.{◌≡◌, ◌+◌, ◌<◌, ◌≤◌, ◌^◌, length, IfOk, IfErr, OnOk};
    ghost use Rattle.fits_stream.specs.Intake.{supply};
    ghost use Rattle.fits_passing.specs.HduReading.{HduStops, TakesHdu};
    ghost use Rattle.fits_tell.specs.Called.{IsCalled};

    /// That of the HDU that comes next in a source, as `Kept` says. Its data unit is skipped.
    pub(crate) fn read<R: Source>(
        alloc: Global,
        intake: &mut Intake,
        source: &mut R,
        primary: bool,
    ) -> Result<CalledOutline, ReadHduFault>
        requires { length intake.old.ahead + intake.old.left ≤ 2 ^ 34 }
        ensures ok { IfOk result (λ it. TakesHdu (IsCalled it) primary
            (supply (R.state source.old) intake.old) (supply (R.state source.new) intake.new)) }
        ensures err { IfErr result (HduStops primary
            (supply (R.state source.old) intake.old) (supply (R.state source.new) intake.new)) }
    {
        let Described {
            mut cards,
            shape,
            unit_len,
        } = read_past(alloc, intake, source, primary)?;
        let Ok(words) = called_words(alloc, &mut cards, shape.class.is_primary()) else {
            return Err(ReadHduFault::Hdu(HduFault::Memory));
        };
        let outline = Outline {
            card_count: cards.len(),
            shape,
            header_len: cards.byte_len(),
            data_len: unit_len,
        };
        Ok(CalledOutline { outline, words })
    }
}

impl Kept for CalledOutline {
    ghost use Rattle.fits_tell.specs.Called.{IsCalled};

    ghost keeps = { λ it hdu. IsCalled it hdu };

    fn read_next<R: Source>(
        alloc: Global,
        intake: &mut Intake,
        source: &mut R,
        primary: bool,
    ) -> Result<CalledOutline, ReadHduFault> {
        CalledOutline::read(alloc, intake, source, primary)
    }
}

// The header that comes next, as `read_described`. Its data unit is skipped.
fn read_past<R: Source>(
    alloc: Global,
    intake: &mut Intake,
    source: &mut R,
    primary: bool,
) -> Result<Described, ReadHduFault>
    requires { length intake.old.ahead + intake.old.left ≤ 2 ^ 34 }
    ensures ok { IfOk result (λ head. TakesHdu
        (λ hdu. IsPassed hdu head.cards.header head.shape head.unit_len) primary
        (supply (R.state source.old) intake.old) (supply (R.state source.new) intake.new)) }
    ensures described { IfOk result (λ head. shape_of (is_primary head.shape.class)
        head.cards.header.cards ≡ Ok head.shape) }
    ensures small { IfOk result (λ head. length (header_bytes head.cards.header) ≤ 2 ^ 34) }
    ensures err { IfErr result (HduStops primary
        (supply (R.state source.old) intake.old) (supply (R.state source.new) intake.new)) }
{
    let head = read_described(alloc, intake, source, primary)?;
    match skip_unit(intake, source, head.unit_len) {
        Ok(()) => Ok(head),
        Err(fault) => {
            drop(head);
            Err(fault)
        }
    }
}

// Goes past so many bytes that come next.
fn skip_unit<R: Source>(intake: &mut Intake, source: &mut R, len: usize) -> Result<(), ReadHduFault>
    ensures ok { OnOk result (Passes
        (supply (R.state source.old) intake.old) (supply (R.state source.new) intake.new) len) }
    ensures err { IfErr result (UnitStops len
        (supply (R.state source.old) intake.old) (supply (R.state source.new) intake.new)) }
{
    let Ok(count) = intake.skip(source, len) else {
        return Err(ReadHduFault::Failed);
    };
    if count < len {
        return Err(ReadHduFault::Hdu(HduFault::ShortData));
    }
    Ok(())
}
