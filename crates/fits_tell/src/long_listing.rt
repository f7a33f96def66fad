//! The run of `list -l`: a line for each HDU of a file, with what it is called.
ghost use Rattle.std.specs.Prelude.{◌≤◌, IfOk, IfErr, OnOk};
ghost use Rattle.fits_stream.specs.Stream.{Prints, StaysQuiet};
ghost use Rattle.fits_passing.specs.declared.limits.TheConstants.{FILE_LIMIT};
ghost use Rattle.fits_passing.specs.Reading.{GaveFault, GaveWhole, IsKeptOf, ReadStops};
ghost use Rattle.fits_tell.specs.Called.{IsCalled};
ghost use Rattle.fits_tell.specs.Listing.{called_len, called_line};
ghost use Rattle.fits_tell.specs.Placed.{placed_len, placed_lines};
ghost use Rattle.fits_tell.specs.Telling.{PrintingStops, TextIsTold, TextStopsBy};

use crate::called_outline::CalledOutline;
use crate::fault::Fault;
use crate::listing::print_line;
use crate::telling::Telling;
use fits_passing::{FILE_LIMIT, ReadFileFault, end, settled, walk};
use fits_stream::{Intake, Reach, Sink, Source};
use std::alloc::Global;

/// Reads a file, and prints a line for each of its HDUs, with what it is called. The status is 0.
pub(crate) fn long_list<F: Source, O: Sink>(
    alloc: Global,
    file: &mut F,
    out: &mut O,
) -> Result<u8, Fault>
    ensures ok { IfOk result (λ status. TextIsTold Telling.LongList
        (F.state file.old) (F.state file.new) (O.state out.old) (O.state out.new) status) }
    ensures err { IfErr result (TextStopsBy Telling.LongList (F.state file.old) (F.state file.new)
        (O.state out.old) (O.state out.new)) }
{
    let outlines = read_called(alloc, file)?;
    print_called(alloc, &outlines, out)?;
    Ok(0)
}

// The outlines of the HDUs of the file that a source has, with what each is called. It is read as by
// `read_outlines`.
fn read_called<R: Source>(
    alloc: Global,
    source: &mut R,
) -> Result<Vec<CalledOutline>, ReadFileFault>
    ensures ok { IfOk result (λ outlines. GaveWhole (R.state source.old) (R.state source.new)
        (IsKeptOf IsCalled outlines.items)) }
    ensures quiet { OnOk result (StaysQuiet (R.state source.old) (R.state source.new)) }
    ensures err { IfErr result (ReadStops (R.state source.old) (R.state source.new)) }
    ensures gave { IfErr result (GaveFault (R.state source.old) (R.state source.new)) }
{
    let mut intake = Intake::new(alloc, FILE_LIMIT as usize, Reach::Wanted)?;
    match walk::<CalledOutline, R>(alloc, &mut intake, source) {
        Ok(outlines) => match end(intake, source) {
            Ok(()) => Ok(outlines),
            Err(fault) => Err(fault),
        },
        Err(fault) => Err(settled(intake, source, fault)),
    }
}

// Prints a line for each, of HDUs that stand one after another.
fn print_called<O: Sink>(
    alloc: Global,
    outlines: &[CalledOutline],
    out: &mut O,
) -> Result<(), Fault>
    requires { placed_len called_len outlines.now ≤ FILE_LIMIT }
    ensures ok { OnOk result (Prints (placed_lines called_line called_len 1 0 outlines.now)
        (O.state out.old) (O.state out.new)) }
    ensures err { IfErr result (PrintingStops (placed_lines called_line called_len 1 0 outlines.now)
        (O.state out.old) (O.state out.new)) }
{
    let mut line = Vec::new(alloc);
    let mut start = 0u64;
    for (i, it) in outlines.iter().enumerate() {
        start = print_line(i + 1, start, &it.outline, &it.words, &mut line, out)?;
    }
    Ok(())
}
