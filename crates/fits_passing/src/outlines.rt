//! The HDUs of a source without their cards and data.
ghost use Rattle.std.specs.Prelude.{IfOk, IfErr, OnOk};
ghost use Rattle.fits_stream.specs.Stream.{StaysQuiet};
ghost use Rattle.fits_passing.specs.Reading.{GaveFault, GaveWhole, IsOutlineOf, ReadStops};

use crate::outline::Outline;
use crate::read_file_fault::ReadFileFault;
use crate::walking::read_kept;
use fits_stream::{Reach, Source};
use std::alloc::Global;

/// The outlines of the HDUs of the file that a source has, which is gone through to its end, or
/// past the limit of a file.
///
/// That it is too long comes before all else, then a failed call, then a fault of its bytes.
/// `Memory` may stand anywhere.
///
/// No data unit and no tail is kept.
#[tactic(auto, using(crate::proofs::WalkLemmas::outline_steps))]
pub fn read_outlines<R: Source>(
    alloc: Global,
    source: &mut R,
) -> Result<Vec<Outline>, ReadFileFault>
    ensures ok { IfOk result (λ outlines. GaveWhole (R.state source.old) (R.state source.new) (IsOutlineOf outlines.items)) }
    ensures quiet { OnOk result (StaysQuiet (R.state source.old) (R.state source.new)) }
    ensures err { IfErr result (ReadStops (R.state source.old) (R.state source.new)) }
    ensures gave { IfErr result (GaveFault (R.state source.old) (R.state source.new)) }
{
    let (outlines, _) = read_kept(alloc, source, Reach::Wanted)?;
    Ok(outlines)
}
