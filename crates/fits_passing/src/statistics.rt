//! The statistics of the HDUs of a source, whose data pass by.
ghost use Rattle.std.specs.Prelude.{IfOk, IfErr, OnOk};
ghost use Rattle.fits_stream.specs.Stream.{StaysQuiet};
ghost use Rattle.fits_passing.specs.Reading.{AreStatisticsOfFile, GaveFault, GaveWhole, ReadStops};

use crate::hdu_stats::HduStats;
use crate::read_file_fault::ReadFileFault;
use crate::walking::read_kept;
use fits_stream::{Reach, Source};
use std::alloc::Global;

/// The statistics of the HDUs of the file that a source has, which is read as by `read_outlines`.
///
/// No data unit and no tail is kept. Data that are no image of integers are skipped.
#[tactic(auto, using(crate::proofs::WalkLemmas::outline_steps))]
pub fn read_statistics<R: Source>(
    alloc: Global,
    source: &mut R,
) -> Result<Vec<HduStats>, ReadFileFault>
    ensures ok { IfOk result (λ stats. GaveWhole (R.state source.old) (R.state source.new) (AreStatisticsOfFile stats.items)) }
    ensures quiet { OnOk result (StaysQuiet (R.state source.old) (R.state source.new)) }
    ensures err { IfErr result (ReadStops (R.state source.old) (R.state source.new)) }
    ensures gave { IfErr result (GaveFault (R.state source.old) (R.state source.new)) }
{
    let (stats, _) = read_kept(alloc, source, Reach::Piece)?;
    Ok(stats)
}
