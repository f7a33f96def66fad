ghost use Rattle.std.specs.Prelude.{◌≡◌};

use crate::described::read_described;
use crate::hdu_fault::HduFault;
use crate::image_pixels::image_pixels;
use crate::passing::{pass_unit, skip_unit};
use crate::read_hdu_fault::ReadHduFault;
use fits_pixels::ValueSummary;
use fits_stream::{Intake, Source};
use std::alloc::Global;

/// The statistics of an HDU's pixels: what is told of them where it passes by.
#[derive(Clone, Copy)]
pub struct HduStats {
    /// Those of their values, where it is an image of integers.
    pub stats: Option<ValueSummary>,
}

impl HduStats {
    ghost use Rattle.std.specs.Prelude.{◌≡◌, ◌+◌, ◌<◌, ◌≤◌, ◌^◌, length, IfOk, IfErr, OnOk};
    ghost use Rattle.fits_stream.specs.Intake.{supply};
    ghost use Rattle.fits_passing.specs.Stats.{AreStatsOf};
    ghost use Rattle.fits_passing.specs.HduReading.{HduStops, TakesHdu};

    /// The statistics of the HDU that comes next in a source, as `Kept` says. The data unit of an
    /// image of integers passes by, one piece of it held at a time; any other is skipped.
    pub fn read<R: Source>(
        alloc: Global,
        intake: &mut Intake,
        source: &mut R,
        primary: bool,
    ) -> Result<HduStats, ReadHduFault>
        requires { length intake.old.ahead + intake.old.left ≤ 2 ^ 34 }
        ensures ok { IfOk result (λ it. TakesHdu (AreStatsOf it.stats) primary
            (supply (R.state source.old) intake.old) (supply (R.state source.new) intake.new)) }
        ensures err { IfErr result (HduStops primary
            (supply (R.state source.old) intake.old) (supply (R.state source.new) intake.new)) }
    {
        let head = read_described(alloc, intake, source, primary)?;
        let unit_len = head.unit_len;
        let Ok(image) = image_pixels(alloc, head) else {
            return Err(ReadHduFault::Hdu(HduFault::Memory));
        };
        match image {
            Some(image) => {
                let unit = pass_unit(intake, source, unit_len, image.layout)?;
                Ok(HduStats {
                    stats: Some(unit.value_stats(image.kind.offset())),
                })
            }
            None => {
                skip_unit(intake, source, unit_len)?;
                Ok(HduStats { stats: None })
            }
        }
    }
}
