ghost use Rattle.std.specs.Prelude.{◌≤◌, ◌^◌, length};
ghost use Rattle.fits_card.specs.Header.{header_bytes, IsHeader};
ghost use Rattle.fits_passing.specs.HduReading.{passed_parts};
ghost use Rattle.fits_passing.specs.Sums.{AreSumsOf};

use crate::described::Described;
use crate::read_hdu_fault::ReadHduFault;
use crate::summed::{Summed, read_summed};
use crate::sums::{sum_keywords_in, verdicts_by, whole_sum};
use crate::verdicts::Verdicts;
use fits_header::header_total;
use fits_stream::{Intake, Source};
use fits_sum::fold;
use fits_unit::PassedUnit;
use std::alloc::Global;

/// The sums of an HDU: what is told of it where it passes by.
#[derive(Clone, Copy)]
pub struct HduSums {
    /// The sum of the data unit, with its fill (FITS Standard 4.0, Appendix J).
    pub datasum: u32,
    /// Whether DATASUM and CHECKSUM are right (FITS Standard 4.0, section 4.4.2.7).
    pub verdicts: Verdicts,
}

impl HduSums {
    ghost use Rattle.std.specs.Prelude.{◌≡◌, ◌+◌, ◌<◌, ◌≤◌, ◌^◌, length, IfOk, IfErr, OnOk};
    ghost use Rattle.fits_stream.specs.Intake.{supply};
    ghost use Rattle.fits_passing.specs.HduReading.{HduStops, TakesHdu};
    ghost use Rattle.fits_passing.specs.Sums.{AreSumsOf};

    /// The sums of the HDU that comes next in a source, as `Kept` says. Its data unit passes by: one
    /// piece of it is held at a time.
    pub fn read<R: Source>(
        alloc: Global,
        intake: &mut Intake,
        source: &mut R,
        primary: bool,
    ) -> Result<HduSums, ReadHduFault>
        requires { length intake.old.ahead + intake.old.left ≤ 2 ^ 34 }
        ensures ok { IfOk result (λ it. TakesHdu (AreSumsOf it.datasum it.verdicts)
            primary
            (supply (R.state source.old) intake.old) (supply (R.state source.new) intake.new)) }
        ensures err { IfErr result (HduStops primary
            (supply (R.state source.old) intake.old) (supply (R.state source.new) intake.new)) }
    {
        let Summed { head, unit } = read_summed(alloc, intake, source, primary)?;
        Ok(sums_of(head, &unit))
    }
}

// The sums of an HDU of this header and this data unit. It takes no memory: of the cards nothing is
// kept.
fn sums_of(head: Described, unit: &PassedUnit) -> HduSums
    requires whole { IsHeader head.cards.header }
    requires small { length (header_bytes head.cards.header) ≤ 2 ^ 34 }
    ensures { AreSumsOf result.datasum result.verdicts (passed_parts head.cards.header unit.now) }
{
    let Described { mut cards, .. } = head;
    let said = sum_keywords_in(&mut cards);
    let total = unit.total();
    let datasum = fold(total);
    let whole = whole_sum(header_total(&mut cards), total);
    HduSums {
        datasum,
        verdicts: verdicts_by(said, datasum, whole),
    }
}
