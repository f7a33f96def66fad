ghost use Rattle.std.specs.Prelude.{◌≡◌, ◌+◌, ◌<◌, ◌≤◌, ◌^◌, length, IfOk, IfErr};
ghost use Rattle.fits_stream.specs.Intake.{supply};
ghost use Rattle.fits_passing.specs.Hdu.{HduParts};
ghost use Rattle.fits_passing.specs.HduReading.{HduStops, TakesHdu};

use crate::findings::Findings;
use crate::found_cards::FoundCards;
use crate::hdu_stats::HduStats;
use crate::hdu_sums::HduSums;
use crate::outline::Outline;
use crate::read_hdu_fault::ReadHduFault;
use fits_stream::{Intake, Source};
use std::alloc::Global;

/// What is kept of an HDU that was read.
pub trait Kept {
    /// This is kept of the HDU.
    ghost keeps: { Self → HduParts → Type 0 };

    /// Reads the HDU that comes next in a source.
    fn read_next<R: Source>(
        alloc: Global,
        intake: &mut Intake,
        source: &mut R,
        primary: bool,
    ) -> Result<Self, ReadHduFault>
        requires { length intake.old.ahead + intake.old.left ≤ 2 ^ 34 }
        ensures ok { IfOk result (λ kept. TakesHdu (keeps kept) primary
            (supply (R.state source.old) intake.old) (supply (R.state source.new) intake.new)) }
        ensures err { IfErr result (HduStops primary
            (supply (R.state source.old) intake.old) (supply (R.state source.new) intake.new)) };
}

impl Kept for Outline {
    ghost use Rattle.fits_passing.specs.HduReading.{IsOutlined};

    ghost keeps = { λ it hdu. IsOutlined hdu it.card_count it.shape it.header_len it.data_len };

    fn read_next<R: Source>(
        alloc: Global,
        intake: &mut Intake,
        source: &mut R,
        primary: bool,
    ) -> Result<Outline, ReadHduFault> {
        Outline::read(alloc, intake, source, primary)
    }
}

impl Kept for Findings {
    ghost use Rattle.fits_passing.specs.Findings.{AreFindings};

    ghost keeps = { λ it hdu. AreFindings it.whole it.of_cards.items it.name hdu };

    fn read_next<R: Source>(
        alloc: Global,
        intake: &mut Intake,
        source: &mut R,
        primary: bool,
    ) -> Result<Findings, ReadHduFault> {
        Findings::read(alloc, intake, source, primary)
    }
}

impl Kept for FoundCards {
    ghost use Rattle.fits_passing.specs.Findings.{AreFoundCards};

    ghost keeps = { λ it hdu. AreFoundCards
        it.found.whole it.found.of_cards.items it.found.name it.cards.header.cards hdu };

    fn read_next<R: Source>(
        alloc: Global,
        intake: &mut Intake,
        source: &mut R,
        primary: bool,
    ) -> Result<FoundCards, ReadHduFault> {
        FoundCards::read(alloc, intake, source, primary)
    }
}

impl Kept for HduSums {
    ghost use Rattle.fits_passing.specs.Sums.{AreSumsOf};

    ghost keeps = { λ it hdu. AreSumsOf it.datasum it.verdicts hdu };

    fn read_next<R: Source>(
        alloc: Global,
        intake: &mut Intake,
        source: &mut R,
        primary: bool,
    ) -> Result<HduSums, ReadHduFault> {
        HduSums::read(alloc, intake, source, primary)
    }
}

impl Kept for HduStats {
    ghost use Rattle.fits_passing.specs.Stats.{AreStatsOf};

    ghost keeps = { λ it hdu. AreStatsOf it.stats hdu };

    fn read_next<R: Source>(
        alloc: Global,
        intake: &mut Intake,
        source: &mut R,
        primary: bool,
    ) -> Result<HduStats, ReadHduFault> {
        HduStats::read(alloc, intake, source, primary)
    }
}
