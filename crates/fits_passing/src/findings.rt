use crate::called::ExtensionName;
use crate::found_cards::FoundCards;
use crate::read_hdu_fault::ReadHduFault;
use fits_codes::CodeSet;
use fits_header::Finding;
use fits_stream::{Intake, Source};
use std::alloc::Global;

/// What is found of an HDU. Whether another extension is called the same is found of a file.
#[derive(Drop)]
pub struct Findings {
    /// The codes of it as a whole, but for that of its name.
    pub whole: CodeSet,
    /// What is found of its cards: by place, and at each by code.
    pub of_cards: Vec<Finding>,
    /// What it is called, if it is an extension with a name.
    pub name: Option<ExtensionName>,
}

impl Findings {
    ghost use Rattle.std.specs.Prelude.{◌≡◌, ◌+◌, ◌<◌, ◌≤◌, ◌^◌, length, IfOk, IfErr, OnOk};
    ghost use Rattle.fits_stream.specs.Intake.{supply};
    ghost use Rattle.fits_passing.specs.Findings.{AreFindings};
    ghost use Rattle.fits_passing.specs.HduReading.{HduStops, TakesHdu};

    /// What is found of the HDU that comes next in a source, as `Kept` says. Its data unit passes
    /// by: one piece of it is held at a time.
    #[tactic(auto, using(crate::proofs::PassingLemmas::findings_alone))]
    pub fn read<R: Source>(
        alloc: Global,
        intake: &mut Intake,
        source: &mut R,
        primary: bool,
    ) -> Result<Findings, ReadHduFault>
        requires { length intake.old.ahead + intake.old.left ≤ 2 ^ 34 }
        ensures ok { IfOk result (λ it. TakesHdu (AreFindings it.whole it.of_cards.items it.name)
            primary
            (supply (R.state source.old) intake.old) (supply (R.state source.new) intake.new)) }
        ensures err { IfErr result (HduStops primary
            (supply (R.state source.old) intake.old) (supply (R.state source.new) intake.new)) }
    {
        let FoundCards { found, cards } = FoundCards::read(alloc, intake, source, primary)?;
        drop(cards);
        Ok(found)
    }
}
