ghost use Rattle.std.specs.Prelude.{◌≡◌};

use crate::described::{Described, read_past};
use crate::read_hdu_fault::ReadHduFault;
use fits_rules::Shape;
use fits_stream::{Intake, Source};
use std::alloc::Global;

/// An HDU without its cards and data: what is told of it where it stands in a file.
#[derive(Drop)]
pub struct Outline {
    /// How many cards its header has, END not counted.
    pub card_count: usize,
    pub shape: Shape,
    /// How many bytes its header has, with END and the fill.
    pub header_len: usize,
    /// How many bytes its data unit has, with the fill of its last block.
    pub data_len: usize,
}

impl Outline {
    ghost use Rattle.std.specs.Prelude.{◌≡◌, ◌+◌, ◌<◌, ◌≤◌, ◌^◌, length, IfOk, IfErr, OnOk};
    ghost use Rattle.fits_stream.specs.Intake.{supply};
    ghost use Rattle.fits_passing.specs.HduReading.{HduStops, IsOutlined, TakesHdu};

    /// The outline of the HDU that comes next in a source, as `Kept` says. Its data unit is
    /// skipped.
    #[tactic(auto, using(crate::proofs::ReadingLemmas::outline_steps))]
    pub fn read<R: Source>(
        alloc: Global,
        intake: &mut Intake,
        source: &mut R,
        primary: bool,
    ) -> Result<Outline, ReadHduFault>
        requires { length intake.old.ahead + intake.old.left ≤ 2 ^ 34 }
        ensures ok { IfOk result (λ it. TakesHdu
            (λ hdu. IsOutlined hdu it.card_count it.shape it.header_len it.data_len)
            primary
            (supply (R.state source.old) intake.old) (supply (R.state source.new) intake.new)) }
        ensures err { IfErr result (HduStops primary
            (supply (R.state source.old) intake.old) (supply (R.state source.new) intake.new)) }
    {
        let Described {
            cards,
            shape,
            unit_len,
        } = read_past(alloc, intake, source, primary)?;
        Ok(Outline {
            card_count: cards.len(),
            shape,
            header_len: cards.byte_len(),
            data_len: unit_len,
        })
    }
}
