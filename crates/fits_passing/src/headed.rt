use crate::data_unit::unit_len;
use crate::hdu_fault::HduFault;
use crate::passing::skip_unit;
use crate::read_hdu_fault::ReadHduFault;
use fits_card::{CardList, HeaderFront, read_front};
use fits_rules::{ShapeFault, shape};
use fits_stream::{Intake, ReadFault, Source};
use std::alloc::Global;

/// The cards of a header, whether the rest of its HDU can be read or not.
#[derive(Drop)]
pub struct Headed {
    /// Those before END. Where there is no END there are none.
    pub cards: CardList,
    /// Why no HDU stands there, where none does; never that memory was refused.
    pub fault: Option<HduFault>,
}

impl Headed {
    ghost use Rattle.std.specs.Prelude.{◌≡◌, ◌+◌, ◌≤◌, ◌^◌, length, IfOk, IfErr};
    ghost use Rattle.fits_stream.specs.Intake.{supply, TakingStops};
    ghost use Rattle.fits_passing.specs.HduReading.{CardsCome};

    /// The cards of the HDU that comes next in a source, as `Kept` says. Its data unit is skipped.
    pub fn read<R: Source>(
        alloc: Global,
        intake: &mut Intake,
        source: &mut R,
        primary: bool,
    ) -> Result<Headed, ReadFault>
        requires { length intake.old.ahead + intake.old.left ≤ 2 ^ 34 }
        ensures ok { IfOk result (λ it. CardsCome primary it.cards.header.cards it.fault
            (supply (R.state source.old) intake.old) (supply (R.state source.new) intake.new)) }
        ensures err { IfErr result (TakingStops (R.state source.old) (R.state source.new)) }
    {
        let mut cards = match read_front(alloc, intake, source) {
            Ok(HeaderFront::Whole(cards)) => cards,
            Ok(HeaderFront::Cut(cards)) => {
                let cards = CardList::new(alloc, cards)?;
                return Ok(Headed {
                    cards,
                    fault: Some(HduFault::NoEnd),
                });
            }
            Err(fault) => return Err(fault),
        };
        let shape = match shape(alloc, &mut cards, primary) {
            Ok(shape) => shape,
            Err(ShapeFault::Bad(place)) => {
                return Ok(Headed {
                    cards,
                    fault: Some(HduFault::BadShape(place)),
                });
            }
            Err(ShapeFault::Memory) => return Err(ReadFault::Memory),
        };
        let unit_len = match unit_len(&shape, intake.left()) {
            Ok(unit_len) => unit_len,
            Err(why) => {
                return Ok(Headed {
                    cards,
                    fault: Some(why),
                });
            }
        };
        drop(shape);
        match skip_unit(intake, source, unit_len) {
            Ok(()) => Ok(Headed { cards, fault: None }),
            Err(ReadHduFault::Hdu(why)) => Ok(Headed {
                cards,
                fault: Some(why),
            }),
            Err(ReadHduFault::Failed) => Err(ReadFault::Failed),
        }
    }
}
