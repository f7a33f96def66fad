ghost use Rattle.std.specs.Prelude.{◌≡◌, ◌+◌, ◌≤◌, true, not, length, IfOk, IfErr};
ghost use Rattle.fits_stream.specs.Intake.{supply, Takes};
ghost use Rattle.fits_unit.specs.DataUnit.{away_plane, is_passed, passed_blank};
ghost use Rattle.fits_unit.specs.Unread.{LaysOut};
ghost use Rattle.fits_passing.specs.Met.{passed_bytes, stays_unread};
ghost use Rattle.fits_passing.specs.Passing.{UnitStops};

use crate::described::{Described, read_described};
use crate::hdu_fault::HduFault;
use crate::layout::layout_of;
use crate::look::Look;
use crate::passing::pass_unit;
use crate::read_hdu_fault::ReadHduFault;
use fits_header::Header;
use fits_pixels::Layout;
use fits_stream::{Intake, Source};
use fits_unit::{AwayUnit, UnreadUnit};
use std::alloc::Global;

/// An HDU that passed by: its header, and what is known of its data unit, which passed by too or stays
/// unread.
#[derive(Drop)]
pub struct PassedHdu {
    pub header: Header,
    pub unit: AwayUnit,
}

impl PassedHdu {
    ghost use Rattle.std.specs.Prelude.{◌≡◌, ◌+◌, ◌<◌, ◌≤◌, ◌^◌, not, false, length, IfOk, IfErr};
    ghost use Rattle.fits_stream.specs.Intake.{supply};
    ghost use Rattle.fits_unit.specs.DataUnit.{away_plane, is_passed};
    ghost use Rattle.fits_passing.specs.HduReading.{HduStops};
    ghost use Rattle.fits_passing.specs.Met.{stays_unread, MeetsHdu};

    /// The HDU that comes next in a source. Its data unit passes by, and one piece of it is held at a
    /// time; or it stays unread, and may still be taken.
    pub fn read<R: Source>(
        alloc: Global,
        look: Look,
        intake: &mut Intake,
        source: &mut R,
        primary: bool,
    ) -> Result<PassedHdu, ReadHduFault>
        requires { length intake.old.ahead + intake.old.left ≤ 2 ^ 34 }
        ensures ok { IfOk result (λ it. MeetsHdu it.header it.unit primary
            (supply (R.state source.old) intake.old) (supply (R.state source.new) intake.new)) }
        ensures look { IfOk result (λ it. is_passed it.unit
            ≡ not (stays_unread look (length (away_plane it.unit).bytes))) }
        ensures room { IfOk result (λ it. is_passed it.unit ≡ false
            → length (away_plane it.unit).bytes ≤ length intake.new.ahead + intake.new.left) }
        ensures err { IfErr result (HduStops primary
            (supply (R.state source.old) intake.old) (supply (R.state source.new) intake.new)) }
    {
        let Described {
            cards,
            shape,
            unit_len,
        } = read_described(alloc, intake, source, primary)?;
        let Ok(mut header) = Header::open(alloc, cards, shape) else {
            return Err(ReadHduFault::Hdu(HduFault::Memory));
        };
        let layout = layout_of(&mut header);
        match meet_unit(look, intake, source, unit_len, layout) {
            Ok(unit) => Ok(PassedHdu { header, unit }),
            Err(fault) => {
                drop(header);
                Err(fault)
            }
        }
    }
}

// So many bytes that come next are a data unit that is read so: it passes by, or stays unread.
fn meet_unit<R: Source>(
    look: Look,
    intake: &mut Intake,
    source: &mut R,
    len: usize,
    layout: Layout,
) -> Result<AwayUnit, ReadHduFault>
    requires { LaysOut layout len }
    ensures ok { IfOk result (λ unit. Takes
        (supply (R.state source.old) intake.old) (supply (R.state source.new) intake.new)
        (passed_bytes unit)) }
    ensures size { IfOk result (λ unit. length (away_plane unit).bytes ≡ len) }
    ensures layout { IfOk result (λ unit. (away_plane unit).layout ≡ layout) }
    ensures blank { IfOk result (λ unit. is_passed unit ≡ true → passed_blank unit ≡ layout.blank) }
    ensures look { IfOk result (λ unit. is_passed unit ≡ not (stays_unread look len)) }
    ensures err { IfErr result (UnitStops len
        (supply (R.state source.old) intake.old) (supply (R.state source.new) intake.new)) }
{
    if look.leaves(len) {
        return Ok(AwayUnit::Unread(UnreadUnit::new(layout, len)));
    }
    let unit = pass_unit(intake, source, len, layout)?;
    Ok(AwayUnit::Passed(unit))
}
