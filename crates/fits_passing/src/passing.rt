//! A data unit that passes by: its bytes are looked at, or skipped.
ghost use Rattle.std.specs.Prelude.{◌≡◌, ℕ, List, length, IfOk, IfErr, OnOk};
ghost use Rattle.fits_pixels.specs.Layout.{IsLayout};
ghost use Rattle.fits_stream.specs.Intake.{supply, Passes, Takes};
ghost use Rattle.fits_passing.specs.Passing.{UnitStops};

use crate::hdu_fault::HduFault;
use crate::read_hdu_fault::ReadHduFault;
use fits_card::BLOCK_LEN;
use fits_pixels::Layout;
use fits_stream::{Intake, PIECE_LEN, Source};
use fits_unit::{PassedUnit, PassingUnit};

/// As many bytes as an intake holds at once in whole blocks.
const BLOCKS_LEN: usize = PIECE_LEN - PIECE_LEN % BLOCK_LEN;

/// What is known of so many bytes that come next, which are a data unit that is read so. The intake
/// holds a piece of them at a time, and none of them is kept.
pub(crate) fn pass_unit<R: Source>(
    intake: &mut Intake,
    source: &mut R,
    len: usize,
    layout: Layout,
) -> Result<PassedUnit, ReadHduFault>
    requires { (unit : List ℕ) → length unit ≡ len → IsLayout layout unit }
    ensures ok { IfOk result (λ unit. Takes
        (supply (R.state source.old) intake.old) (supply (R.state source.new) intake.new)
        unit.bytes) }
    ensures size { IfOk result (λ unit. length unit.bytes ≡ len) }
    ensures layout { IfOk result (λ unit. unit.layout ≡ layout) }
    ensures blank { IfOk result (λ unit. unit.blank ≡ layout.blank) }
    ensures err { IfErr result (UnitStops len
        (supply (R.state source.old) intake.old) (supply (R.state source.new) intake.new)) }
{
    let mut unit = PassingUnit::new(layout);
    while unit.byte_len() < len {
        let most = BLOCKS_LEN.min(len - unit.byte_len());
        let Ok(()) = intake.hold(source, most) else {
            return Err(ReadHduFault::Failed);
        };
        let ahead = intake.ahead();
        if ahead.len() < most {
            return Err(ReadHduFault::Hdu(HduFault::ShortData));
        }
        let (piece, _) = ahead.split_at(most);
        unit.add(piece);
        intake.pass(most);
    }
    Ok(unit.end())
}

/// Goes past so many bytes that come next.
pub(crate) fn skip_unit<R: Source>(
    intake: &mut Intake,
    source: &mut R,
    len: usize,
) -> Result<(), ReadHduFault>
    ensures ok { OnOk result (Passes
        (supply (R.state source.old) intake.old) (supply (R.state source.new) intake.new) len) }
    ensures err { IfErr result (UnitStops len
        (supply (R.state source.old) intake.old) (supply (R.state source.new) intake.new)) }
{
    let Ok(count) = intake.skip(source, len) else {
        return Err(ReadHduFault::Failed);
    };
    if count < len {
        return Err(ReadHduFault::Hdu(HduFault::ShortData));
    }
    Ok(())
}
