//! Bytes of two sources that pass by side by side.
ghost use Rattle.std.specs.Prelude.{◌≡◌, IfOk, IfErr, OnOk};
ghost use Rattle.fits_stream.specs.Intake.{supply, Passes};
ghost use Rattle.fits_passing.specs.Passing.{UnitStops};
ghost use Rattle.fits_diff.specs.Differences.{common_len};
ghost use Rattle.fits_diff.specs.DiffSteps.{TakesSame, UnitsStop};

use crate::pair_fault::PairFault;
use fits_passing::{HduFault, ReadHduFault};
use fits_stream::{Intake, PIECE_LEN, Source};

const SHORT: ReadHduFault = ReadHduFault::Hdu(HduFault::ShortData);

/// Takes the same bytes of two, up to so many, which are to be there, and says how many: where it
/// isn't as many, the next ones differ.
pub(crate) fn pass_same<F: Source>(
    first: &mut Intake,
    a: &mut F,
    second: &mut Intake,
    b: &mut F,
    len: usize,
) -> Result<usize, PairFault>
    ensures ok { IfOk result (λ count. TakesSame len count
        (supply (F.state a.old) first.old) (supply (F.state a.new) first.new)
        (supply (F.state b.old) second.old) (supply (F.state b.new) second.new)) }
    ensures err { IfErr result (UnitsStop len len
        (supply (F.state a.old) first.old) (supply (F.state a.new) first.new)
        (supply (F.state b.old) second.old) (supply (F.state b.new) second.new)) }
{
    let mut count = 0;
    while count < len {
        let most = PIECE_LEN.min(len - count);
        let Ok(()) = first.hold(a, most) else {
            return Err(PairFault::First(ReadHduFault::Failed));
        };
        let Ok(()) = second.hold(b, most) else {
            return Err(PairFault::Second(ReadHduFault::Failed));
        };
        if first.ahead().len() < most {
            return Err(PairFault::First(SHORT));
        }
        if second.ahead().len() < most {
            return Err(PairFault::Second(SHORT));
        }
        let same = common_len(first.ahead(), second.ahead()).min(most);
        if same == 0 {
            return Ok(count);
        }
        first.pass(same);
        second.pass(same);
        count += same;
    }
    Ok(count)
}

// How many bytes two texts have alike, from their first on.
fn common_len(bytes: &[u8], others: &[u8]) -> usize
    ensures { result ≡ common_len bytes.now others.now }
{
    let most = bytes.len().min(others.len());
    for index in 0..most {
        if bytes[index] != others[index] {
            return index;
        }
    }
    most
}

/// Goes past so many bytes that come next.
pub(crate) fn skip_unit<R: Source>(
    intake: &mut Intake,
    source: &mut R,
    len: usize,
) -> Result<(), ReadHduFault>
    ensures ok { OnOk result (Passes
        (supply (R.state source.old) intake.old) (supply (R.state source.new) intake.new) len) }
    ensures err { IfErr result (UnitStops len
        (supply (R.state source.old) intake.old) (supply (R.state source.new) intake.new)) }
{
    let Ok(count) = intake.skip(source, len) else {
        return Err(ReadHduFault::Failed);
    };
    if count < len {
        return Err(SHORT);
    }
    Ok(())
}
