//! The run of `diff`.
ghost use Rattle.std.specs.Prelude.{◌≡◌, ◌+◌, ◌≤◌, [], length, IfOk, IfErr};
ghost use Rattle.fits_stream.specs.Intake.{supply};
ghost use Rattle.fits_passing.specs.declared.limits.TheConstants.{FILE_LIMIT};
ghost use Rattle.fits_diff.specs.DiffSteps.{PassesFiles, WalksStop};
ghost use Rattle.fits_diff.specs.Diff.{Compares, ComparingStops, DiffEndsAs, DiffIsPrinted, DiffStops};

use crate::diff_end::DiffEnd;
use crate::diff_fault::DiffFault;
use crate::lines::push_tail_line;
use crate::tails::compare_tails;
use crate::walking::walk_both;
use fits_passing::{FILE_LIMIT, end, settled};
use fits_stream::{Intake, Reach, Sink, Source};
use fits_tell::{one_if, print_at_once};
use std::alloc::Global;

/// Reads two files side by side, and prints a line for each difference: of their headers' cards, END
/// and fill, of their data, of the HDUs that one has alone, and of the bytes after the last HDU. One
/// header of each is held at a time, a piece of their data, and the lines.
///
/// The status is 0 where there is none, so that the files are the same, byte for byte; 1 where there
/// is one; or that of the fault. Nothing is printed where a file isn't had.
pub fn run_diff<F: Source, O: Sink>(alloc: Global, a: &mut F, b: &mut F, out: &mut O) -> DiffEnd
    ensures { DiffEndsAs (F.state a.old) (F.state a.new) (F.state b.old) (F.state b.new)
        (O.state out.old) (O.state out.new) result }
{
    match print_differences(alloc, a, b, out) {
        Ok(status) => DiffEnd {
            status,
            fault: None,
        },
        Err(why) => DiffEnd {
            status: why.told().status(),
            fault: Some(why),
        },
    }
}

// The run as a result: its status, or the fault that ended it.
fn print_differences<F: Source, O: Sink>(
    alloc: Global,
    a: &mut F,
    b: &mut F,
    out: &mut O,
) -> Result<u8, DiffFault>
    ensures ok { IfOk result (DiffIsPrinted
        (F.state a.old) (F.state a.new) (F.state b.old) (F.state b.new)
        (O.state out.old) (O.state out.new)) }
    ensures err { IfErr result (DiffStops
        (F.state a.old) (F.state a.new) (F.state b.old) (F.state b.new)
        (O.state out.old) (O.state out.new)) }
{
    let text = match differences(alloc, a, b) {
        Ok(text) => text,
        Err(why) => return Err(why),
    };
    match print_at_once(out, &text) {
        Ok(()) => Ok(one_if(!text.is_empty())),
        Err(_) => Err(DiffFault::WriteFailed),
    }
}

// The lines of what differs in two files.
fn differences<F: Source>(alloc: Global, a: &mut F, b: &mut F) -> Result<Vec<u8>, DiffFault>
    ensures ok { IfOk result (λ text. Compares
        (F.state a.old) (F.state a.new) (F.state b.old) (F.state b.new) text.items) }
    ensures err { IfErr result (ComparingStops
        (F.state a.old) (F.state a.new) (F.state b.old) (F.state b.new)) }
{
    let mut first = Intake::new(alloc, FILE_LIMIT as usize, Reach::Piece)?;
    let mut second = Intake::new(alloc, FILE_LIMIT as usize, Reach::Piece)?;
    let mut text = Vec::new(alloc);
    let same = match compare(alloc, &mut text, &mut first, a, &mut second, b) {
        Ok(same) => same,
        Err(DiffFault::First(why)) => return Err(DiffFault::First(settled(first, a, why))),
        Err(DiffFault::Second(why)) => return Err(DiffFault::Second(settled(second, b, why))),
        Err(why) => return Err(why),
    };
    match end(first, a) {
        Ok(()) => {}
        Err(why) => return Err(DiffFault::First(why)),
    }
    match end(second, b) {
        Ok(()) => {}
        Err(why) => return Err(DiffFault::Second(why)),
    }
    push_tail_line(&mut text, same)?;
    Ok(text)
}

// Goes past all that two have the same, adds the lines of how their HDUs differ, and says whether the
// bytes after them are the same.
fn compare<F: Source>(
    alloc: Global,
    text: &mut Vec<u8>,
    first: &mut Intake,
    a: &mut F,
    second: &mut Intake,
    b: &mut F,
) -> Result<bool, DiffFault>
    requires limit { length first.old.ahead + first.old.left ≤ FILE_LIMIT }
    requires limit_other { length second.old.ahead + second.old.left ≤ FILE_LIMIT }
    requires empty { text.old.items ≡ [] }
    ensures ok { IfOk result (λ same. PassesFiles
        (supply (F.state a.old) first.old) (supply (F.state a.new) first.new)
        (supply (F.state b.old) second.old) (supply (F.state b.new) second.new)
        text.new.items same) }
    ensures err { IfErr result (WalksStop
        (supply (F.state a.old) first.old) (supply (F.state a.new) first.new)
        (supply (F.state b.old) second.old) (supply (F.state b.new) second.new)) }
{
    match walk_both(alloc, text, first, a, second, b) {
        Ok(()) => {}
        Err(why) => return Err(why),
    }
    match compare_tails(first, a, second, b) {
        Ok(same) => Ok(same),
        Err(why) => Err(why),
    }
}
