//! The run of `sum`: the sums of each HDU of a file.
ghost use Rattle.std.specs.Prelude.{◌≡◌, ◌++◌, IfOk, IfErr, OnOk};
ghost use Rattle.fits_stream.specs.Stream.{Prints};
ghost use Rattle.fits_tell.specs.Summing.{any_wrong, has_wrong, is_wrong, summed_line, summed_lines, wrong_line, wrong_lines};
ghost use Rattle.fits_tell.specs.Telling.{PrintingStops, TextEndsAs, TextIsTold, TextStopsBy};

use crate::end::{End, one_if};
use crate::fault::Fault;
use crate::pixel_lines::push_verdicts;
use crate::printing::print;
use crate::pushing::push_number;
use crate::telling::{Telling, run_telling};
use fits_passing::{HduSums, Verdict, Verdicts, read_sums};
use fits_stream::{Sink, Source};
use std::alloc::{AllocError, Global};

/// Reads a file, and prints for each of its HDUs the sum of its data unit and the verdicts on
/// DATASUM and CHECKSUM. No data unit is kept. The status is 0, whatever the verdicts.
pub fn run_sum<F: Source, O: Sink>(alloc: Global, file: &mut F, out: &mut O) -> End
    ensures { TextEndsAs Telling.Sums (F.state file.old) (F.state file.new)
        (O.state out.old) (O.state out.new) result }
{
    run_telling(alloc, Telling::Sums, file, out)
}

/// Reads a file, and prints the sums of each of its HDUs. The status is 0, whatever the verdicts.
pub(crate) fn sum<F: Source, O: Sink>(alloc: Global, file: &mut F, out: &mut O) -> Result<u8, Fault>
    ensures ok { IfOk result (λ status. TextIsTold Telling.Sums
        (F.state file.old) (F.state file.new) (O.state out.old) (O.state out.new) status) }
    ensures err { IfErr result (TextStopsBy Telling.Sums (F.state file.old) (F.state file.new)
        (O.state out.old) (O.state out.new)) }
{
    let sums = read_sums(alloc, file)?;
    print_sums(alloc, &sums, out)?;
    Ok(0)
}

/// Reads a file, and prints the sums of those of its HDUs of which one is wrong. The status is 1
/// where there is one.
pub(crate) fn wrong_sums<F: Source, O: Sink>(
    alloc: Global,
    file: &mut F,
    out: &mut O,
) -> Result<u8, Fault>
    ensures ok { IfOk result (λ status. TextIsTold Telling.WrongSums
        (F.state file.old) (F.state file.new) (O.state out.old) (O.state out.new) status) }
    ensures err { IfErr result (TextStopsBy Telling.WrongSums (F.state file.old) (F.state file.new)
        (O.state out.old) (O.state out.new)) }
{
    let sums = read_sums(alloc, file)?;
    let text = wrong_lines(alloc, &sums)?;
    print(out, &text)?;
    Ok(one_if(has_wrong(&sums)))
}

// The line of each HDU of which a sum is wrong.
#[tactic(auto, using(crate::proofs::NumberedLemmas::numbered_steps))]
fn wrong_lines(alloc: Global, sums: &[HduSums]) -> Result<Vec<u8>, AllocError>
    ensures { IfOk result (λ text. text.items ≡ wrong_lines sums.now) }
{
    let mut text = Vec::new(alloc);
    for (i, it) in sums.iter().enumerate() {
        push_wrong(&mut text, i + 1, *it)?;
    }
    Ok(text)
}

// The line of an HDU, where a sum is wrong.
fn push_wrong(text: &mut Vec<u8>, number: usize, it: HduSums) -> Result<(), AllocError>
    ensures { OnOk result (text.new.items
        ≡ text.old.items ++ wrong_line number it.datasum it.verdicts) }
{
    if any_wrong(it.verdicts) {
        push_line(text, number, it)?;
    }
    Ok(())
}

// Whether a sum of an HDU is wrong.
fn has_wrong(sums: &[HduSums]) -> bool
    ensures { result ≡ has_wrong sums.now }
{
    sums.iter().any(|it| any_wrong(it.verdicts))
}

// Whether one of two verdicts is so.
fn any_wrong(verdicts: Verdicts) -> bool
    ensures { result ≡ any_wrong verdicts }
{
    is_wrong(verdicts.datasum) || is_wrong(verdicts.checksum)
}

/// Whether a verdict is so.
pub(crate) fn is_wrong(verdict: Verdict) -> bool
    ensures { result ≡ is_wrong verdict }
{
    matches!(verdict, Verdict::Wrong)
}

// Prints the line of each HDU by its sums. Room for one line is taken.
fn print_sums<O: Sink>(alloc: Global, sums: &[HduSums], out: &mut O) -> Result<(), Fault>
    ensures ok { OnOk result (Prints (summed_lines 1 sums.now)
        (O.state out.old) (O.state out.new)) }
    ensures err { IfErr result (PrintingStops (summed_lines 1 sums.now)
        (O.state out.old) (O.state out.new)) }
{
    let mut line = Vec::new(alloc);
    for (i, it) in sums.iter().enumerate() {
        line.clear();
        push_line(&mut line, i + 1, *it)?;
        print(out, &line)?;
    }
    Ok(())
}

// `N DATASUM A B`
#[tactic(auto, unfolding(crate::specs::Summing::summed_line))]
fn push_line(line: &mut Vec<u8>, number: usize, it: HduSums) -> Result<(), AllocError>
    ensures { OnOk result (line.new.items
        ≡ line.old.items ++ summed_line number it.datasum it.verdicts) }
{
    push_number(line, b"", number as u64)?;
    push_number(line, b" ", it.datasum as u64)?;
    line.extend_from_slice(b" ")?;
    push_verdicts(line, it.verdicts.datasum, it.verdicts.checksum)
}
