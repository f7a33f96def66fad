//! The lines that tell statistics, sums and the values of a rectangle.
ghost use Rattle.std.specs.Prelude.{◌≡◌, ◌++◌, codes, IfOk, OnOk};
ghost use Rattle.fits_tell.specs.PixelLines.{counts_text, number_or_hyphen, numbers_spaced, statistics_line, sums_line, values_line, values_text, verdict_text};

use crate::pushing::{push_both, push_number, push_signed};
use fits_passing::{Stats, Verdict, Verdicts};
use std::alloc::{AllocError, Global};

/// Room for a line of statistics or sums.
const SUMMARY_ROOM: usize = 192;

/// Room for the shortest value and what follows it.
const VALUE_ROOM: usize = 2;

/// `defined D blank B min X max Y sum S`
pub fn statistics_line(alloc: Global, stats: &Stats) -> Result<Vec<u8>, AllocError>
    ensures { IfOk result (λ line. line.items ≡ statistics_line stats.now) }
{
    let mut line = Vec::with_capacity(alloc, SUMMARY_ROOM)?;
    push_statistics(&mut line, stats)?;
    Ok(line)
}

/// The same, after a text.
pub(crate) fn push_statistics(line: &mut Vec<u8>, stats: &Stats) -> Result<(), AllocError>
    ensures { OnOk result (line.new.items ≡ line.old.items ++ statistics_line stats.now) }
{
    push_counts(line, stats)?;
    push_values(line, stats)?;
    line.extend_from_slice(b"\n")
}

// How many pixels are defined and blank.
fn push_counts(line: &mut Vec<u8>, stats: &Stats) -> Result<(), AllocError>
    ensures { OnOk result (line.new.items ≡ line.old.items ++ counts_text stats.now) }
{
    push_number(line, b"defined ", stats.defined as u64)?;
    push_number(line, b" blank ", stats.blank as u64)
}

// The least and the greatest value, and the sum of all.
fn push_values(line: &mut Vec<u8>, stats: &Stats) -> Result<(), AllocError>
    ensures { OnOk result (line.new.items ≡ line.old.items ++ values_text stats.now) }
{
    push_number_or_hyphen(line, b" min ", stats.least)?;
    push_number_or_hyphen(line, b" max ", stats.greatest)?;
    push_signed(line, b" sum ", stats.sum)
}

// A text, and a number after it, or a hyphen where there is none.
fn push_number_or_hyphen(
    line: &mut Vec<u8>,
    text: &[u8],
    number: Option<i128>,
) -> Result<(), AllocError>
    ensures { OnOk result (line.new.items ≡ line.old.items ++ (text.now ++ number_or_hyphen number)) }
{
    match number {
        Some(number) => push_signed(line, text, number),
        None => push_both(line, text, b"-"),
    }
}

/// `datasum N verdicts A B`: DATASUM's verdict, then CHECKSUM's.
pub fn sums_line(alloc: Global, sum: u32, verdicts: Verdicts) -> Result<Vec<u8>, AllocError>
    ensures { IfOk result (λ line. line.items ≡ sums_line sum verdicts) }
{
    let mut line = Vec::with_capacity(alloc, SUMMARY_ROOM)?;
    push_number(&mut line, b"datasum ", sum as u64)?;
    line.extend_from_slice(b" verdicts ")?;
    push_verdicts(&mut line, verdicts.datasum, verdicts.checksum)?;
    Ok(line)
}

/// Two verdicts, a space between, and a line feed.
pub(crate) fn push_verdicts(
    line: &mut Vec<u8>,
    first: Verdict,
    second: Verdict,
) -> Result<(), AllocError>
    ensures { OnOk result (line.new.items ≡ line.old.items
        ++ (verdict_text first ++ (codes " " ++ (verdict_text second ++ codes "\n")))) }
{
    push_both(line, verdict_text(first).as_bytes(), b" ")?;
    push_both(line, verdict_text(second).as_bytes(), b"\n")
}

// A verdict as a number.
fn verdict_text(verdict: Verdict) -> &'static str
    ensures { result.now ≡ verdict_text verdict }
{
    match verdict {
        Verdict::Right => "1",
        Verdict::Missing => "0",
        Verdict::Wrong => "-1",
    }
}

/// Values, a space between, and a line feed.
pub fn values_line(alloc: Global, values: &[i128]) -> Result<Vec<u8>, AllocError>
    ensures { IfOk result (λ line. line.items ≡ values_line values.now) }
{
    let mut line = Vec::with_capacity(alloc, values.len().saturating_mul(VALUE_ROOM))?;
    if let [first, more @ ..] = values {
        push_signed(&mut line, b"", *first)?;
        push_more_numbers(&mut line, more)?;
    }
    line.push(b'\n')?;
    Ok(line)
}

// Further numbers, each after a space.
fn push_more_numbers(line: &mut Vec<u8>, numbers: &[i128]) -> Result<(), AllocError>
    ensures { OnOk result (line.new.items ≡ line.old.items ++ numbers_spaced numbers.now) }
{
    for number in numbers {
        push_signed(line, b" ", *number)?;
    }
    Ok(())
}
