//! The run of `verify --summary`: how many problems of a file have each code.
ghost use Rattle.std.specs.Prelude.{◌≡◌, ◌++◌, ◌≤◌, length, IfOk, IfErr, OnOk};
ghost use Rattle.std.specs.List.{find};
ghost use Rattle.fits_tell.specs.Summary.{code_line, code_lines, count_line, count_of, has_number, summary_text};
ghost use Rattle.fits_tell.specs.Telling.{TextIsTold, TextStopsBy};
ghost use Rattle.fits_tell.specs.declared.listed.TheConstants.{LAST_NUMBER};

use crate::fault::Fault;
use crate::level::Level;
use crate::listed::{LAST_NUMBER, Listed};
use crate::listed_lines::{push_closing_line, status_of_report};
use crate::printing::print;
use crate::pushing::{push_both, push_number};
use crate::table_report::{TableReport, listed_by};
use crate::telling::Telling;
use crate::verifying::read_told;
use fits_passing::CardReport;
use fits_stream::{Sink, Source};
use std::alloc::{AllocError, Global};

/// Reads a file, and prints how many problems its report has of each code, with what is wrong with
/// tables where that is asked for: then the headers are held until it is known. The status is that of
/// the report.
pub(crate) fn summarize<F: Source, O: Sink>(
    alloc: Global,
    level: Level,
    strict: bool,
    tables: bool,
    file: &mut F,
    out: &mut O,
) -> Result<u8, Fault>
    ensures ok { IfOk result (λ status. TextIsTold (Telling.Summary level strict tables)
        (F.state file.old) (F.state file.new) (O.state out.old) (O.state out.new) status) }
    ensures err { IfErr result (TextStopsBy (Telling.Summary level strict tables)
        (F.state file.old) (F.state file.new) (O.state out.old) (O.state out.new)) }
{
    let CardReport { problems, cards } = read_told(alloc, tables, file)?;
    let TableReport {
        problems: report,
        headers,
    } = listed_by(alloc, tables, &problems, cards)?;
    drop(headers);
    let text = summary_text(alloc, level, &report)?;
    print(out, &text)?;
    Ok(status_of_report(strict, &report))
}

// A line for each code that a level lists, and the closing line.
fn summary_text(alloc: Global, level: Level, report: &[Listed]) -> Result<Vec<u8>, AllocError>
    ensures { IfOk result (λ text. text.items ≡ summary_text level report.now) }
{
    let mut text = Vec::new(alloc);
    push_code_lines(&mut text, level, report)?;
    push_closing_line(&mut text, report)?;
    Ok(text)
}

// A line for each code that a level lists.
fn push_code_lines(text: &mut Vec<u8>, level: Level, report: &[Listed]) -> Result<(), AllocError>
    ensures { OnOk result (text.new.items
        ≡ text.old.items ++ code_lines level report.now LAST_NUMBER) }
{
    for before in 0..LAST_NUMBER {
        push_code_line(text, level, report, before + 1)?;
    }
    Ok(())
}

// The line of the code of this number, where something has it and the level lists it.
fn push_code_line(
    text: &mut Vec<u8>,
    level: Level,
    report: &[Listed],
    number: u8,
) -> Result<(), AllocError>
    ensures { OnOk result (text.new.items ≡ text.old.items
        ++ code_line level (count_of number report.now) (find (has_number number) report.now)) }
{
    let Some(it) = first_of(number, report) else {
        return Ok(());
    };
    if it.is_listed_at(level) {
        push_count(text, it, count_of(number, report))?;
    }
    Ok(())
}

// `CODE COUNT TEXT`, by one that has the code
#[tactic(auto, unfolding(crate::specs::Summary::count_line))]
fn push_count(text: &mut Vec<u8>, it: Listed, count: usize) -> Result<(), AllocError>
    ensures { OnOk result (text.new.items ≡ text.old.items ++ count_line it count) }
{
    text.extend_from_slice(it.label().as_bytes())?;
    push_number(text, b" ", count as u64)?;
    push_both(text, b" ", it.text().as_bytes())?;
    text.extend_from_slice(b"\n")
}

// The first that has the code of this number, if one has.
fn first_of(number: u8, report: &[Listed]) -> Option<Listed>
    ensures { result ≡ find (has_number number) report.now }
{
    for it in report {
        if it.number() == number {
            return Some(*it);
        }
    }
    None
}

// How many have it.
#[tactic(auto, using(crate::proofs::SummaryLemmas::count_steps))]
fn count_of(number: u8, report: &[Listed]) -> usize
    ensures value { result ≡ count_of number report.now }
    ensures within { result ≤ length report.now }
{
    let mut count = 0;
    for it in report {
        if it.number() == number {
            count += 1;
        }
    }
    count
}
