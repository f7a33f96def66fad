//! The report of a file as the line `rep` prints it.
ghost use Rattle.std.specs.Prelude.{◌≡◌, ◌++◌, ◌≤◌, [], length, IfOk, OnOk};
ghost use Rattle.fits_tell.specs.Report.{closing_line, counts_line, errors_in, problem_line, problem_text, report_text};

use crate::level::Level;
use crate::pushing::{push_both, push_number};
use fits_passing::Problem;
use std::alloc::{AllocError, Global};

/// A line for each problem, and the closing line.
pub fn report_text(alloc: Global, report: &[Problem]) -> Result<Vec<u8>, AllocError>
    ensures { IfOk result (λ text. text.items ≡ report_text Level.All [] report.now) }
{
    let mut text = Vec::new(alloc);
    for it in report {
        push_problem(&mut text, *it)?;
    }
    push_closing_line(&mut text, report)?;
    Ok(text)
}

/// `CODE HDU PLACE TEXT`
pub fn push_problem(text: &mut Vec<u8>, it: Problem) -> Result<(), AllocError>
    ensures { OnOk result (text.new.items ≡ text.old.items ++ problem_line it) }
{
    push_problem_text(text, it)?;
    text.extend_from_slice(b"\n")
}

/// The same without the end of its line.
#[tactic(auto, unfolding(crate::specs::Report::problem_text))]
pub(crate) fn push_problem_text(text: &mut Vec<u8>, it: Problem) -> Result<(), AllocError>
    ensures { OnOk result (text.new.items ≡ text.old.items ++ problem_text it) }
{
    let Problem { hdu, place, code } = it;
    text.extend_from_slice(code.label().as_bytes())?;
    push_number(text, b" ", hdu as u64)?;
    push_number(text, b" ", place as u64)?;
    push_both(text, b" ", code.text().as_bytes())
}

// The closing line: it counts all problems.
fn push_closing_line(text: &mut Vec<u8>, report: &[Problem]) -> Result<(), AllocError>
    ensures { OnOk result (text.new.items ≡ text.old.items ++ closing_line report.now) }
{
    let errors = count_errors(report);
    push_counts(text, errors, report.len() - errors)
}

/// `errors N warnings M`
#[tactic(auto, unfolding(crate::specs::Report::counts_line))]
pub(crate) fn push_counts(
    text: &mut Vec<u8>,
    errors: usize,
    warnings: usize,
) -> Result<(), AllocError>
    ensures { OnOk result (text.new.items ≡ text.old.items ++ counts_line errors warnings) }
{
    push_number(text, b"errors ", errors as u64)?;
    push_number(text, b" warnings ", warnings as u64)?;
    text.extend_from_slice(b"\n")
}

#[tactic(auto, using(crate::proofs::ReportLemmas::count_steps))]
fn count_errors(report: &[Problem]) -> usize
    ensures value { result ≡ errors_in report.now }
    ensures within { result ≤ length report.now }
{
    let mut errors = 0;
    for it in report {
        if it.code.is_error() {
            errors += 1;
        }
    }
    errors
}
