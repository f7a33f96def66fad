//! Problems of a report that another hasn't, of those that a level lists.
ghost use Rattle.std.specs.Prelude.{◌≡◌, ◌+◌, ◌≤◌, ◌++◌, List, length, AllPairs, IfOk, OnOk};
ghost use Rattle.fits_passing.specs.Report.{IsListedBefore};
ghost use Rattle.fits_passing.specs.declared.problem.Problem.{Problem};
ghost use Rattle.fits_tell.specs.Report.{errors_in, warnings_in};
ghost use Rattle.fits_cli.specs.NewErrors.{is_listed_before, is_new, is_same, new_error_line, new_error_lines, new_errors, stands_in, AreCounts};

use crate::code_counts::{NUMBERS, counts_of, has_more};
use fits_session::Problem;
use fits_tell::{Level, one_if, push_problem};
use std::alloc::{AllocError, Global};

/// New problems: their lines, and how many are errors and warnings.
#[derive(Drop)]
pub(crate) struct NewErrors {
    pub text: Vec<u8>,
    pub errors: u64,
    pub warnings: u64,
}

impl NewErrors {
    ghost use Rattle.std.specs.Prelude.{◌≡◌, ◌+◌, [], nat_lt};

    /// None.
    pub(crate) fn none(alloc: Global) -> NewErrors
        ensures text { result.text.items ≡ [] }
        ensures errors { result.errors ≡ 0 }
        ensures warnings { result.warnings ≡ 0 }
    {
        NewErrors {
            text: Vec::new(alloc),
            errors: 0,
            warnings: 0,
        }
    }

    /// Whether there are any.
    pub(crate) fn are_some(&self) -> bool
        ensures { result ≡ nat_lt 0 (self.now.errors + self.now.warnings) }
    {
        self.errors > 0 || self.warnings > 0
    }
}

/// The problems of the report after that are new since the one before, of those that a level lists.
#[tactic(auto, unfolding(crate::specs::NewErrors::new_errors))]
pub(crate) fn errors_since(
    alloc: Global,
    level: Level,
    before: &[Problem],
    after: &[Problem],
) -> Result<NewErrors, AllocError>
    requires { AllPairs IsListedBefore before.now }
    ensures text { IfOk result (λ found. found.text.items
        ≡ new_error_lines (new_errors level before.now after.now)) }
    ensures errors { IfOk result (λ found. found.errors
        ≡ errors_in (new_errors level before.now after.now)) }
    ensures warnings { IfOk result (λ found. found.warnings
        ≡ warnings_in (new_errors level before.now after.now)) }
    ensures few { IfOk result (λ found. found.errors + found.warnings ≤ length after.now) }
{
    let had = counts_of(before);
    let has = counts_of(after);
    let mut text = Vec::new(alloc);
    let mut count = 0;
    let mut errors = 0;
    for it in after {
        if is_new(level, &had, &has, before, *it) {
            push_new_error(&mut text, *it)?;
            count += 1;
            errors += one_if(it.code.is_error()) as u64;
        }
    }
    Ok(NewErrors {
        text,
        errors,
        warnings: count - errors,
    })
}

// `+CODE HDU PLACE TEXT`
#[tactic(auto, unfolding(crate::specs::NewErrors::new_error_line))]
fn push_new_error(text: &mut Vec<u8>, it: Problem) -> Result<(), AllocError>
    ensures { OnOk result (text.new.items ≡ text.old.items ++ new_error_line it) }
{
    text.extend_from_slice(b"+")?;
    push_problem(text, it)
}

// Whether a problem is new, by how many of each code there were and are.
fn is_new(
    level: Level,
    had: &[usize; NUMBERS],
    has: &[usize; NUMBERS],
    before: &[Problem],
    it: Problem,
) -> bool
    requires ordered { AllPairs IsListedBefore before.now }
    requires counted { AreCounts before.now had.now }
    ensures { (after : List Problem) → AreCounts after has.now → result ≡ is_new level before.now after it }
{
    has_more(level, had, has, it.code) && !stands_in(before, it)
}

// Whether a problem stands in a report. About as many of its problems are looked at as it has
// binary digits in its length.
fn stands_in(report: &[Problem], it: Problem) -> bool
    requires { AllPairs IsListedBefore report.now }
    ensures { result ≡ stands_in report.now it }
{
    let index = report.partition_point(|other| is_listed_before(*other, it));
    match report.get(index) {
        Some(other) => is_same(it, *other),
        None => false,
    }
}

fn is_listed_before(it: Problem, other: Problem) -> bool
    ensures { result ≡ is_listed_before it other }
{
    it.hdu < other.hdu
        || (it.hdu == other.hdu
            && (it.place < other.place
                || (it.place == other.place && it.code.number() < other.code.number())))
}

fn is_same(it: Problem, other: Problem) -> bool
    ensures { result ≡ is_same it other }
{
    it.code.number() == other.code.number() && it.hdu == other.hdu && it.place == other.place
}
