//! Problems of tables that another report hasn't, of those that a level lists.
ghost use Rattle.std.specs.Prelude.{◌≡◌, ◌+◌, ◌<◌, ◌≤◌, ◌^◌, ◌++◌, ◌∷◌, [], if◌then◌else◌, length, IfOk, OnOk};
ghost use Rattle.std.specs.List.{list_any};
ghost use Rattle.fits_cli.specs.NewTables.{is_new_table, is_of_table_code, is_same_table, new_table_line, new_table_lines, new_tables, table_count, table_errors, table_warnings};

use crate::new_errors::NewErrors;
use fits_table::TableCode;
use fits_tell::{Level, Listed, TableProblem, push_table_problem};
use std::alloc::{AllocError, Global};

/// The problems of the report after that are new since the one before, of those that a level lists,
/// beside others that are: their lines come last.
pub(crate) fn add_tables(
    alloc: Global,
    level: Level,
    found: NewErrors,
    before: &[TableProblem],
    after: &[TableProblem],
) -> Result<NewErrors, AllocError>
    requires { found.errors + found.warnings < 2 ^ 63 }
    ensures text { IfOk result (λ it. it.text.items
        ≡ found.text.items ++ new_table_lines (new_tables level before.now after.now)) }
    ensures errors { IfOk result (λ it. it.errors
        ≡ found.errors + table_errors (new_tables level before.now after.now)) }
    ensures warnings { IfOk result (λ it. it.warnings
        ≡ found.warnings + table_warnings (new_tables level before.now after.now)) }
{
    let NewErrors {
        mut text,
        errors,
        warnings,
    } = found;
    let new = new_tables(alloc, level, before, after)?;
    push_lines(&mut text, &new)?;
    let more = count_errors(&new);
    Ok(NewErrors {
        text,
        errors: errors + more as u64,
        warnings: warnings + (new.len() - more) as u64,
    })
}

// The new ones.
fn new_tables(
    alloc: Global,
    level: Level,
    before: &[TableProblem],
    after: &[TableProblem],
) -> Result<Vec<TableProblem>, AllocError>
    ensures { IfOk result (λ new. new.items ≡ new_tables level before.now after.now) }
{
    let mut new = Vec::new(alloc);
    for it in after {
        push_if(&mut new, is_new(level, before, after, *it), *it)?;
    }
    Ok(new)
}

// Adds a problem, where it is wanted.
fn push_if(report: &mut Vec<TableProblem>, wanted: bool, it: TableProblem) -> Result<(), AllocError>
    ensures { OnOk result (report.new.items
        ≡ report.old.items ++ (if wanted then it ∷ [] else [])) }
{
    if wanted {
        report.push(it)?;
    }
    Ok(())
}

// Whether a problem is new.
#[tactic(auto, unfolding(crate::specs::NewTables::is_new_table))]
fn is_new(level: Level, before: &[TableProblem], after: &[TableProblem], it: TableProblem) -> bool
    ensures { result ≡ is_new_table level before.now after.now it }
{
    Listed::OfTable(it).is_listed_at(level)
        && (count_of(it.code, before) < count_of(it.code, after) && !stands_in(before, it))
}

// How many problems of a report are of a code.
#[tactic(auto, using(crate::proofs::NewTableLemmas::count_steps))]
fn count_of(code: TableCode, report: &[TableProblem]) -> usize
    ensures value { result ≡ table_count code report.now }
    ensures within { result ≤ length report.now }
{
    let mut count = 0;
    for it in report {
        if is_of_code(code, *it) {
            count += 1;
        }
    }
    count
}

fn is_of_code(code: TableCode, it: TableProblem) -> bool
    ensures { result ≡ is_of_table_code code it }
{
    it.code.number() == code.number()
}

// Whether a problem stands in a report.
fn stands_in(report: &[TableProblem], it: TableProblem) -> bool
    ensures { result ≡ list_any (is_same_table it) report.now }
{
    report.iter().any(|other| is_same(it, *other))
}

fn is_same(it: TableProblem, other: TableProblem) -> bool
    ensures { result ≡ is_same_table it other }
{
    it.code.number() == other.code.number() && it.hdu == other.hdu
}

// How many errors there are.
#[tactic(auto, using(crate::proofs::NewTableLemmas::error_steps))]
fn count_errors(report: &[TableProblem]) -> usize
    ensures value { result ≡ table_errors report.now }
    ensures within { result ≤ length report.now }
{
    let mut errors = 0;
    for it in report {
        if it.code.is_error() {
            errors += 1;
        }
    }
    errors
}

// Adds the lines of problems.
fn push_lines(text: &mut Vec<u8>, report: &[TableProblem]) -> Result<(), AllocError>
    ensures { OnOk result (text.new.items ≡ text.old.items ++ new_table_lines report.now) }
{
    for it in report {
        push_line(text, *it)?;
    }
    Ok(())
}

// `+CODE HDU 0 TEXT`
#[tactic(auto, unfolding(crate::specs::NewTables::new_table_line))]
fn push_line(text: &mut Vec<u8>, it: TableProblem) -> Result<(), AllocError>
    ensures { OnOk result (text.new.items ≡ text.old.items ++ new_table_line it) }
{
    text.extend_from_slice(b"+")?;
    push_table_problem(text, it)
}
