//! The report of a file, with what is wrong with its tables or without.
ghost use Rattle.std.specs.Prelude.{◌≡◌, ◌≤◌, ◌++◌, length, map, IfOk, OnOk};
ghost use Rattle.std.specs.List.{prefix_len};
ghost use Rattle.fits_passing.specs.File.{is_primary_hdu};
ghost use Rattle.fits_passing.specs.Headers.{read_cards};
ghost use Rattle.fits_tell.specs.declared.listed.Listed.TheVariants.{OfFile};
ghost use Rattle.fits_tell.specs.TableReport.{after_table, before_table, is_before_table, listed_by, of_table, with_tables};

use crate::listed::Listed;
use crate::table_problem::TableProblem;
use fits_card::CardList;
use fits_passing::Problem;
use fits_table::{TableCode, judge_table};
use std::alloc::{AllocError, Global};

/// A report, and the headers that it was made of.
#[derive(Drop)]
pub(crate) struct TableReport {
    pub problems: Vec<Listed>,
    pub headers: Vec<CardList>,
}

/// A report with what is wrong with the tables of these headers, or without.
pub(crate) fn listed_by(
    alloc: Global,
    tables: bool,
    report: &[Problem],
    headers: Vec<CardList>,
) -> Result<TableReport, AllocError>
    ensures problems { IfOk result (λ it. it.problems.items
        ≡ listed_by tables (read_cards headers.items) report.now) }
    ensures headers { IfOk result (λ it. read_cards it.headers.items ≡ read_cards headers.items) }
{
    if tables {
        return with_tables(alloc, report, headers);
    }
    let mut problems = Vec::new(alloc);
    push_problems(&mut problems, report)?;
    Ok(TableReport { problems, headers })
}

// A report with what is wrong with the tables of these headers, one of each HDU.
fn with_tables(
    alloc: Global,
    report: &[Problem],
    headers: Vec<CardList>,
) -> Result<TableReport, AllocError>
    ensures problems { IfOk result (λ it. it.problems.items
        ≡ with_tables 1 (read_cards headers.items) report.now) }
    ensures headers { IfOk result (λ it. read_cards it.headers.items ≡ read_cards headers.items) }
{
    let mut problems = Vec::new(alloc);
    let mut judged = Vec::new(alloc);
    let mut rest = report;
    for header in headers {
        let h = judged.len() + 1;
        let (before, after) = split_at_table(rest, h);
        push_problems(&mut problems, before)?;
        let table = judge_table(alloc, header, h <= 1)?;
        push_codes(&mut problems, h, &table.codes)?;
        judged.push(table.cards)?;
        rest = after;
    }
    push_problems(&mut problems, rest)?;
    Ok(TableReport {
        problems,
        headers: judged,
    })
}

// Lists problems of the file.
fn push_problems(problems: &mut Vec<Listed>, report: &[Problem]) -> Result<(), AllocError>
    ensures { OnOk result (problems.new.items ≡ problems.old.items ++ map OfFile report.now) }
{
    for it in report {
        problems.push(Listed::OfFile(*it))?;
    }
    Ok(())
}

// Lists codes of the table that HDU h is.
fn push_codes(problems: &mut Vec<Listed>, h: usize, codes: &[TableCode]) -> Result<(), AllocError>
    ensures { OnOk result (problems.new.items ≡ problems.old.items ++ map (of_table h) codes.now) }
{
    for code in codes {
        problems.push(Listed::OfTable(TableProblem {
            hdu: h,
            code: *code,
        }))?;
    }
    Ok(())
}

// The problems that are listed before those of the table that HDU h is, and the others.
fn split_at_table(report: &[Problem], h: usize) -> (&[Problem], &[Problem])
    ensures before { result.0.now ≡ before_table h report.now }
    ensures after { result.1.now ≡ after_table h report.now }
{
    report.split_at(before_len(report, h))
}

// How many there are.
fn before_len(report: &[Problem], h: usize) -> usize
    ensures value { result ≡ prefix_len (is_before_table h) report.now }
    ensures within { result ≤ length report.now }
{
    for (i, it) in report.iter().enumerate() {
        if !is_before_table(h, it) {
            return i;
        }
    }
    report.len()
}

// Whether a problem is one of them.
fn is_before_table(h: usize, it: &Problem) -> bool
    ensures { result ≡ is_before_table h it.now }
{
    it.hdu < h || (it.hdu == h && it.place == 0)
}
