//! What is wrong with the tables of a file under edits.
ghost use Rattle.std.specs.Prelude.{◌≡◌, ◌+◌, ◌^◌, ◌<◌, ◌++◌, length, IfOk, Ok, OnOk};
ghost use Rattle.fits_session.specs.Away.{LieStill};
ghost use Rattle.fits_session.specs.Query.{table_codes_in};
ghost use Rattle.fits_session.specs.Session.{absences_of, file_of, marked_of};
ghost use Rattle.fits_cli.specs.NewTables.{judged_count, problems_in, table_problems};

use fits_session::{Holder, Refusal, Session};
use fits_table::TableCode;
use fits_tell::TableProblem;
use std::alloc::{AllocError, Global};

/// The problems of its tables, where they are judged.
pub(crate) fn table_problems<H: Holder + Drop>(
    alloc: Global,
    session: &mut Session<H>,
    tables: bool,
) -> Result<Vec<TableProblem>, AllocError>
    ensures value { IfOk result (λ report. report.items
        ≡ table_problems tables (file_of session.old)) }
    ensures same { marked_of session.new ≡ marked_of session.old }
    ensures absences { absences_of session.new.hdus ≡ absences_of session.old.hdus }
    ensures stays { LieStill session.old.hdus session.new.hdus }
{
    let mut report = Vec::new(alloc);
    let count = judged_count(tables, session.hdus());
    for i in 0..count {
        let codes = codes_at(session, i)?;
        push_problems(&mut report, i + 1, &codes)?;
    }
    Ok(report)
}

// The codes of an HDU that is there, from 0.
#[tactic(auto, using(crate::proofs::TableProblemLemmas::only_memory))]
fn codes_at<H: Holder + Drop>(
    session: &mut Session<H>,
    i: usize,
) -> Result<Vec<TableCode>, AllocError>
    requires there { i < length (file_of session.old).hdus }
    requires fits { i + 1 < 2 ^ 64 }
    ensures value { IfOk result (λ codes. table_codes_in (file_of session.old) (i + 1)
        ≡ Ok codes.items) }
    ensures same { marked_of session.new ≡ marked_of session.old }
    ensures absences { absences_of session.new.hdus ≡ absences_of session.old.hdus }
    ensures stays { LieStill session.old.hdus session.new.hdus }
{
    match session.table_codes(i + 1) {
        Ok(codes) => Ok(codes),
        Err(Refusal::Memory) => Err(AllocError),
        Err(_) => unreachable!(),
    }
}

// How many of so many HDUs are judged.
fn judged_count(tables: bool, hdus: usize) -> usize
    ensures { result ≡ judged_count tables hdus }
{
    if tables { hdus } else { 0 }
}

// Adds the codes of HDU h.
fn push_problems(
    report: &mut Vec<TableProblem>,
    h: usize,
    codes: &[TableCode],
) -> Result<(), AllocError>
    ensures { OnOk result (report.new.items ≡ report.old.items ++ problems_in h codes.now) }
{
    for code in codes {
        report.push(TableProblem {
            hdu: h,
            code: *code,
        })?;
    }
    Ok(())
}
