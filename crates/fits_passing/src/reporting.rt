//! The report of a file.
ghost use Rattle.std.specs.Prelude.{◌≡◌, ◌++◌, ◌+◌, length, map, List, ℕ, IfOk, IfErr, OnOk};
ghost use Rattle.fits_stream.specs.Stream.{StaysQuiet};
ghost use Rattle.fits_header.specs.Findings.{found_at};
ghost use Rattle.fits_passing.specs.ExtensionName.{name_codes};
ghost use Rattle.fits_passing.specs.File.{FileParts, IsFileOf, is_followed};
ghost use Rattle.fits_passing.specs.Reading.{is_found, GaveFault, GaveWhole, KeepsEach, ReadStops};
ghost use Rattle.fits_passing.specs.NameCounts.{IsTableOf};
ghost use Rattle.fits_passing.specs.Report.{found_from, found_names, in_hdu, report_of, trailing, IsReportOf};

use crate::findings::Findings;
use crate::name_counts::NameCounts;
use crate::problem::Problem;
use crate::read_file_fault::ReadFileFault;
use crate::walking::read_kept;
use fits_codes::{Code, CodeSet};
use fits_header::Finding;
use fits_stream::{Reach, Source};
use std::alloc::{AllocError, Global};

/// The report of the file that a source has, which is read as by `read_outlines`.
///
/// No data unit and no tail is kept.
pub fn read_report<R: Source>(alloc: Global, source: &mut R) -> Result<Vec<Problem>, ReadFileFault>
    ensures ok { IfOk result (λ report. GaveWhole (R.state source.old) (R.state source.new) (IsReportOf report.items)) }
    ensures quiet { OnOk result (StaysQuiet (R.state source.old) (R.state source.new)) }
    ensures err { IfErr result (ReadStops (R.state source.old) (R.state source.new)) }
    ensures gave { IfErr result (GaveFault (R.state source.old) (R.state source.new)) }
{
    let (found, followed) = read_kept::<Findings, R>(alloc, source, Reach::Piece)?;
    let report = report_of(alloc, &found, followed)?;
    Ok(report)
}

/// The report of a file, by what is found of each of its HDUs and whether bytes follow the last.
pub(crate) fn report_of(
    alloc: Global,
    found: &[Findings],
    followed: bool,
) -> Result<Vec<Problem>, AllocError>
    ensures { (bytes : List ℕ) (file : FileParts) → IsFileOf bytes file
        → KeepsEach is_found found.now file.hdus → followed ≡ is_followed file.tail
        → IfOk result (λ report. report.items ≡ report_of file) }
{
    let names = NameCounts::of(alloc, found)?;
    let mut report = problems(alloc, found, &names)?;
    push_trailing(&mut report, found.len() + 1, followed)?;
    Ok(report)
}

/// Lists that bytes follow the last HDU, where any do; they would be HDU h.
#[tactic(auto, using(crate::proofs::ReportLemmas::trailing_steps))]
pub fn push_trailing(report: &mut Vec<Problem>, h: usize, followed: bool) -> Result<(), AllocError>
    ensures { OnOk result ((tail : List ℕ) → followed ≡ is_followed tail
        → report.new.items ≡ report.old.items ++ trailing h tail) }
{
    if followed {
        report.push(Problem {
            hdu: h,
            place: 0,
            code: Code::TrailingBytes,
        })?;
    }
    Ok(())
}

// What is found of HDUs, one after another, by how many have each of their names.
fn problems(
    alloc: Global,
    found: &[Findings],
    names: &NameCounts,
) -> Result<Vec<Problem>, AllocError>
    requires { IsTableOf (found_names found.now) names.now.numbers.entries }
    ensures { IfOk result (λ report. report.items
        ≡ found_from (found_names found.now) 1 found.now) }
{
    let mut report = Vec::new(alloc);
    for (i, it) in found.iter().enumerate() {
        let repeated = names.is_repeated(&it.name);
        push_problems(&mut report, i + 1, it.whole, &it.of_cards, repeated)?;
    }
    Ok(report)
}

/// Lists what is found of HDU h: of it as a whole, that its name is repeated, if it is, and of its
/// cards.
pub fn push_problems(
    report: &mut Vec<Problem>,
    h: usize,
    whole: CodeSet,
    of_cards: &[Finding],
    repeated: bool,
) -> Result<(), AllocError>
    ensures { OnOk result (report.new.items ≡ report.old.items ++ map (in_hdu h)
        (found_at 0 (whole ++ name_codes repeated) ++ of_cards.now)) }
{
    push_codes(report, h, whole.as_slice())?;
    if repeated {
        push_codes(report, h, &[Code::DuplicateExtension])?;
    }
    push_found(report, h, of_cards)
}

// Lists codes of HDU h as a whole.
fn push_codes(report: &mut Vec<Problem>, h: usize, codes: &[Code]) -> Result<(), AllocError>
    ensures { OnOk result (report.new.items
        ≡ report.old.items ++ map (in_hdu h) (found_at 0 codes.now)) }
{
    for code in codes {
        report.push(Problem {
            hdu: h,
            place: 0,
            code: *code,
        })?;
    }
    Ok(())
}

// Lists what is found of the cards of HDU h.
fn push_found(report: &mut Vec<Problem>, h: usize, found: &[Finding]) -> Result<(), AllocError>
    ensures { OnOk result (report.new.items ≡ report.old.items ++ map (in_hdu h) found.now) }
{
    for finding in found {
        report.push(Problem {
            hdu: h,
            place: finding.place,
            code: finding.code,
        })?;
    }
    Ok(())
}
