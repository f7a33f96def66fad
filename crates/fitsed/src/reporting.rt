//! What standard error is told.
ghost use Rattle.std.specs.Prelude.{◌≡◌};
ghost use Rattle.fits_tell.specs.Faults.{status_of_fault};

use crate::detail::Detail;
use crate::explaining::{INPUT, explain, explain_read, tell_call, tell_cause};
use crate::piece::ScriptFault;
use crate::subject::Subject;
use crate::words::oddity_of;
use fits_cli::{CardPlace, Fault, FileFault, Reread};
use fits_save::{SaveFault, Saving};
use std::fs::File;
use std::rt::Files;

/// The status of words that ask for nothing, and of files that aren't taken.
pub const NOT_TAKEN: u8 = 2;

/// Reports a fault, and gives its status.
pub fn reported<R: Eprint>(rt: &R, fault: Fault) -> u8
    ensures { result ≡ status_of_fault fault }
{
    let _ = eprintln!(rt; "{fault}");
    fault.status()
}

/// Whether a fault ends a run over several files: it isn't one of the file alone.
pub fn ends_all(fault: Fault) -> bool {
    matches!(
        fault,
        Fault::Memory | Fault::WriteFailed | Fault::Reread(Reread::Memory)
    )
}

/// Reports the fault of a file, with its name where several are told apart.
pub fn reported_of<R: Files<File = File> + Eprint + AllocGlobal>(
    rt: &R,
    subject: Subject<'_>,
    other: &str,
    fault: Fault,
) -> u8
    ensures { result ≡ status_of_fault fault }
{
    let status = named_fault(rt, subject.name, subject.named, fault);
    explain(rt, subject, other, fault);
    status
}

/// Reports a fault with a name, or without.
pub fn named_fault<R: Eprint>(rt: &R, name: &str, named: bool, fault: Fault) -> u8
    ensures { result ≡ status_of_fault fault }
{
    if !named {
        return reported(rt, fault);
    }
    let _ = eprintln!(rt; "{}", FileFault { name, fault });
    fault.status()
}

/// Reports that a script isn't had.
pub fn reported_script<R: Files<File = File> + Eprint + AllocGlobal>(
    rt: &R,
    detail: Detail<'_>,
    why: ScriptFault<'_>,
) -> u8
    ensures { result ≡ status_of_fault why.entry.fault }
{
    let status = reported(rt, why.fault);
    if let (Fault::ReadFailed, true) = (why.fault, detail.tells()) {
        match why.path {
            Some(path) => explain_read(rt, path, path),
            None => tell_call(rt, INPUT, "read"),
        }
    }
    status
}

/// Reports a path that isn't UTF-8, one of several.
pub fn reported_oddity<R: Eprint>(rt: &R, oddity: &str) -> u8 {
    let _ = eprintln!(rt; "fitsed: {oddity}");
    NOT_TAKEN
}

/// Reports that an argument isn't UTF-8; and which, if more is told.
pub fn reported_odd_word<R: Eprint>(rt: &R, words: &[String], tells: bool) -> u8 {
    let _ = eprintln!(rt; "fitsed: an argument is not UTF-8");
    let first = words.iter().find_map(|word| oddity_of(word.as_str()));
    if let (Some(oddity), true) = (first, tells) {
        let _ = eprintln!(rt; "fitsed: {oddity}");
    }
    NOT_TAKEN
}

/// Reports that a result isn't saved, and gives the status.
pub fn reported_save<R: Files<File = File> + Eprint + AllocGlobal>(
    rt: &R,
    subject: Subject<'_>,
    to: &str,
    saving: Saving<'_>,
    fault: SaveFault,
) -> u8
    ensures { result ≡ 3 }
{
    let _ = match fault {
        SaveFault::Changed => {
            let changed = Fault::Reread(Reread::Changed);
            return named_fault(rt, subject.name, subject.named, changed);
        }
        SaveFault::NotWhole => {
            eprintln!(rt; "fitsed: {to}: not saved: it can't be replaced whole")
        }
        SaveFault::Stands => {
            let suffix = saving.backup.unwrap_or("");
            eprintln!(rt; "fitsed: {to}: not saved: {to}{suffix} stands there")
        }
        SaveFault::Opening(error) | SaveFault::Failed(error) | SaveFault::InPart(error) => {
            let status = named_fault(rt, subject.name, subject.named, Fault::WriteFailed);
            if subject.detail.tells() {
                tell_cause(rt, to, error);
            }
            return status;
        }
    };
    Fault::WriteFailed.status()
}

/// Reports where the whole result is that didn't get to its place.
pub fn report_beside<R: Eprint>(rt: &R, name: &str, number: u32) {
    let _ = eprintln!(rt; "fitsed: {name}: the whole result is in {name}.fitsed-{number}");
}

/// Reports that files of broken runs stand beside one.
pub fn report_left_over<R: Eprint>(rt: &R, name: &str, count: u32) {
    let _ = if count == 1 {
        eprintln!(rt; "fitsed: {name}: {name}.fitsed-0 is left of a run that was broken off")
    } else {
        let more = count.saturating_sub(1);
        eprintln!(rt;
            "fitsed: {name}: {name}.fitsed-0 and {more} more are left of runs that were broken off"
        )
    };
}

/// Reports cards that aren't printed as they are.
pub fn report_changed<R: Eprint>(rt: &R, name: &str, changed: &[CardPlace]) {
    for CardPlace { hdu, place } in changed {
        let _ = eprintln!(rt;
            "fitsed: {name}: hdu {hdu} card {place}: bytes that are not text are printed as ?"
        );
    }
}

/// Reports that a file isn't saved, since lines weren't done.
pub fn report_undone<R: Eprint>(rt: &R, name: &str, undone: u64) {
    let lines = lines_were(undone);
    let _ = eprintln!(rt; "fitsed: {name}: not saved: {undone} {lines} not done");
}

/// Reports that lines weren't done, where nobody was told why.
pub fn report_untold<R: Eprint>(rt: &R, untold: u64) {
    if untold > 0 {
        let lines = lines_were(untold);
        let _ = eprintln!(rt; "fitsed: {untold} {lines} not done: -v says why");
    }
}

fn lines_were(count: u64) -> &'static str {
    if count == 1 { "line was" } else { "lines were" }
}

/// Reports that a file isn't saved, where errors or warnings are new.
pub fn report_new<R: Eprint>(rt: &R, name: &str, errors: u64, warnings: u64) {
    let of_errors = if errors == 1 { "error" } else { "errors" };
    let of_warnings = if warnings == 1 { "warning" } else { "warnings" };
    let _ = match (errors, warnings) {
        (0, 0) => Ok(()),
        (_, 0) => eprintln!(rt; "fitsed: {name}: not saved: {errors} new {of_errors}"),
        (0, _) => eprintln!(rt; "fitsed: {name}: not saved: {warnings} new {of_warnings}"),
        _ => eprintln!(rt;
            "fitsed: {name}: not saved: {errors} new {of_errors} and {warnings} new {of_warnings}"
        ),
    };
}

/// Reports that a file is edited: its name alone, for who goes on from there.
pub fn report_done<R: Eprint>(rt: &R, name: &str) {
    let _ = eprintln!(rt; "{name}");
}

/// Reports that another file stood where one was saved.
pub fn report_replaced<R: Eprint>(rt: &R, name: &str) {
    let _ = eprintln!(rt; "fitsed: {name}: replaced");
}

/// Reports that a file was made whose name stands for a stream elsewhere.
pub fn report_made_hyphen<R: Eprint>(rt: &R) {
    let _ = eprintln!(rt; "fitsed: -: a file of this name, not standard output");
}
