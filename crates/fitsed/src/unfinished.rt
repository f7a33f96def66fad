//! Edits in a file itself that were broken off.
use crate::explaining::tell_cause;
use crate::reporting::{named_fault, reported};
use crate::saved_end::Told;
use crate::subject::Subject;
use fits_cli::{End, Fault, Reread};
use fits_redo::{OpenFault, Recovery, RedoFault, System, is_broken_off, recover};
use std::fs::File;
use std::io;
use std::io::ErrorKind;
use std::rt::Files;

/// The status of a file that can't be read as it is, or that isn't written.
pub const NOT_DONE: u8 = 3;

/// The end of a file that can't be read as it is: standard error was told why.
const UNFINISHED: End = End {
    status: NOT_DONE,
    fault: None,
};

/// How a run ends over the file at a path of which an edit was broken off, so that some of its blocks
/// may be old ones and others new, or where that can't be seen. Standard error is told then, but of
/// memory that ran out.
pub fn unfinished_end<R: Files<File = File> + Eprint + AllocGlobal>(
    rt: &R,
    path: &str,
) -> Option<End> {
    match is_broken_off(rt, path) {
        Ok(false) => None,
        Ok(true) => {
            report_unfinished(rt, path);
            Some(UNFINISHED)
        }
        Err(error) if error.kind() == ErrorKind::OutOfMemory => Some(End::from(Fault::Memory)),
        Err(error) => {
            report_unseen(rt, path, error);
            Some(UNFINISHED)
        }
    }
}

/// Whether a run over the file ends so. Standard error was told of it all then.
pub fn is_unfinished<R: Files<File = File> + Eprint + AllocGlobal>(rt: &R, path: &str) -> bool {
    match unfinished_end(rt, path) {
        None => false,
        Some(end) => {
            if let Some(fault) = end.fault {
                let _status = reported(rt, fault);
            }
            true
        }
    }
}

/// Finishes an edit of a file that was broken off. Where it can't be finished standard error is told why.
pub fn finished_first<R: Files<File = File> + Eprint + AllocGlobal>(
    rt: &R,
    subject: Subject<'_>,
) -> Told {
    match is_broken_off(rt, subject.name) {
        Ok(false) => Told::Nothing,
        Ok(true) => match System::open(rt, subject.name) {
            Ok(mut held) => recovered(rt, subject, &mut held),
            Err(why) => reported_held(rt, subject, why),
        },
        Err(error) if error.kind() == ErrorKind::OutOfMemory => of_all(reported(rt, Fault::Memory)),
        Err(error) => {
            report_unseen(rt, subject.name, error);
            Told::OfFile
        }
    }
}

/// The same of a file that is held.
pub fn recovered<R: Files<File = File> + Eprint + AllocGlobal>(
    rt: &R,
    subject: Subject<'_>,
    held: &mut System<'_, R>,
) -> Told {
    match recover(rt.alloc(), held) {
        Ok(Recovery::Finished) if subject.detail.tells() => {
            let _ = eprintln!(rt;
                "fitsed: {}: an edit that was broken off is finished",
                subject.name
            );
            Told::Nothing
        }
        Ok(_) => Told::Nothing,
        Err(RedoFault::Changed) => {
            let _ = eprintln!(rt;
                "fitsed: {}: an edit was broken off, and the file was written since: {} has it",
                subject.name,
                held.redo_name()
            );
            Told::OfFile
        }
        Err(fault) => reported_redo(rt, subject, held.redo_name(), fault),
    }
}

/// Reports why a file isn't changed in its place, whose redo file would have this name.
pub fn reported_redo<R: Files<File = File> + Eprint + AllocGlobal>(
    rt: &R,
    subject: Subject<'_>,
    redo_name: &str,
    fault: RedoFault,
) -> Told {
    let path = subject.name;
    match fault {
        RedoFault::Memory => of_all(reported(rt, Fault::Memory)),
        RedoFault::Changed => {
            report_call(rt, subject, Fault::Reread(Reread::Changed), None);
            Told::OfFile
        }
        RedoFault::Unread(error) => {
            report_call(rt, subject, Fault::ReadFailed, Some(error));
            Told::OfFile
        }
        RedoFault::Failed(error) => {
            report_call(rt, subject, Fault::WriteFailed, Some(error));
            Told::OfAll
        }
        RedoFault::Foreign => {
            let _ = eprintln!(rt; "fitsed: {path}: {redo_name} is no file of fitsed");
            Told::OfFile
        }
        RedoFault::InPart(error) => {
            report_unfinished(rt, path);
            if subject.detail.tells() {
                tell_cause(rt, path, error);
            }
            Told::OfAll
        }
    }
}

// What is told where a fault with this status ends the edits of all files.
fn of_all(_status: u8) -> Told {
    Told::OfAll
}

/// Reports why a file can't be held.
pub fn reported_held<R: Eprint + AllocGlobal>(
    rt: &R,
    subject: Subject<'_>,
    why: OpenFault,
) -> Told {
    match why {
        OpenFault::Busy => {
            let _ = eprintln!(rt; "fitsed: {}: another run has it", subject.name);
            Told::OfFile
        }
        OpenFault::Failed(error) => {
            report_call(rt, subject, Fault::WriteFailed, Some(error));
            Told::OfFile
        }
    }
}

// Reports a call that failed, and its cause, if more is told.
fn report_call<R: Eprint + AllocGlobal>(
    rt: &R,
    subject: Subject<'_>,
    fault: Fault,
    cause: Option<io::Error>,
) {
    let _status = named_fault(rt, subject.name, subject.named, fault);
    if let (Some(error), true) = (cause, subject.detail.tells()) {
        tell_cause(rt, subject.name, error);
    }
}

// Reports that a redo file stands beside a file and can't be read, and why.
fn report_unseen<R: Eprint + AllocGlobal>(rt: &R, path: &str, error: io::Error) {
    let _ = eprintln!(rt; "fitsed: {path}: the redo file beside it can't be read");
    tell_cause(rt, path, error);
}

fn report_unfinished<R: Eprint>(rt: &R, path: &str) {
    let _ = eprintln!(rt;
        "fitsed: {path}: an edit was broken off: fitsed edit -i {path} finishes it"
    );
}
