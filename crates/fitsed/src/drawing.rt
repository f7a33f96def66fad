//! The script that makes the headers of one file those of another.
use crate::comparing::reported_name;
use crate::detail::Detail;
use crate::files::{is_stored, source_of};
use crate::reporting::{NOT_TAKEN, reported};
use crate::unfinished::{NOT_DONE, is_unfinished};
use fits_cli::Fault;
use fits_passing::Look;
use fits_patch::{PatchEnd, PatchFault, run_patch};
use fits_session::{ReadFileFault, Session};
use fits_stream::{ReadLog, Sink, Source, Watched};
use std::alloc::{AllocError, Global};
use std::fs::File;
use std::io::BufWriter;
use std::rt::Files;
use std::{fs, io};

/// Prints it.
pub fn draw<R: Files<File = File> + Print + Eprint + AllocGlobal>(
    rt: &R,
    first: &str,
    second: &str,
    detail: Detail<'_>,
) -> u8 {
    let Ok(mut out) = BufWriter::new(rt.alloc(), io::writer(rt)) else {
        return reported(rt, Fault::Memory);
    };
    if is_unfinished(rt, first) || is_unfinished(rt, second) {
        return NOT_DONE;
    }
    let Ok(a) = fs::open(rt, first) else {
        return reported_name(rt, first, detail, Fault::ReadFailed);
    };
    let Ok(b) = fs::open(rt, second) else {
        return reported_name(rt, second, detail, Fault::ReadFailed);
    };
    match drawn(rt.alloc(), a, b, &mut Watched::new(&mut out)) {
        Ok(
            PatchEnd {
                status,
                fault: None,
            },
        ) => status,
        Ok(
            PatchEnd {
                fault: Some(why),
                ..
            },
        ) => undrawn(rt, second, detail, why),
        Err(why) => reported_name(rt, first, detail, Fault::from(why)),
    }
}

// Opens the first file, and prints the script; the data of a regular one stay where they are.
fn drawn<O: Sink>(alloc: Global, a: File, b: File, out: &mut O) -> Result<PatchEnd, ReadFileFault> {
    let mut b = source_of(b);
    if is_stored(&a) {
        let session = Session::read_stored(alloc, Look::Headers, &a, &mut ReadLog::none())?;
        session.is_sound();
        return Ok(run_patch(alloc, session, &mut b, out));
    }
    drawn_through(alloc, &mut Watched::new(a), &mut b, out)
}

// The same of a file that is read through.
fn drawn_through<A: Source, B: Source, O: Sink>(
    alloc: Global,
    a: &mut A,
    b: &mut B,
    out: &mut O,
) -> Result<PatchEnd, ReadFileFault> {
    let session = Session::read(alloc, a)?;
    Ok(run_patch(alloc, session, b, out))
}

// Reports why there is no script, and gives the status.
fn undrawn<R: Files<File = File> + Eprint + AllocGlobal>(
    rt: &R,
    second: &str,
    detail: Detail<'_>,
    why: PatchFault,
) -> u8 {
    let _ = match why {
        PatchFault::Second(why) => return reported_name(rt, second, detail, Fault::from(why)),
        PatchFault::Memory => return reported(rt, Fault::Memory),
        PatchFault::WriteFailed => return reported(rt, Fault::WriteFailed),
        PatchFault::OtherCount => {
            eprintln!(rt; "fitsed: no script: the files have other numbers of HDUs")
        }
        PatchFault::Unlike => eprintln!(rt; "fitsed: no script: the cards would be others"),
        PatchFault::Unmade { line, why } => {
            let Ok(line) = shown(rt.alloc(), &line) else {
                return reported(rt, Fault::Memory);
            };
            match why {
                Some(why) => eprintln!(rt; "fitsed: no script: {line}: {why}"),
                None => eprintln!(rt; "fitsed: no script: {line}: not a command"),
            }
        }
    };
    NOT_TAKEN
}

// A line, with a question mark for each byte that isn't text.
fn shown(alloc: Global, line: &[u8]) -> Result<String, AllocError> {
    let mut text = String::new(alloc);
    for byte in line {
        text.push(match *byte {
            b' '..=b'~' => char::from(*byte),
            _ => '?',
        })?;
    }
    Ok(text)
}
