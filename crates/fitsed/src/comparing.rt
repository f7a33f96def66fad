//! What is done with two files that are compared.
use crate::detail::Detail;
use crate::files::source_of;
use crate::reporting::{reported, reported_of};
use crate::subject::Subject;
use crate::unfinished::{NOT_DONE, is_unfinished};
use fits_cli::Fault;
use fits_diff::{DiffFault, run_diff};
use fits_stream::Watched;
use std::fs::File;
use std::io::BufWriter;
use std::rt::Files;
use std::{fs, io};

/// Prints what differs in two files.
pub fn compare<R: Files<File = File> + Print + Eprint + AllocGlobal>(
    rt: &R,
    first: &str,
    second: &str,
    detail: Detail<'_>,
) -> u8 {
    let Ok(mut out) = BufWriter::new(rt.alloc(), io::writer(rt)) else {
        return reported(rt, Fault::Memory);
    };
    if is_unfinished(rt, first) || is_unfinished(rt, second) {
        return NOT_DONE;
    }
    let Ok(a) = fs::open(rt, first) else {
        return reported_name(rt, first, detail, Fault::ReadFailed);
    };
    let Ok(b) = fs::open(rt, second) else {
        return reported_name(rt, second, detail, Fault::ReadFailed);
    };
    let mut out = Watched::new(&mut out);
    let end = run_diff(rt.alloc(), &mut source_of(a), &mut source_of(b), &mut out);
    match end.fault {
        None => end.status,
        Some(DiffFault::Second(why)) => reported_name(rt, second, detail, Fault::from(why)),
        Some(why) => reported_name(rt, first, detail, why.told()),
    }
}

/// Reports the fault of one of two files, and gives its status.
pub fn reported_name<R: Files<File = File> + Eprint + AllocGlobal>(
    rt: &R,
    name: &str,
    detail: Detail<'_>,
    fault: Fault,
) -> u8 {
    let named = !matches!(fault, Fault::Memory | Fault::WriteFailed);
    let subject = Subject {
        name,
        named,
        detail,
    };
    reported_of(rt, subject, name, fault)
}
