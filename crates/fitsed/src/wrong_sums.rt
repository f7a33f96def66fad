//! Sums that are wrong before a file is edited.
use crate::files::{source_of, stored_at};
use crate::remarks::before_remarks;
use crate::subject::Subject;
use fits_cli::{Telling, run_telling};
use fits_stream::{NamedLines, Watched};
use std::fs::File;
use std::io::BufWriter;
use std::rt::Files;

/// Tells of each sum of a regular file that is wrong, which edits leave so.
pub fn tell_wrong_sums<R: Files<File = File> + AllocGlobal>(rt: &R, subject: Subject<'_>) {
    let Some(file) = stored_at(rt, subject.name) else {
        return;
    };
    let Ok(before) = before_remarks(rt.alloc(), subject) else {
        return;
    };
    let Ok(errors) = BufWriter::new(rt.alloc(), subject.detail.errors) else {
        return;
    };
    let mut told = NamedLines::new(Watched::new(errors), before.as_bytes());
    let _end = run_telling(
        rt.alloc(),
        Telling::Untouched,
        &mut source_of(file),
        &mut told,
    );
}
