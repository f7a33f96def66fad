//! Where remarks on the lines of a script go.
use crate::noted::Noted;
use crate::subject::Subject;
use fits_stream::{NamedLines, Watched};
use std::alloc::{AllocError, Global};
use std::io;
use std::io::BufWriter;

/// Remarks, with the program's name before each, and a file's where several are told apart.
pub type Remarks<'n> = NamedLines<'n, Watched<BufWriter<Noted<'n>>>>;

/// What stands before each remark on a script over a file; nothing where none are made.
pub fn before_remarks(alloc: Global, subject: Subject<'_>) -> Result<String, AllocError> {
    if !subject.detail.tells() {
        return Ok(String::new(alloc));
    }
    if subject.named {
        format!(in alloc; "fitsed: {}: ", subject.name)
    } else {
        format!(in alloc; "fitsed: ")
    }
}

/// Remarks after this text, where they are made.
pub fn remarks_after<'n>(
    alloc: Global,
    subject: Subject<'n>,
    before: &'n str,
) -> io::Result<Option<Remarks<'n>>> {
    let Some(noted) = subject.detail.remarks() else {
        return Ok(None);
    };
    let sink = BufWriter::new(alloc, noted)?;
    Ok(Some(NamedLines::new(Watched::new(sink), before.as_bytes())))
}
