//! The runs of the program over streams in memory, and what came of them.

use crate::digest::Digest;
use crate::memory::Stored;
use fits_card::Watched;
use fits_cli::{End, Level, Telling, run_edit, run_telling};
use std::alloc::Global;
use std::io;
use std::io::{BufWriter, Read, Write};

/// What is wrong with a file.
pub const REPORT: Telling = Telling::Report {
    level: Level::All,
    strict: false,
    cards: false,
    tables: false,
};

/// Its errors alone.
pub const ERRORS: Telling = Telling::Report {
    level: Level::Errors,
    strict: false,
    cards: false,
    tables: false,
};

/// What runs came to.
#[derive(Clone, Copy)]
pub struct Outcome {
    pub runs: u64,
    /// The bytes that were printed and saved.
    pub bytes: u64,
    pub digest: u64,
}

impl Outcome {
    pub fn new() -> Outcome {
        Outcome {
            runs: 0,
            bytes: 0,
            digest: 0,
        }
    }

    /// Adds what a run printed or saved.
    pub fn add(&mut self, digest: &Digest) {
        self.bytes = self.bytes.wrapping_add(digest.len);
        self.digest = self.digest.rotate_left(7).wrapping_add(digest.value());
    }

    // Adds how a run ended.
    fn end(&mut self, end: &End) {
        self.runs = self.runs.wrapping_add(1);
        let fault = u64::from(end.fault.is_some());
        let status = u64::from(end.status).wrapping_add(fault << 8);
        self.digest = self.digest.rotate_left(7).wrapping_add(status);
    }

    /// Prints a text of a file.
    pub fn tell<R: Read + Drop>(
        &mut self,
        alloc: Global,
        telling: Telling,
        file: R,
    ) -> io::Result<()> {
        let mut out = Watched::new(BufWriter::new(alloc, Digest::new())?);
        let end = run_telling(alloc, telling, &mut Watched::new(file), &mut out);
        self.end(&end);
        self.add(&inner(out.into_inner())?);
        Ok(())
    }

    /// Edits a file by a script. What is saved isn't kept.
    pub fn edit<R: Read + Drop>(
        &mut self,
        alloc: Global,
        file: R,
        script: &[u8],
    ) -> io::Result<()> {
        let saved = self.edit_to(alloc, file, script, Digest::new())?;
        self.add(&saved);
        Ok(())
    }

    /// Edits a file by a script, and gives what it was saved to.
    pub fn edit_to<R: Read + Drop, W: Write + Drop>(
        &mut self,
        alloc: Global,
        file: R,
        script: &[u8],
        saved: W,
    ) -> io::Result<W> {
        let mut out = Watched::new(BufWriter::new(alloc, Digest::new())?);
        let mut saved = Watched::new(BufWriter::new(alloc, saved)?);
        let end = run_edit(
            alloc,
            &mut Watched::new(file),
            &mut Watched::new(Stored(script)),
            &mut saved,
            &mut out,
        );
        self.end(&end);
        self.add(&inner(out.into_inner())?);
        inner(saved.into_inner())
    }
}

// What a writer writes to.
fn inner<W: Write + Drop>(writer: BufWriter<W>) -> io::Result<W> {
    match writer.into_inner() {
        Ok(stream) => Ok(stream),
        Err(error) => Err(error.into_error()),
    }
}
