//! Streams over memory that behave by a plan.
ghost use Rattle.std.specs.Prelude.{None, Some};

use fits_stream::{FileSource, Stored, Watched};
use std::alloc::Global;
use std::io;
use std::io::{Error, ErrorKind, Read, Write};

/// What a stream does.
#[derive(Clone, Copy)]
pub struct Plan {
    /// How many bytes a call moves at most.
    pub step: usize,
    /// The call that fails, from 1. At 0 none does.
    pub failing: usize,
}

/// No call fails, and each moves all that it can.
pub const SMOOTH: Plan = Plan {
    step: 1_000_000,
    failing: 0,
};

/// Bytes in memory, read by a plan.
#[derive(Drop)]
pub struct PlannedReader<'a> {
    rest: &'a [u8],
    plan: Plan,
    pub calls: usize,
}

impl Read for PlannedReader<'_> {
    fn read(&mut self, buf: &mut [u8]) -> io::Result<usize> {
        self.calls = self.calls.wrapping_add(1);
        if self.calls == self.plan.failing {
            return Err(Error::from(ErrorKind::Interrupted));
        }
        let count = buf.len().min(self.rest.len()).min(self.plan.step);
        let (piece, rest) = self.rest.split_at(count);
        let (front, _) = buf.split_at_mut(count);
        front.copy_from_slice(piece);
        self.rest = rest;
        Ok(count)
    }
}

pub fn reader(bytes: &[u8], plan: Plan) -> Watched<PlannedReader<'_>> {
    Watched::new(PlannedReader {
        rest: bytes,
        plan,
        calls: 0,
    })
}

/// Bytes in memory that have places, of which so many are known to be there. A read from this place on fails.
#[derive(Drop)]
pub struct StoredBytes<'a> {
    bytes: &'a [u8],
    known: usize,
    failing: usize,
}

impl Stored for StoredBytes<'_> {
    ghost bytes = { λ it. Some it.bytes.now };

    fn known_len(&self) -> u64 {
        self.known.min(self.bytes.len()) as u64
    }

    fn read_from(&self, buffer: &mut [u8], place: u64) -> io::Result<usize> {
        if self.failing <= place as usize {
            return Err(Error::from(ErrorKind::Interrupted));
        }
        let start = (place as usize).min(self.bytes.len());
        let (_, rest) = self.bytes.split_at(start);
        let count = buffer.len().min(rest.len()).min(self.failing - start);
        let (piece, _) = rest.split_at(count);
        let (front, _) = buffer.split_at_mut(count);
        front.copy_from_slice(piece);
        Ok(count)
    }
}

/// It isn't read as a stream.
impl Read for StoredBytes<'_> {
    fn read(&mut self, _buf: &mut [u8]) -> io::Result<usize> {
        Ok(0)
    }
}

/// No read of them fails.
pub fn stored_bytes(bytes: &[u8], known: usize) -> StoredBytes<'_> {
    StoredBytes {
        bytes,
        known,
        failing: usize::MAX,
    }
}

/// Each read from this place on fails.
pub fn broken_bytes(bytes: &[u8], failing: usize) -> StoredBytes<'_> {
    StoredBytes {
        bytes,
        known: bytes.len(),
        failing,
    }
}

pub fn stored(bytes: &[u8], known: usize) -> FileSource<StoredBytes<'_>> {
    FileSource::stored(stored_bytes(bytes, known))
}

/// Bytes that are written by a plan.
#[derive(Drop)]
pub struct PlannedWriter {
    written: Vec<u8>,
    plan: Plan,
    calls: usize,
}

impl PlannedWriter {
    /// What was written, and how many calls there were, flushes too.
    pub fn into_parts(self) -> (Vec<u8>, usize) {
        (self.written, self.calls)
    }

    // Counts one call more, and says whether it is the one that fails.
    fn fails(&mut self) -> bool {
        self.calls = self.calls.wrapping_add(1);
        self.calls == self.plan.failing
    }
}

impl Write for PlannedWriter {
    fn write(&mut self, buf: &[u8]) -> io::Result<usize> {
        if self.fails() {
            return Err(Error::from(ErrorKind::Interrupted));
        }
        let (piece, _) = buf.split_at(buf.len().min(self.plan.step));
        self.written.extend_from_slice(piece)?;
        Ok(piece.len())
    }

    fn flush(&mut self) -> io::Result<()> {
        if self.fails() {
            return Err(Error::from(ErrorKind::Interrupted));
        }
        Ok(())
    }
}

pub fn writer(alloc: Global, plan: Plan) -> Watched<PlannedWriter> {
    Watched::new(PlannedWriter {
        written: Vec::new(alloc),
        plan,
        calls: 0,
    })
}
