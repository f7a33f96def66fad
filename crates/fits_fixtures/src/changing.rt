//! A file whose reads may disagree.
ghost use Rattle.std.specs.Prelude.{None};

use fits_stream::Stored;
use std::cell::Cell;
use std::io;

/// Bytes that have places, and others that stand there once so many reads were made. It tells none of
/// them.
#[derive(Drop)]
pub struct ChangingBytes<'a> {
    bytes: &'a [u8],
    then: &'a [u8],
    after: usize,
    reads: Cell<usize>,
}

impl<'a> ChangingBytes<'a> {
    pub fn new(bytes: &'a [u8], then: &'a [u8], after: usize) -> ChangingBytes<'a> {
        ChangingBytes {
            bytes,
            then,
            after,
            reads: Cell::new(0),
        }
    }

    /// How many reads were made.
    pub fn reads(&self) -> usize {
        self.reads.get()
    }
}

impl Stored for ChangingBytes<'_> {
    ghost bytes = { λ _. None };

    fn known_len(&self) -> u64 {
        self.bytes.len() as u64
    }

    fn read_from(&self, buffer: &mut [u8], place: u64) -> io::Result<usize> {
        let made = self.reads.get();
        self.reads.set(made.wrapping_add(1));
        let bytes = if made < self.after {
            self.bytes
        } else {
            self.then
        };
        let (_, rest) = bytes.split_at((place as usize).min(bytes.len()));
        let count = buffer.len().min(rest.len());
        let (piece, _) = rest.split_at(count);
        let (front, _) = buffer.split_at_mut(count);
        front.copy_from_slice(piece);
        Ok(count)
    }
}
