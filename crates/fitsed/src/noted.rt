//! Remarks, as they are counted.
use std::cell::Cell;
use std::io;
use std::io::{Stderr, Write};

/// Where remarks on lines go: to standard error, or nowhere. They are counted, one a line.
#[derive(Clone, Copy, Drop)]
pub struct Noted<'c> {
    pub errors: Option<Stderr>,
    pub lines: &'c Cell<u64>,
}

impl Write for Noted<'_> {
    fn write(&mut self, piece: &[u8]) -> io::Result<usize> {
        let taken = match &mut self.errors {
            Some(errors) => errors.write(piece)?,
            None => piece.len(),
        };
        let (front, _) = piece.split_at(taken);
        let lines = front.iter().filter(|byte| **byte == b'\n').count() as u64;
        self.lines.set(self.lines.get().saturating_add(lines));
        Ok(taken)
    }

    fn flush(&mut self) -> io::Result<()> {
        Ok(())
    }
}
