//! Bytes as a source. No call of it fails.
ghost use Rattle.std.specs.Prelude.{None, Some};

use crate::source::Source;
use std::io;
use std::io::Read;

impl Source for &[u8] {
    ghost state = { λ bytes. record { remaining = Some bytes.now; log = None; failures = 0 } };

    fn read(&mut self, buffer: &mut [u8]) -> io::Result<usize> {
        Read::read(self, buffer)
    }

    fn skip(&mut self, _buffer: &mut [u8], len: usize) -> io::Result<usize> {
        let count = len.min(self.len());
        let (_, rest) = self.split_at(count);
        *self = rest;
        Ok(count)
    }
}
