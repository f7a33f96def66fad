//! Readers over bytes in memory.

use std::io;
use std::io::Read;

/// Bytes in memory, one after another.
#[derive(Drop)]
pub struct Stored<'a>(pub &'a [u8]);

impl Read for Stored<'_> {
    fn read(&mut self, buf: &mut [u8]) -> io::Result<usize> {
        let count = buf.len().min(self.0.len());
        let (piece, rest) = self.0.split_at(count);
        let (front, _) = buf.split_at_mut(count);
        front.copy_from_slice(piece);
        self.0 = rest;
        Ok(count)
    }
}

/// Bytes, and then a tile again and again, up to a length in all. The tile isn't stored twice.
#[derive(Drop)]
pub struct Tiled<'a> {
    rest: &'a [u8],
    tile: &'a [u8],
    left: usize,
}

impl<'a> Tiled<'a> {
    pub fn new(front: &'a [u8], tile: &'a [u8], tiled: usize) -> Tiled<'a> {
        Tiled {
            rest: front,
            tile,
            left: tiled.saturating_add(front.len()),
        }
    }
}

impl Read for Tiled<'_> {
    fn read(&mut self, buf: &mut [u8]) -> io::Result<usize> {
        if self.rest.is_empty() {
            self.rest = self.tile;
        }
        let count = buf.len().min(self.rest.len()).min(self.left);
        let (piece, rest) = self.rest.split_at(count);
        let (front, _) = buf.split_at_mut(count);
        front.copy_from_slice(piece);
        self.rest = rest;
        self.left = self.left.saturating_sub(count);
        Ok(count)
    }
}
