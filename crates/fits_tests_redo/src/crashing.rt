//! A file and its redo file of which a call fails.
ghost use Rattle.std.specs.Prelude.{true, false};

use fits_redo::{Pair, ReadFault};
use std::alloc::Global;
use std::io;
use std::io::ErrorKind;

/// A file and its redo file in memory. After so many calls one is done in part and fails, and no
/// later one does anything. It tells nothing of what stands there.
#[derive(Drop)]
pub struct Crashing {
    pub alloc: Global,
    pub file: Vec<u8>,
    pub redo: Option<Vec<u8>>,
    pub calls: usize,
    pub broken: bool,
}

impl Crashing {
    // How much is done of a call that has so many steps.
    fn part(&mut self, steps: usize) -> usize {
        if self.calls > 0 {
            self.calls -= 1;
            return steps;
        }
        if self.broken {
            return 0;
        }
        self.broken = true;
        steps / 2
    }

    // The end of a call.
    fn ended(&self) -> io::Result<()> {
        if self.broken {
            return Err(io::Error::from(ErrorKind::Other));
        }
        Ok(())
    }
}

impl Pair for Crashing {
    ghost stands = { λ pair files. ⊥ };

    ghost may_leave = { λ pair files. ⊥ };

    ghost moment = { λ pair. 0 };

    ghost left_since = { λ pair moment files. ⊥ };

    ghost is_read = { λ pair. false };

    ghost failed = { λ pair. true };

    ghost written = { λ pair. 0 };

    ghost stays = { λ pair files never. never };

    ghost counts_now = { λ pair moment files later never. never };

    ghost only_now = { λ pair files never. never };

    fn len(&self) -> io::Result<u64> {
        Ok(self.file.len() as u64)
    }

    fn read_block(&self, index: u64) -> io::Result<[u8; 2880]> {
        let mut chunks = self.file.as_slice();
        for _ in 0..index {
            let Some((_, rest)) = chunks.split_first_chunk::<2880>() else {
                break;
            };
            chunks = rest;
        }
        match chunks.split_first_chunk::<2880>() {
            Some((block, _)) => Ok(*block),
            None => Err(io::Error::from(ErrorKind::UnexpectedEof)),
        }
    }

    fn read_redo(&self, alloc: Global) -> Result<Option<Vec<u8>>, ReadFault> {
        let Some(redo) = &self.redo else {
            return Ok(None);
        };
        match redo.to_vec(alloc) {
            Ok(bytes) => Ok(Some(bytes)),
            Err(_) => Err(ReadFault::Memory),
        }
    }

    fn settle(&mut self) -> io::Result<()> {
        let _ = self.part(1);
        self.ended()
    }

    fn make_redo(&mut self, head: &[u8]) -> io::Result<()> {
        if self.redo.is_some() {
            return Err(io::Error::from(ErrorKind::AlreadyExists));
        }
        let was_broken = self.broken;
        let count = self.part(head.len());
        if !was_broken {
            let (front, _) = head.split_at(count.min(head.len()));
            self.redo = Some(front.to_vec(self.alloc)?);
        }
        self.ended()
    }

    fn add_redo(&mut self, more: &[u8]) -> io::Result<()> {
        let count = self.part(more.len());
        let (front, _) = more.split_at(count.min(more.len()));
        if let Some(redo) = &mut self.redo {
            redo.extend_from_slice(front)?;
        }
        self.ended()
    }

    fn open_redo(&mut self) -> io::Result<()> {
        let count = self.part(1);
        if let (1, Some(redo)) = (count, &mut self.redo) {
            if let Some(gate) = redo.get_mut(0) {
                *gate = 1;
            }
        }
        self.ended()
    }

    fn remove_redo(&mut self) -> io::Result<()> {
        if self.part(1) == 1 {
            self.redo = None;
        }
        self.ended()
    }

    fn write_block(&mut self, index: u64, bytes: &[u8; 2880]) -> io::Result<()> {
        let count = self.part(2880);
        let begin = (index as usize).saturating_mul(2880);
        for (k, byte) in bytes.iter().enumerate() {
            if k < count {
                if let Some(place) = self.file.get_mut(begin.saturating_add(k)) {
                    *place = *byte;
                }
            }
        }
        self.ended()
    }
}
