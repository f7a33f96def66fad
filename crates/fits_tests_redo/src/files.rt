//! A file of two blocks and a tail, of which an edit changes the second block.

use crate::crashing::Crashing;
use fits_redo::Plan;
use std::alloc::{AllocError, Global};

/// How many bytes it has: 16 83 in hexadecimal.
pub const FILE_LEN: u64 = 5763;

/// Its second block holds this byte, or the other once it is edited.
pub const OLD: u8 = b'a';

pub const NEW: u8 = b'b';

/// The head of the redo file, by hand: an open gate, the signature, the length, one block; and the
/// index of that block.
pub const HEAD: [u8; 32] = [
    0x01, 0x46, 0x49, 0x54, 0x53, 0x45, 0x44, 0x31, 0, 0, 0, 0, 0, 0, 0x16, 0x83, 0, 0, 0, 0, 0, 0,
    0, 1, 0, 0, 0, 0, 0, 0, 0, 1,
];

/// The file whose second block holds a byte.
pub fn file_of(alloc: Global, byte: u8) -> Result<Vec<u8>, AllocError> {
    let mut file = Vec::from_slice(alloc, &[b' '; 2880])?;
    file.extend_from_slice(&[byte; 2880])?;
    file.extend_from_slice(b"end")?;
    Ok(file)
}

/// The redo file of the edit, behind this head.
pub fn redo_of(alloc: Global, head: &[u8; 32]) -> Result<Vec<u8>, AllocError> {
    let mut redo = Vec::from_slice(alloc, head)?;
    redo.extend_from_slice(&[OLD; 2880])?;
    redo.extend_from_slice(&[NEW; 2880])?;
    Ok(redo)
}

/// The plan of the edit.
pub fn plan_of(alloc: Global) -> Result<Plan, AllocError> {
    let mut plan = Plan::new(alloc, FILE_LEN);
    plan.pass(0, &[b' '; 2880], &[b' '; 2880])?;
    plan.pass(1, &[OLD; 2880], &[NEW; 2880])?;
    Ok(plan)
}

/// These files, of which a call fails after so many.
pub fn crashing(alloc: Global, file: Vec<u8>, redo: Option<Vec<u8>>, calls: usize) -> Crashing {
    Crashing {
        alloc,
        file,
        redo,
        calls,
        broken: false,
    }
}
