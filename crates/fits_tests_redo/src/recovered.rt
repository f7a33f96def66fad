//! What recovery makes of a redo file and of a file beside it.

use crate::files::{HEAD, NEW, OLD, crashing, file_of, redo_of};
use fits_redo::{Recovery, RedoFault, is_open, recover};
use std::test::Fail;

/// What comes of a redo file.
#[derive(Clone, Copy, PartialEq, Eq)]
enum Comes {
    Removed,
    Finished,
    Foreign,
    Changed,
}

/// The gate of a redo file, the last byte of its signature, the last of the length that it tells, how
/// many bytes of it stand there, the byte of the file's second block, and what comes of it.
const REDO_FILES: &[(u8, u8, u8, usize, u8, Comes)] = &[
    (1, b'1', 0x83, 5792, OLD, Comes::Finished),
    (1, b'1', 0x83, 5792, NEW, Comes::Finished),
    // Another program wrote the block, or the file has another length.
    (1, b'1', 0x83, 5792, b'c', Comes::Changed),
    (1, b'1', 0x84, 5792, OLD, Comes::Changed),
    // The gate isn't open.
    (0, b'1', 0x83, 5792, OLD, Comes::Removed),
    (2, b'1', 0x83, 5792, b'c', Comes::Removed),
    (0, b'1', 0x83, 100, OLD, Comes::Removed),
    // No more than a head.
    (1, b'1', 0x83, 24, OLD, Comes::Removed),
    (9, b'9', 0x83, 3, OLD, Comes::Removed),
    (1, b'1', 0x83, 0, OLD, Comes::Removed),
    // No redo file.
    (1, b'1', 0x83, 25, OLD, Comes::Foreign),
    (1, b'1', 0x83, 5791, OLD, Comes::Foreign),
    (1, b'1', 0x83, 5793, OLD, Comes::Foreign),
    (1, b'2', 0x83, 5792, OLD, Comes::Foreign),
    (0, b'2', 0x83, 5792, OLD, Comes::Foreign),
];

#[test]
fn a_redo_file_is_acted_on_or_refused(rt: HostRuntime) -> Result<(), Fail> {
    let alloc = rt.alloc();
    for (gate, signature, low, count, byte, wanted) in REDO_FILES {
        let mut head = HEAD;
        head[0] = *gate;
        head[7] = *signature;
        head[15] = *low;
        let mut redo = redo_of(alloc, &head)?;
        redo.push(0)?;
        redo.truncate(*count);
        let opened = is_open(&redo);
        let mut pair = crashing(alloc, file_of(alloc, *byte)?, Some(redo), 99);
        let (comes, then) = match recover(alloc, &mut pair) {
            Ok(Recovery::Removed) => (Comes::Removed, *byte),
            Ok(_) => (Comes::Finished, NEW),
            Err(RedoFault::Foreign) => (Comes::Foreign, *byte),
            Err(_) => (Comes::Changed, *byte),
        };
        assert!(rt; comes == *wanted, "{gate} {signature} {low} {count} {byte}");
        assert!(rt;
            pair.file.as_slice() == file_of(alloc, then)?.as_slice(),
            "{gate} {signature} {count}"
        );
        let is_left = matches!(comes, Comes::Foreign | Comes::Changed);
        assert!(rt;
            pair.redo.is_some() == is_left,
            "{gate} {signature} {low} {count}"
        );
        let is_told = *gate == 1 && *signature == b'1' && *count > 24;
        assert!(rt; opened == is_told, "{gate} {signature} {count}");
    }
    Ok(())
}
