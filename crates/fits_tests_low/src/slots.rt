//! Items in slots, under changes.

use fits_card::Slotted;
use fits_fixtures::{holds, same};
use std::alloc::{AllocError, Global};
use std::process::Abort;
use std::test::Fail;

const LETTERS: &[u8] = b"abcdef";

/// From a place on, so many letters go, and these stand there instead; and what there is then.
type Splice<'a> = (usize, usize, &'a [u8], &'a [u8]);

const SPLICES: &[Splice<'static>] = &[
    (1, 0, b"xy", b"xyabcdef"),
    (7, 0, b"x", b"abcdefx"),
    (2, 1, b"", b"acdef"),
    (3, 2, b"x", b"abxef"),
    (4, 1, b"xyz", b"abcxyzef"),
    (1, 6, b"", b""),
    (3, 0, b"", b"abcdef"),
];

/// A letter's place, the place that it is moved to, and what there is then.
const MOVES: &[(usize, usize, &[u8])] = &[
    (1, 6, b"bcdefa"),
    (6, 1, b"fabcde"),
    (2, 4, b"acdbef"),
    (3, 3, b"abcdef"),
];

fn letters_in_slots(alloc: Global) -> Result<Slotted<u8>, AllocError> {
    let mut letters = Vec::new(alloc);
    letters.extend_from_slice(LETTERS)?;
    Slotted::of(alloc, letters)
}

/// Whether the letters in slots are these.
fn check_slots<R: Abort>(rt: &R, slots: &Slotted<u8>, wanted: &[u8]) {
    same!(rt; slots.len(), wanted.len(), wanted);
    for index in 0..wanted.len() {
        holds!(rt; index < slots.len(), wanted);
        same!(rt; *slots.at(index), wanted[index], wanted);
    }
}

fn check_splice<R: Abort>(rt: &R, alloc: Global, case: &Splice<'_>) -> Result<(), Fail> {
    let (place, removed, coming, wanted) = *case;
    let mut slots = letters_in_slots(alloc)?;
    slots.reserve(coming.len())?;
    holds!(rt; 1 <= place && place <= 7 && removed <= 7 - place, case);
    holds!(rt; slots.len() == 6, case);
    slots.make_room(place, removed, coming.len(), b'.');
    for index in 0..coming.len() {
        let at = place - 1 + index;
        holds!(rt; at < slots.len(), case);
        slots.set(at, coming[index]);
    }
    check_slots(rt, &slots, wanted);
    Ok(())
}

#[test]
fn letters_go_and_others_come(rt: HostRuntime) -> Result<(), Fail> {
    for case in SPLICES {
        check_splice(&rt, rt.alloc(), case)?;
    }
    Ok(())
}

fn check_move<R: Abort>(rt: &R, alloc: Global, case: &(usize, usize, &[u8])) -> Result<(), Fail> {
    let (from, to, wanted) = *case;
    let mut slots = letters_in_slots(alloc)?;
    holds!(rt; 1 <= from && from <= slots.len(), case);
    holds!(rt; 1 <= to && to <= slots.len(), case);
    slots.move_item(from, to);
    check_slots(rt, &slots, wanted);
    Ok(())
}

#[test]
fn a_letter_is_moved(rt: HostRuntime) -> Result<(), Fail> {
    for case in MOVES {
        check_move(&rt, rt.alloc(), case)?;
    }
    Ok(())
}
