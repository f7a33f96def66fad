//! What more is told of a fault, after the line that programs read.
use crate::subject::Subject;
use crate::unopened::explain_unopened;
use fits_cli::Fault;
use fits_session::OpenFault;
use std::fs::File;
use std::io::Read;
use std::rt::Files;
use std::{fs, io};

/// What standard input is named.
pub const INPUT: &str = "standard input";

/// What a file begins with that gzip compressed.
const GZIP: [u8; 2] = [0x1f, 0x8b];

/// What standard output is named.
pub const OUTPUT: &str = "standard output";

/// Tells more of the fault of a file: which call failed, and why, where that is found at a second
/// look. Where the file isn't to blame, it was `other` that couldn't be read.
pub fn explain<R: Files<File = File> + Eprint + AllocGlobal>(
    rt: &R,
    subject: Subject<'_>,
    other: &str,
    fault: Fault,
) {
    if !subject.detail.tells() {
        return;
    }
    match fault {
        Fault::ReadFailed => explain_read(rt, subject.name, other),
        Fault::WriteFailed => tell_call(rt, OUTPUT, "write"),
        Fault::Refused(OpenFault::NotFits) => explain_not_fits(rt, subject),
        Fault::Refused(why) => explain_unopened(rt, subject.name, why),
        _ => {}
    }
}

/// Tells why a file can't be read. Where that isn't found at a second look, it was `other` that
/// couldn't be.
pub fn explain_read<R: Files<File = File> + Eprint + AllocGlobal>(rt: &R, path: &str, other: &str) {
    match front_of(rt, path) {
        Ok(_) => tell_call(rt, other, "read"),
        Err(error) => tell_cause(rt, path, error),
    }
}

/// Tells that a call failed of which no cause is known.
pub fn tell_call<R: Eprint>(rt: &R, path: &str, call: &str) {
    let _ = eprintln!(rt; "fitsed: {path}: a {call} failed");
}

/// Tells why a call failed, in the system's words without their number.
pub fn tell_cause<R: Eprint + AllocGlobal>(rt: &R, path: &str, error: io::Error) {
    let Ok(text) = format!(in rt.alloc(); "{error}") else {
        return;
    };
    let _ = eprintln!(rt; "fitsed: {path}: {}", words_of(text.as_str()));
}

// What an error says, without the number that the system gives it.
fn words_of(error: &str) -> &str {
    match error.split_once(" (os error ") {
        Some((words, _)) => words,
        None => error,
    }
}

// Tells of a file that begins with no SIMPLE what it is, where that is seen.
fn explain_not_fits<R: Files<File = File> + Eprint>(rt: &R, subject: Subject<'_>) {
    let path = subject.name;
    let Ok(front) = front_of(rt, path) else {
        return;
    };
    if front.len == 0 {
        let _ = eprintln!(rt; "fitsed: {path}: the file is empty");
    } else if front.bytes == GZIP {
        tell_gzip(rt, path, subject.detail.command);
    }
}

// Tells how a compressed file goes to a command.
fn tell_gzip<R: Eprint>(rt: &R, path: &str, command: &str) {
    let out = if command == "edit" { " OUT" } else { "" };
    let _ = eprintln!(rt;
        "fitsed: {path}: compressed by gzip: gzip -dc {path} | fitsed {command} /dev/stdin{out}"
    );
}

/// The first bytes of a file, as many as there are.
#[derive(Clone, Copy)]
struct Front {
    bytes: [u8; 2],
    len: usize,
}

// The front of a file, or why there is none. A pipe and a device aren't read: they would have lost it
// then.
fn front_of<R: Files<File = File>>(rt: &R, path: &str) -> io::Result<Front> {
    let mut front = Front {
        bytes: [0, 0],
        len: 1,
    };
    let about = fs::metadata(rt, path)?;
    if about.is_file() || about.is_dir() {
        front.len = fs::open(rt, path)?.read(&mut front.bytes)?;
    }
    Ok(front)
}
