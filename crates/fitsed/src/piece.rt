//! The pieces of a script that the command line names.
use clap::ArgMatches;
use fits_cli::{Fault, SCRIPT_LIMIT};
use std::alloc::{AllocError, Global};
use std::fs::File;
use std::io::Read;
use std::rt::Files;
use std::{fs, io};

/// A piece of a script.
#[derive(Clone, Copy)]
pub enum Piece<'a> {
    /// A line, or several, as it is typed.
    Line(&'a str),
    /// What stands in the file at a path; `-` is standard input.
    File(&'a str),
}

impl<'a> Piece<'a> {
    // The file that it stands in, if that isn't standard input.
    fn path(&self) -> Option<&'a str> {
        match *self {
            Piece::Line(_) | Piece::File("-") => None,
            Piece::File(path) => Some(path),
        }
    }
}

/// The pieces of a script, in the order in which they are typed. With none it is standard input.
pub fn pieces_of<'a>(alloc: Global, words: &ArgMatches<'a>) -> Result<Vec<Piece<'a>>, AllocError> {
    let mut lines = words.get_strs("line").unwrap_or(&[]);
    let mut line_places = words.indices_of("line").unwrap_or(&[]);
    let mut files = words.get_strs("file").unwrap_or(&[]);
    let mut file_places = words.indices_of("file").unwrap_or(&[]);
    let mut pieces = Vec::new(alloc);
    for _turn in 0..lines.len().saturating_add(files.len()) {
        let is_line = match (line_places, file_places) {
            ([line, ..], [file, ..]) => line < file,
            (_, []) => true,
            ([], _) => false,
        };
        match (lines, files) {
            ([line, more @ ..], _) if is_line => {
                pieces.push(Piece::Line(*line))?;
                lines = more;
                line_places = rest_of(line_places);
            }
            (_, [file, more @ ..]) => {
                pieces.push(Piece::File(*file))?;
                files = more;
                file_places = rest_of(file_places);
            }
            _ => {}
        }
    }
    Ok(pieces)
}

fn rest_of(places: &[usize]) -> &[usize] {
    match places {
        [_, rest @ ..] => rest,
        [] => places,
    }
}

/// Why a script isn't had: what was read then, a file or standard input.
#[derive(Clone, Copy)]
pub struct ScriptFault<'a> {
    pub fault: Fault,
    pub path: Option<&'a str>,
}

/// The pieces joined, a line feed after each that ends without one, also after an empty one; with no
/// piece standard input. No more is read than shows that the script is too long.
pub fn script_of<'a, R: Files<File = File> + Input + AllocGlobal>(
    rt: &R,
    pieces: &[Piece<'a>],
) -> Result<Vec<u8>, ScriptFault<'a>> {
    let mut text = Vec::new(rt.alloc());
    if pieces.is_empty() {
        if let Err(fault) = read_all(&mut rt.reader(), &mut text) {
            return Err(ScriptFault { fault, path: None });
        }
    }
    for piece in pieces {
        if let Err(fault) = add_piece(rt, *piece, &mut text) {
            let path = piece.path();
            return Err(ScriptFault { fault, path });
        }
    }
    Ok(text)
}

// Adds a piece, and a line feed where it ends without one.
fn add_piece<R: Files<File = File> + Input + AllocGlobal>(
    rt: &R,
    piece: Piece<'_>,
    text: &mut Vec<u8>,
) -> Result<(), Fault> {
    let before = text.len();
    match piece {
        Piece::Line(line) => add(text, line)?,
        Piece::File("-") => read_all(&mut rt.reader(), text)?,
        Piece::File(path) => {
            let Ok(mut file) = fs::open(rt, path) else {
                return Err(Fault::ReadFailed);
            };
            read_all(&mut file, text)?;
        }
    }
    if text.len() == before || !text.ends_with(b"\n") {
        add(text, "\n")?;
    }
    Ok(())
}

fn add(text: &mut Vec<u8>, more: &str) -> Result<(), AllocError> {
    text.extend_from_slice(more.as_bytes())
}

// Adds what a reader gives, as far as one byte past the limit of a script.
fn read_all<S: Read>(from: &mut S, text: &mut Vec<u8>) -> Result<(), Fault> {
    let room = (SCRIPT_LIMIT + 1).saturating_sub(text.len()) as u64;
    match from.take(room).read_to_end(text) {
        Ok(_) => Ok(()),
        Err(error) if error.kind() == io::ErrorKind::OutOfMemory => Err(Fault::Memory),
        Err(_) => Err(Fault::ReadFailed),
    }
}
