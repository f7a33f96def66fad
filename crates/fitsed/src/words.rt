//! The words of the command line.
use std::alloc::{AllocError, Global};
use std::env::{Env, FillError};

/// How many bytes most words have room in.
const ROOM: usize = 256;

/// The words of the command line, the program's name first. For one that isn't UTF-8 stands a text
/// that says so, and that no word can be.
pub fn words<R: Env + AllocGlobal>(rt: &R) -> Result<Vec<String>, AllocError> {
    let mut words = Vec::new(rt.alloc());
    for index in 0..usize::MAX {
        let Some(bytes) = bytes_of(rt, index)? else {
            break;
        };
        words.push(word_of(rt.alloc(), index, bytes)?)?;
    }
    Ok(words)
}

/// What is told of a word that isn't UTF-8, where this stands for one.
pub fn oddity_of(word: &str) -> Option<&str> {
    let behind_hyphen = match word.strip_prefix('-') {
        Some(rest) => rest,
        None => word,
    };
    behind_hyphen.strip_prefix('\0')
}

// The bytes of the word of an index, if there is one.
fn bytes_of<R: Env + AllocGlobal>(rt: &R, index: usize) -> Result<Option<Vec<u8>>, AllocError> {
    let mut bytes = Vec::new(rt.alloc());
    let mut room = ROOM;
    for _turn in 0..usize::BITS {
        bytes.resize(room, 0)?;
        match rt.arg(index, bytes.as_mut_slice()) {
            Ok(len) => {
                bytes.truncate(len);
                return Ok(Some(bytes));
            }
            Err(FillError::NotPresent) => return Ok(None),
            Err(FillError::TooLong) => room = room.saturating_mul(2),
        }
    }
    // So much room is refused before.
    Ok(None)
}

// The word of these bytes, or what stands for it.
fn word_of(alloc: Global, index: usize, bytes: Vec<u8>) -> Result<String, AllocError> {
    match String::from_utf8(bytes) {
        Ok(word) => Ok(word),
        Err(error) => oddity(alloc, index, error.as_bytes()),
    }
}

// What stands for a word that isn't UTF-8: after a zero byte, which no word has, what is told of it.
// A hyphen that the word begins with comes first, so that an option is none still.
fn oddity(alloc: Global, index: usize, bytes: &[u8]) -> Result<String, AllocError> {
    let mut text = String::new(alloc);
    if bytes.starts_with(b"-") {
        text.push('-')?;
    }
    write!(text, "\0argument {index} is not UTF-8: ")?;
    for byte in bytes {
        push_byte(&mut text, *byte)?;
    }
    Ok(text)
}

// Adds a byte as it is printed: one that is no ASCII character of text by its number.
fn push_byte(text: &mut String, byte: u8) -> Result<(), AllocError> {
    match byte {
        b' '..=b'~' => text.push(char::from(byte)),
        _ => write!(text, "\\x{byte:02x}"),
    }
}
