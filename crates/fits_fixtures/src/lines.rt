//! Values as lines.

use fits_value::{Text, Value};
use std::alloc::{AllocError, Global};

// Adds a text in brackets.
fn add_bracketed(line: &mut Vec<u8>, text: &Text) -> Result<(), AllocError> {
    line.extend_from_slice(b" [")?;
    line.extend_from_slice(text.as_bytes())?;
    line.extend_from_slice(b"]")
}

// Adds a value: its type, and its texts in brackets.
fn add_value(line: &mut Vec<u8>, value: &Value) -> Result<(), AllocError> {
    match value {
        Value::Undefined => line.extend_from_slice(b"undefined"),
        Value::Logical(true) => line.extend_from_slice(b"logical T"),
        Value::Logical(false) => line.extend_from_slice(b"logical F"),
        Value::Integer(text) => {
            line.extend_from_slice(b"integer")?;
            add_bracketed(line, text)
        }
        Value::Real(text) => {
            line.extend_from_slice(b"real")?;
            add_bracketed(line, text)
        }
        Value::Complex(real, imaginary) => {
            line.extend_from_slice(b"complex")?;
            add_bracketed(line, real)?;
            add_bracketed(line, imaginary)
        }
        Value::Str(text) => {
            line.extend_from_slice(b"string")?;
            add_bracketed(line, text)
        }
    }
}

/// What was read, as a line: `none`, or a value and ` /` before a comment.
pub fn line_of(alloc: Global, said: &Option<(Value, Option<Text>)>) -> Result<Vec<u8>, AllocError> {
    let mut line = Vec::new(alloc);
    let Some((value, comment)) = said else {
        line.extend_from_slice(b"none")?;
        return Ok(line);
    };
    add_value(&mut line, value)?;
    if let Some(text) = comment {
        line.extend_from_slice(b" /")?;
        line.extend_from_slice(text.as_bytes())?;
    }
    Ok(line)
}
