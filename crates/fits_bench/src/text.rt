//! Adding texts, numbers and cards to bytes.

use itoa::Buffer;
use std::alloc::AllocError;

/// Adds a text.
pub fn push_text(bytes: &mut Vec<u8>, text: &str) -> Result<(), AllocError> {
    bytes.extend_from_slice(text.as_bytes())
}

/// Adds a number after a space.
pub fn push_number(bytes: &mut Vec<u8>, number: u64) -> Result<(), AllocError> {
    let mut digits = Buffer::new();
    push_text(bytes, " ")?;
    push_text(bytes, digits.format(number))
}

/// Adds numbers, each after a space.
pub fn push_numbers(bytes: &mut Vec<u8>, numbers: &[u64]) -> Result<(), AllocError> {
    for number in numbers {
        push_number(bytes, *number)?;
    }
    Ok(())
}

/// Adds a card with this text of at most 80 bytes, filled up with spaces.
pub fn push_card(bytes: &mut Vec<u8>, text: &str) -> Result<(), AllocError> {
    let spaces = [b' '; 80];
    let (_, fill) = spaces.split_at(text.len().min(80));
    push_text(bytes, text)?;
    bytes.extend_from_slice(fill)
}
