use crate::noise::Noise;
use crate::text::push_card;
use std::alloc::{AllocError, Global};

/// Cards of which each copy has other digits.
///
/// In the texts of the cards `#` stands for a digit of noise, and `@` for one of the copy's number.
#[derive(Drop)]
pub struct Template {
    bytes: Vec<u8>,
    digits: Vec<usize>,
    // Each with what it counts: 1, 10, and so on.
    number: Vec<(usize, u64)>,
}

impl Template {
    /// The cards with these texts, each filled up with spaces.
    pub fn of(alloc: Global, texts: &[&str]) -> Result<Template, AllocError> {
        let mut bytes = Vec::new(alloc);
        for text in texts {
            push_card(&mut bytes, text)?;
        }
        let digits = places_of(alloc, &bytes, b'#')?;
        let number = weighed_places_of(alloc, &bytes)?;
        Ok(Template {
            bytes,
            digits,
            number,
        })
    }

    /// Adds a copy to a file.
    pub fn push_copy(
        &self,
        file: &mut Vec<u8>,
        number: u64,
        noise: &mut Noise,
    ) -> Result<(), AllocError> {
        let start = file.len();
        file.extend_from_slice(&self.bytes)?;
        let (_, copy) = file.as_mut_slice().split_at_mut(start);
        for (at, weight) in &self.number {
            put(copy, *at, number.checked_div(*weight).unwrap_or(0));
        }
        let mut bits = noise.bits();
        for at in &self.digits {
            put(copy, *at, ((bits & 0xffff) * 10) >> 16);
            bits = bits.rotate_right(7);
        }
        Ok(())
    }
}

// Puts a digit at a place.
fn put(bytes: &mut [u8], at: usize, digit: u64) {
    if let Some(byte) = bytes.get_mut(at) {
        *byte = b'0'.wrapping_add((digit % 10) as u8);
    }
}

// Where a byte stands.
fn places_of(alloc: Global, bytes: &[u8], wanted: u8) -> Result<Vec<usize>, AllocError> {
    let mut places = Vec::new(alloc);
    for (at, byte) in bytes.iter().enumerate() {
        if *byte == wanted {
            places.push(at)?;
        }
    }
    Ok(places)
}

// Where `@` stands, and what each digit of the number there counts.
fn weighed_places_of(alloc: Global, bytes: &[u8]) -> Result<Vec<(usize, u64)>, AllocError> {
    let mut places = Vec::new(alloc);
    let mut weight = 1u64;
    for (at, byte) in bytes.iter().enumerate().rev() {
        if *byte == b'@' {
            places.push((at, weight))?;
            weight = weight.wrapping_mul(10);
        } else {
            weight = 1;
        }
    }
    Ok(places)
}
