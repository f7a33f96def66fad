//! Files in memory.

use crate::cards::{DETECTOR, EXTENSION, OBSERVATION, PRIMARY};
use crate::noise::Noise;
use crate::template::Template;
use crate::text::{push_card, push_text};
use std::alloc::{AllocError, Global};

const BLOCK_LEN: usize = 2880;

/// How many bytes the data of an extension of a mosaic have.
const EXTENSION_LEN: usize = 48 * 32 * 2;

/// An image: the bits of a pixel, its axes, and the BLANK and BZERO that its header says.
#[derive(Clone, Copy)]
pub struct ImageText<'a, 'b> {
    pub bitpix: &'a str,
    pub axes: &'b [u64],
    pub blank: Option<&'a str>,
    pub bzero: Option<&'a str>,
}

/// Fills a file up to a whole block.
pub fn fill_block(file: &mut Vec<u8>, fill: u8) -> Result<(), AllocError> {
    let filled = [fill; BLOCK_LEN];
    let missing = BLOCK_LEN.saturating_sub(file.len() % BLOCK_LEN) % BLOCK_LEN;
    let (fill, _) = filled.split_at(missing);
    file.extend_from_slice(fill)
}

/// Ends a header.
pub fn end_header(file: &mut Vec<u8>) -> Result<(), AllocError> {
    push_card(file, "END")?;
    fill_block(file, b' ')
}

/// Bytes of pixels: a sky with noise, big-endian, so many bytes each, and a pixel in 64 undefined.
pub fn sky(
    alloc: Global,
    pixels: u64,
    width: usize,
    blank: i64,
    noise: &mut Noise,
) -> Result<Vec<u8>, AllocError> {
    let mut bytes = Vec::new(alloc);
    for _ in 0..pixels {
        let bits = noise.bits();
        let value = if bits % 64 == 0 {
            blank
        } else {
            i64::from(((bits >> 32) & 0xff) as u8 / 2) + i64::from(((bits >> 48) & 0xff) as u8 / 2)
        };
        let written = value.to_be_bytes();
        let (_, kept) = written.split_at(8usize.saturating_sub(width));
        bytes.extend_from_slice(kept)?;
    }
    Ok(bytes)
}

/// Adds a mosaic whose digits are noise: how many extensions it has, and how many cards each has
/// beside those that describe it.
pub fn push_mosaic(
    alloc: Global,
    file: &mut Vec<u8>,
    extensions: u64,
    cards: usize,
    noise: &mut Noise,
) -> Result<(), AllocError> {
    Template::of(alloc, PRIMARY)?.push_copy(file, 1, noise)?;
    Template::of(alloc, OBSERVATION)?.push_copy(file, 1, noise)?;
    end_header(file)?;
    let described = Template::of(alloc, EXTENSION)?;
    let (texts, _) = DETECTOR.split_at(cards.min(DETECTOR.len()));
    let more = Template::of(alloc, texts)?;
    let pixels = sky(alloc, 8192, 2, -32768, noise)?;
    for number in 1..=extensions {
        described.push_copy(file, number, noise)?;
        more.push_copy(file, number, noise)?;
        end_header(file)?;
        let from = (noise.below(4096) as usize).min(pixels.len());
        let (_, data) = pixels.split_at(from);
        let (data, _) = data.split_at(EXTENSION_LEN.min(data.len()));
        file.extend_from_slice(data)?;
        fill_block(file, 0)?;
    }
    Ok(())
}

/// Adds a primary header that describes an image.
pub fn push_image_header(
    alloc: Global,
    file: &mut Vec<u8>,
    image: ImageText<'_, '_>,
) -> Result<(), AllocError> {
    push_card(file, "SIMPLE  =                    T")?;
    push_keyword(alloc, file, "BITPIX", image.bitpix)?;
    let count = image.axes.len();
    push_keyword(alloc, file, "NAXIS", &format!(in alloc; "{count}")?)?;
    for (i, axis) in image.axes.iter().enumerate() {
        let number = i.wrapping_add(1);
        let name = format!(in alloc; "NAXIS{number}")?;
        push_keyword(alloc, file, &name, &format!(in alloc; "{axis}")?)?;
    }
    if let Some(value) = image.blank {
        push_keyword(alloc, file, "BLANK", value)?;
    }
    if let Some(value) = image.bzero {
        push_keyword(alloc, file, "BZERO", value)?;
    }
    push_card(file, "OBJECT  = 'M 31    '           / the galaxy")?;
    end_header(file)
}

// Adds a card with a number.
fn push_keyword(
    alloc: Global,
    file: &mut Vec<u8>,
    name: &str,
    value: &str,
) -> Result<(), AllocError> {
    let card = format!(in alloc; "{name:<8}= {value:>20}")?;
    push_card(file, &card)
}

/// The file of an image whose pixels are a tile again and again.
pub fn image_file(
    alloc: Global,
    image: ImageText<'_, '_>,
    width: usize,
    tile: &[u8],
) -> Result<Vec<u8>, AllocError> {
    let mut file = Vec::new(alloc);
    push_image_header(alloc, &mut file, image)?;
    let mut pixels = width;
    for axis in image.axes {
        pixels = pixels.saturating_mul(*axis as usize);
    }
    let mut left = pixels;
    for _ in 0..pixels {
        if left == 0 || tile.is_empty() {
            break;
        }
        let (piece, _) = tile.split_at(left.min(tile.len()));
        file.extend_from_slice(piece)?;
        left = left.saturating_sub(piece.len());
    }
    fill_block(&mut file, 0)?;
    Ok(file)
}

/// Adds a line of a script.
pub fn push_line(script: &mut Vec<u8>, line: &str) -> Result<(), AllocError> {
    push_text(script, line)?;
    push_text(script, "\n")
}
