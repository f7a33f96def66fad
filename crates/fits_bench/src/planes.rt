//! Images: pixels are masked, mended and asked for.

use crate::files::{ImageText, image_file, push_image_header, push_line, sky};
use crate::memory::{Stored, Tiled};
use crate::noise::Noise;
use crate::runs::{Outcome, REPORT};
use crate::text::{push_number, push_numbers, push_text};
use fits_cli::Telling;
use std::alloc::{AllocError, Global};
use std::io;

/// An image to be masked: its BITPIX, how many bytes a pixel has, its axes, its BLANK and BZERO, and
/// the number that a pixel in 64 has.
type Masked = (
    &'static str,
    usize,
    &'static [u64],
    Option<&'static str>,
    Option<&'static str>,
    i64,
);

/// Images of 8 to 64 bits, with BLANK and BZERO and without.
const MASKED: &[Masked] = &[
    ("16", 2, &[4096, 2048], Some("-32768"), None, -32768),
    ("16", 2, &[2048, 2048], None, Some("32768"), 7),
    (
        "32",
        4,
        &[2048, 4096],
        Some("-2147483648"),
        None,
        -2147483648,
    ),
    ("8", 1, &[3000, 2000], Some("255"), None, 255),
    ("32", 4, &[1000, 100, 20], None, None, 7),
    ("64", 8, &[1024, 1500], Some("-1"), None, -1),
    ("8", 1, &[1500, 4000], None, None, 7),
    ("64", 8, &[1500, 1024], None, Some("9223372036854775808"), 7),
];

/// Small rectangles are filled, rows written, regions printed, statistics and sums asked for.
pub fn mask_pixels(alloc: Global, rounds: usize, noise: &mut Noise) -> io::Result<Outcome> {
    let mut outcome = Outcome::new();
    for round in 0..rounds {
        let (bitpix, width, axes, blank, bzero, rare) = MASKED[round % 8];
        let image = ImageText {
            bitpix,
            axes,
            blank,
            bzero,
        };
        let tile = sky(alloc, 100_008, width, rare, noise)?;
        let file = image_file(alloc, image, width, &tile)?;
        let script = masks(alloc, axes, noise)?;
        outcome.edit(alloc, Stored(&file), &script)?;
    }
    Ok(outcome)
}

// A script for an image of these axes.
fn masks(alloc: Global, axes: &[u64], noise: &mut Noise) -> Result<Vec<u8>, AllocError> {
    let mut script = Vec::new(alloc);
    for number in 0..2000u64 {
        let side = if number % 10 == 9 { 100 } else { 6 };
        push_text(&mut script, "fill 1 ")?;
        push_region(&mut script, axes, side, noise)?;
        push_number(&mut script, noise.below(200))?;
        push_text(&mut script, "\n")?;
        match number % 20 {
            4 => push_row(&mut script, axes, noise)?,
            9 => push_line(&mut script, "stat 1")?,
            14 => push_line(&mut script, "sum 1")?,
            19 => push_rect(&mut script, axes, noise)?,
            _ => {}
        }
    }
    push_line(&mut script, "stat 1")?;
    push_line(&mut script, "rep")?;
    Ok(script)
}

// Adds a line that prints a region.
fn push_rect(script: &mut Vec<u8>, axes: &[u64], noise: &mut Noise) -> Result<(), AllocError> {
    push_text(script, "rect 1 ")?;
    push_region(script, axes, 40, noise)?;
    push_text(script, "\n")
}

// Adds a line that writes 200 pixels of a row.
fn push_row(script: &mut Vec<u8>, axes: &[u64], noise: &mut Noise) -> Result<(), AllocError> {
    push_text(script, "write 1 ")?;
    for (i, axis) in axes.iter().enumerate() {
        let len = if i == 0 { 200 } else { 1 };
        push_range(script, i, *axis, len, noise)?;
    }
    for _ in 0..200 {
        push_number(script, noise.below(250))?;
    }
    push_text(script, "\n")
}

// Adds a region with sides of so many pixels in the first two axes.
fn push_region(
    script: &mut Vec<u8>,
    axes: &[u64],
    side: u64,
    noise: &mut Noise,
) -> Result<(), AllocError> {
    for (i, axis) in axes.iter().enumerate() {
        let len = if i < 2 { noise.within(1, side) } else { 1 };
        push_range(script, i, *axis, len, noise)?;
    }
    Ok(())
}

// Adds a range of so many pixels of an axis.
fn push_range(
    script: &mut Vec<u8>,
    i: usize,
    axis: u64,
    len: u64,
    noise: &mut Noise,
) -> Result<(), AllocError> {
    let low = noise.within(1, axis.saturating_sub(len).saturating_add(1));
    let high = low.saturating_add(len).saturating_sub(1);
    if i > 0 {
        push_text(script, ",")?;
    }
    push_range_of(script, low, high)
}

// Adds a range.
fn push_range_of(script: &mut Vec<u8>, low: u64, high: u64) -> Result<(), AllocError> {
    let mut range = Vec::new(*script.allocator());
    push_numbers(&mut range, &[low, high])?;
    for (i, byte) in range.iter().enumerate() {
        match *byte {
            b' ' if i == 0 => {}
            b' ' => script.push(b':')?,
            byte => script.push(byte)?,
        }
    }
    Ok(())
}

/// A card and a corner of large images are changed, and others are verified, summed and listed. The
/// images have 8 MB a round.
pub fn change_large_images(alloc: Global, rounds: usize, noise: &mut Noise) -> io::Result<Outcome> {
    let mut outcome = Outcome::new();
    let rows = (rounds as u64).wrapping_mul(2778);
    let len = (rows as usize).saturating_mul(2880);
    let front = large_header(alloc, rows, Some("-32768"))?;
    let tile = sky(alloc, 500_008, 2, -32768, noise)?;
    change_corner(alloc, &mut outcome, &front, &tile, len)?;
    let front = large_header(alloc, rows, None)?;
    let tile = sky(alloc, 500_008, 2, 7, noise)?;
    change_card(alloc, &mut outcome, &front, &tile, len)?;
    Ok(outcome)
}

// The header of an image of rows of 1440 pixels of 16 bits.
fn large_header(alloc: Global, rows: u64, blank: Option<&str>) -> Result<Vec<u8>, AllocError> {
    let mut front = Vec::new(alloc);
    let image = ImageText {
        bitpix: "16",
        axes: &[1440, rows],
        blank,
        bzero: None,
    };
    push_image_header(alloc, &mut front, image)?;
    Ok(front)
}

// An image is verified, and a card and a corner of it are changed.
fn change_corner(
    alloc: Global,
    outcome: &mut Outcome,
    front: &[u8],
    tile: &[u8],
    len: usize,
) -> io::Result<()> {
    outcome.tell(alloc, REPORT, Tiled::new(front, tile, len))?;
    outcome.edit(alloc, Tiled::new(front, tile, len), CORNER)
}

// A card of an image is changed, and it is summed and listed.
fn change_card(
    alloc: Global,
    outcome: &mut Outcome,
    front: &[u8],
    tile: &[u8],
    len: usize,
) -> io::Result<()> {
    outcome.edit(alloc, Tiled::new(front, tile, len), CARD)?;
    outcome.tell(alloc, Telling::Sums, Tiled::new(front, tile, len))?;
    outcome.tell(alloc, Telling::List, Tiled::new(front, tile, len))
}

const CORNER: &[u8] = b"set 1 OBSERVER 'N. Night'\nfill 1 1:100,1:100 0\nstat 1\nstamp 1\nrep\n";

const CARD: &[u8] = b"set 1 OBJECT 'M 33' / the other galaxy\n";
