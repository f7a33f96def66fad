//! The statistics of a block of 8-bit pixels, which have no sign.
//!
//! The pass holds numbers of the pixel's own type, a sum and a count no wider than a block needs.
//! Where a number is blank, sixteen pixels are scanned side by side, without a branch.
ghost use Rattle.std.specs.Prelude.{◌≡◌, ◌≤◌, ◌*◌, ◌+◌, length, Some, None, pos};
ghost use Rattle.fits_pixels.specs.Pixels.{pixel, pixels};
ghost use Rattle.std.specs.Simd.Lanes.{sum_l};
ghost use Rattle.fits_pixels.specs.Statistics.{statistics};
ghost use Rattle.fits_pixels.specs.Scan.{lowest, highest};

use crate::pixel_summary::PixelSummary;
use crate::scan_end::found;
use crate::summary::Summary;
use std::simd::prelude::*;

/// Stored pixel i.
pub(crate) fn read(block: &[u8], i: usize) -> u8
    requires within { (i + 1) * 1 ≤ length block.now }
    ensures { pos result ≡ pixel 1 block.now i }
{
    block[i]
}

/// The statistics of the first pixels, where none is blank.
fn scan_defined(block: &[u8], held: usize) -> PixelSummary
    requires within { held * 1 ≤ length block.now }
    requires short { length block.now ≤ 2880 }
    ensures { result ≡ statistics None (pixels 1 block.now 0 held) }
{
    let mut least = u8::MAX;
    let mut greatest = 0u8;
    let mut sum = 0u32;
    for i in 0..held {
        let x = read(block, i);
        least = least.min(x);
        greatest = greatest.max(x);
        sum += u32::from(x);
    }
    found(
        held as u64,
        0,
        i64::from(least),
        i64::from(greatest),
        i128::from(sum),
    )
}

/// The statistics of the first pixels, one by one, where one number is blank.
fn scan_few(block: &[u8], held: usize, blank: u8) -> PixelSummary
    requires within { held * 1 ≤ length block.now }
    requires short { length block.now ≤ 2880 }
    ensures { result ≡ statistics (Some (pos blank)) (pixels 1 block.now 0 held) }
{
    let mut least = u8::MAX;
    let mut greatest = 0u8;
    let mut sum = 0u32;
    let mut blanks = 0u32;
    for i in 0..held {
        let x = read(block, i);
        if x == blank {
            blanks += 1;
        } else {
            least = least.min(x);
            greatest = greatest.max(x);
            sum += u32::from(x);
        }
    }
    let defined = (held - blanks as usize) as u64;
    found(
        defined,
        blanks as u64,
        i64::from(least),
        i64::from(greatest),
        i128::from(sum),
    )
}

/// The least lane.
fn least_lane(lanes: &[u8; 16]) -> u8
    ensures { result ≡ lowest lanes.now }
{
    let mut least = u8::MAX;
    for i in 0..16 {
        least = least.min(lanes[i]);
    }
    least
}

/// The greatest lane.
fn greatest_lane(lanes: &[u8; 16]) -> u8
    ensures { result ≡ highest lanes.now }
{
    let mut greatest = 0u8;
    for i in 0..16 {
        greatest = greatest.max(lanes[i]);
    }
    greatest
}

/// The sum of all lanes.
fn lanes_sum(lanes: &[u16; 16]) -> u32
    ensures { result ≡ sum_l lanes.now }
{
    let mut sum = 0u32;
    for i in 0..16 {
        sum += u32::from(lanes[i]);
    }
    sum
}

/// The statistics of the first sixteens of pixels, by lanes, where one number is blank.
fn scan_lanes(block: &[u8], sixteens: usize, blank: u8) -> PixelSummary
    requires within { 16 * sixteens ≤ length block.now }
    requires short { length block.now ≤ 2880 }
    ensures { result ≡ statistics (Some (pos blank)) (pixels 1 block.now 0 (16 * sixteens)) }
{
    // A lane has at most 180 pixels, so its sum fits 16 bits.
    let none = u8x16::splat(0);
    let one = u8x16::splat(1);
    let top = u8x16::splat(u8::MAX);
    let mut least = top;
    let mut greatest = none;
    let mut sums = u16x16::splat(0);
    let mut counts = u16x16::splat(0);
    for i in 0..sixteens {
        let pixels = u8x16::from_slice(&block[16 * i..]);
        let hits = pixels.simd_eq(u8x16::splat(blank));
        let used = hits.select(none, pixels);
        least = least.simd_min(hits.select(top, pixels));
        greatest = greatest.simd_max(used);
        sums = sums.strict_add(used.cast::<u16>());
        counts = counts.strict_add(hits.select(one, none).cast::<u16>());
    }
    let blanks = lanes_sum(&counts.to_array());
    found(
        (16 * sixteens - blanks as usize) as u64,
        blanks as u64,
        i64::from(least_lane(&least.to_array())),
        i64::from(greatest_lane(&greatest.to_array())),
        i128::from(lanes_sum(&sums.to_array())),
    )
}

/// The statistics of the first pixels, where one number is blank.
fn scan_blank(block: &[u8], held: usize, blank: u8) -> PixelSummary
    requires within { held * 1 ≤ length block.now }
    requires short { length block.now ≤ 2880 }
    ensures { result ≡ statistics (Some (pos blank)) (pixels 1 block.now 0 held) }
{
    let sixteens = held / 16;
    let at = 16 * sixteens;
    scan_lanes(block, sixteens, blank).join(scan_few(&block[at..held], held - at, blank))
}

/// The statistics of the first pixels. A BLANK outside the pixels' range marks none.
pub(crate) fn scan(block: &[u8], held: usize, blank: Option<i64>) -> PixelSummary
    requires within { held * 1 ≤ length block.now }
    requires short { length block.now ≤ 2880 }
    ensures { result ≡ statistics blank (pixels 1 block.now 0 held) }
{
    if let Some(number) = blank {
        if let Ok(number) = u8::try_from(number) {
            return scan_blank(block, held, number);
        }
    }
    scan_defined(block, held)
}
