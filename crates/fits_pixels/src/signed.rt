//! The statistics of a block of pixels that have a sign, which are those of 16, 32 or 64 bits.
//!
//! A pass over the pixels finds the least and the greatest, and counts. The sum of the pixels of a full
//! block comes from their total without signs; those of a block that is filled in part are added up by
//! themselves. What is blank is taken off at the end.
ghost use Rattle.std.specs.Prelude.{◌≡◌, ◌≤◌, ◌*◌, ◌+◌, ◌/◌, ◌^◌, pos, length, Some, None, IfSome, unsigned_abs};
ghost use Rattle.fits_pixels.specs.Pixels.{pixels, IsSigned, IsStorable};
ghost use Rattle.fits_pixels.specs.Statistics.{statistics, sum_of};
ghost use Rattle.fits_pixels.specs.Scan.{AreExtremes, negative_count, storable_blank, unsigned_total};

use crate::extremes::Extremes;
use crate::passes;
use crate::pixel_summary::PixelSummary;
use crate::pixels::{is_storable, pixel_at};
use crate::scan_end::{found, found_beside};

/// What a pass finds where no pixel is blank.
fn defined(block: &[u8], width: usize, held: usize) -> Extremes
    requires signed { IsSigned width }
    requires within { held * width ≤ length block.now }
    requires short { length block.now ≤ 2880 }
    ensures { AreExtremes None (pixels width block.now 0 held) result }
{
    match width {
        2 => passes::defined::<i16>(block, held),
        4 => passes::defined::<i32>(block, held),
        _ => passes::defined::<i64>(block, held),
    }
}

/// What a pass finds where one number is blank.
fn beside(block: &[u8], width: usize, held: usize, blank: i64) -> Extremes
    requires signed { IsSigned width }
    requires within { held * width ≤ length block.now }
    requires short { length block.now ≤ 2880 }
    requires storable { IsStorable width blank }
    ensures { AreExtremes (Some blank) (pixels width block.now 0 held) result }
{
    match width {
        2 => passes::beside::<i16>(block, held, blank),
        4 => passes::beside::<i32>(block, held, blank),
        _ => passes::beside::<i64>(block, held, blank),
    }
}

/// The sum of the first pixels, one by one.
fn added(block: &[u8], width: usize, held: usize) -> i128
    requires signed { IsSigned width }
    requires within { held * width ≤ length block.now }
    requires short { length block.now ≤ 2880 }
    ensures value { result ≡ sum_of (pixels width block.now 0 held) }
    ensures within { unsigned_abs result ≤ 2 ^ 63 * held }
{
    let mut total = 0i128;
    for i in 0..held {
        total += i128::from(pixel_at(block, width, i));
    }
    total
}

/// By how much a total without signs is too large, where so many pixels are negative.
fn signs(width: usize, negatives: u64) -> i128
    requires signed { IsSigned width }
    requires few { negatives ≤ 1440 }
    ensures value { result ≡ pos (256 ^ width * negatives) }
    ensures within { unsigned_abs result ≤ 1440 * 2 ^ 64 }
{
    match width {
        2 => i128::from(negatives) * 65_536,
        4 => i128::from(negatives) * 4_294_967_296,
        _ => i128::from(negatives) * 18_446_744_073_709_551_616,
    }
}

/// The sum of the first pixels, so many of which are negative. In a full block it follows from the
/// total without signs.
fn total_of(block: &[u8], width: usize, held: usize, negatives: u64, total: u128) -> i128
    requires signed { IsSigned width }
    requires within { held * width ≤ length block.now }
    requires short { length block.now ≤ 2880 }
    requires negatives { negatives ≡ negative_count (pixels width block.now 0 held) }
    requires total { total ≡ unsigned_total width block.now 0 (length block.now / width) }
    requires small { total ≤ 1440 * 2 ^ 64 }
    ensures value { result ≡ sum_of (pixels width block.now 0 held) }
    ensures within { unsigned_abs result ≤ 2880 * 2 ^ 64 }
{
    if held * width < block.len() {
        added(block, width, held)
    } else {
        total as i128 - signs(width, negatives)
    }
}

/// The number that BLANK marks, where such pixels can store it.
fn stored_blank(width: usize, blank: Option<i64>) -> Option<i64>
    requires signed { IsSigned width }
    ensures value { result ≡ storable_blank width blank }
    ensures storable { IfSome result (λ number. IsStorable width number) }
{
    let number = blank?;
    if is_storable(width, i128::from(number)) {
        Some(number)
    } else {
        None
    }
}

/// The statistics of the first pixels. A BLANK outside the pixels' range marks none.
pub(crate) fn scan(
    block: &[u8],
    width: usize,
    held: usize,
    blank: Option<i64>,
    total: u128,
) -> PixelSummary
    requires signed { IsSigned width }
    requires within { held * width ≤ length block.now }
    requires short { length block.now ≤ 2880 }
    requires total { total ≡ unsigned_total width block.now 0 (length block.now / width) }
    requires small { total ≤ 1440 * 2 ^ 64 }
    ensures { result ≡ statistics blank (pixels width block.now 0 held) }
{
    match stored_blank(width, blank) {
        None => {
            let seen = defined(block, width, held);
            let sum = total_of(block, width, held, seen.negatives, total);
            found(held as u64, 0, seen.least, seen.greatest, sum)
        }
        Some(number) => {
            let seen = beside(block, width, held, number);
            let sum = total_of(block, width, held, seen.negatives, total);
            found_beside(held, seen.blanks, seen.least, seen.greatest, sum, number)
        }
    }
}
