//! The summary of one block, by one visit to it.
ghost use Rattle.std.specs.Prelude.{◌≡◌, ◌≤◌, ◌<◌, ◌*◌, ◌+◌, ◌/◌, ◌%◌, ◌⊎◌, length};
ghost use Rattle.fits_sum.specs.Words.{word_total};
ghost use Rattle.fits_pixels.specs.Pixels.{pixels, IsWidth};
ghost use Rattle.fits_pixels.specs.Statistics.{statistics};
ghost use Rattle.fits_pixels.specs.Layout.{IsLayout, block_pixels};
ghost use Rattle.fits_pixels.specs.Block.{leaf_of};
ghost use Rattle.fits_pixels.specs.Scan.{unsigned_total};

use crate::both::Both;
use crate::halves::{Halves, halves_of};
use crate::layout::Layout;
use crate::long_halves::long_halves_of;
use crate::pixel_summary::PixelSummary;
use crate::summary::Summary;
use crate::word_summary::WordSummary;
use crate::{pixels_8, signed};
use fits_card::BLOCK_LEN;

/// What is kept of a block: its statistics, and the total of its words.
pub type Leaf = Both<PixelSummary, WordSummary>;

/// The statistics of the first pixels of a block.
fn scan_pixels(
    block: &[u8],
    width: usize,
    held: usize,
    blank: Option<i64>,
    halves: Halves,
) -> PixelSummary
    requires width { (width ≡ 0) ⊎ IsWidth width }
    requires narrow { width < 8 }
    requires no_pixels { width ≡ 0 → held ≡ 0 }
    requires within { held * width ≤ length block.now }
    requires short { length block.now ≤ 2880 }
    requires fours { 65536 * halves.high + halves.low
        ≡ unsigned_total 4 block.now 0 (length block.now / 4) }
    requires twos { halves.high + halves.low ≡ unsigned_total 2 block.now 0 (length block.now / 2) }
    requires high { halves.high ≤ 720 * 65535 }
    requires low { halves.low ≤ 720 * 65535 }
    ensures { result ≡ statistics blank (pixels width block.now 0 held) }
{
    match width {
        1 => pixels_8::scan(block, held, blank),
        2 => signed::scan(block, 2, held, blank, u128::from(halves.high + halves.low)),
        4 => signed::scan(block, 4, held, blank, u128::from(halves.word_total())),
        _ => PixelSummary::unit(),
    }
}

/// What is kept of a block of pixels that are at most as wide as a word.
fn scan_words(block: &[u8], width: usize, held: usize, blank: Option<i64>) -> Leaf
    requires width { (width ≡ 0) ⊎ IsWidth width }
    requires narrow { width < 8 }
    requires no_pixels { width ≡ 0 → held ≡ 0 }
    requires within { held * width ≤ length block.now }
    requires whole { length block.now % 8 ≡ 0 }
    requires short { length block.now ≤ 2880 }
    ensures first { result.first ≡ statistics blank (pixels width block.now 0 held) }
    ensures second { result.second.total ≡ word_total block.now }
{
    let halves = halves_of(block);
    Both {
        first: scan_pixels(block, width, held, blank, halves),
        second: WordSummary {
            total: halves.word_total(),
        },
    }
}

/// What is kept of a block of pixels of 64 bits.
fn scan_longs(block: &[u8], held: usize, blank: Option<i64>) -> Leaf
    requires within { held * 8 ≤ length block.now }
    requires whole { length block.now % 8 ≡ 0 }
    requires short { length block.now ≤ 2880 }
    ensures first { result.first ≡ statistics blank (pixels 8 block.now 0 held) }
    ensures second { result.second.total ≡ word_total block.now }
{
    let halves = long_halves_of(block);
    Both {
        first: signed::scan(block, 8, held, blank, halves.long_total()),
        second: WordSummary {
            total: halves.high + halves.low,
        },
    }
}

/// What is kept of a block that has so many pixels.
pub fn scan_part(block: &[u8], width: usize, held: usize, blank: Option<i64>) -> Leaf
    requires width { (width ≡ 0) ⊎ IsWidth width }
    requires no_pixels { width ≡ 0 → held ≡ 0 }
    requires within { held * width ≤ length block.now }
    requires whole { length block.now % 8 ≡ 0 }
    requires short { length block.now ≤ 2880 }
    ensures first { result.first ≡ statistics blank (pixels width block.now 0 held) }
    ensures second { result.second.total ≡ word_total block.now }
{
    if width == 8 {
        scan_longs(block, held, blank)
    } else {
        scan_words(block, width, held, blank)
    }
}

/// How many whole pixels a block has.
pub fn pixels_per_block(width: usize) -> usize
    ensures { result ≡ block_pixels width }
{
    BLOCK_LEN.checked_div(width).unwrap_or(0)
}

/// What is kept of block k.
pub fn scan_block(bytes: &[u8], layout: Layout, k: usize) -> Leaf
    requires layout { IsLayout layout bytes.now }
    requires within { 2880 * k + 2880 ≤ length bytes.now }
    ensures { result ≡ leaf_of layout bytes.now k }
{
    let at = BLOCK_LEN * k;
    let block = &bytes[at..at + BLOCK_LEN];
    let per = pixels_per_block(layout.width);
    let held = layout.pixels.saturating_sub(k * per).min(per);
    scan_part(block, layout.width, held, layout.blank)
}
