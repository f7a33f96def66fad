ghost use Rattle.std.specs.Prelude.{◌≡◌, ◌+◌, ◌-◌, ◌/◌, ◌%◌, ◌⊎◌, ◌≤◌, length, min};
ghost use Rattle.fits_sum.specs.Words.{word_total};
ghost use Rattle.fits_pixels.specs.Layout.{block_count};
ghost use Rattle.fits_pixels.specs.Pixels.{pixels, IsWidth};
ghost use Rattle.fits_pixels.specs.Statistics.{statistics};

use crate::passed_unit::PassedUnit;
use fits_card::BLOCK_LEN;
use fits_pixels::{
    Layout, Leaf, PixelSummary, Summary, WordSummary, is_filled, pixels_per_block, read_bytes,
    scan_part,
};
use fits_stream::{Count, GoneBytes};
use fits_sum::words_total;
use std::marker::Model;

/// A data unit whose bytes pass by, piece by piece, each of which is let go.
///
/// Contracts see the bytes that passed by so far, and how all of them are read.
#[derive(Drop)]
pub struct PassingUnit {
    layout: Layout,
    count: usize,
    stored: PixelSummary,
    total: u64,
    filled: bool,
    scans: Count,
    gone: GoneBytes,
}

impl Model for PassingUnit {
    ghost use Rattle.fits_unit.specs.Passing.{IsPassing, PassingState};

    ghost Value = { PassingState };

    ghost view = { λ it. record { layout = it.layout; bytes = it.gone.bytes } };

    ghost invariant = { λ it. IsPassing
        it.layout it.gone.bytes it.count it.stored it.total it.filled it.scans.total };
}

impl PassingUnit {
    ghost use Rattle.std.specs.Prelude.{◌≡◌, ◌+◌, ◌%◌, ◌^◌, ◌≤◌, ◌⊎◌, ◌++◌, [], length};
    ghost use Rattle.fits_pixels.specs.Layout.{IsLayout, block_count};
    ghost use Rattle.fits_pixels.specs.Pixels.{IsWidth};

    /// A data unit that is read so, and of which nothing passed by yet.
    pub fn new(layout: Layout) -> PassingUnit
        requires width { (layout.width ≡ 0) ⊎ IsWidth layout.width }
        requires no_pixels { layout.width ≡ 0 → layout.pixels ≡ 0 }
        ensures { result ≡ record { layout = layout; bytes = [] } }
    {
        PassingUnit {
            layout,
            count: 0,
            stored: PixelSummary::unit(),
            total: 0,
            filled: true,
            scans: Count::new(),
            gone: GoneBytes::none(),
        }
    }

    /// How many bytes passed by.
    pub fn byte_len(&self) -> usize
        ensures { result ≡ length self.now.bytes }
    {
        self.count
    }

    /// The piece that follows passes by. Each of its blocks is scanned once.
    pub fn add(&mut self, piece: &[u8])
        requires whole { length piece.now % 2880 ≡ 0 }
        requires room { length self.old.bytes + length piece.now ≤ 2 ^ 34 }
        ensures { self.new ≡ record self.old { bytes = self.old.bytes ++ piece.now } }
    {
        if self.layout.width == 0 {
            self.add_part(piece);
            return;
        }
        for k in 0..piece.len() / BLOCK_LEN {
            let at = BLOCK_LEN * k;
            self.add_part(&piece[at..at + BLOCK_LEN]);
        }
    }

    // So does what follows, a block or bytes without pixels.
    fn add_part(&mut self, part: &[u8])
        requires whole { length part.now % 2880 ≡ 0 }
        requires block { (self.old.layout.width ≡ 0) ⊎ (length part.now ≡ 2880) }
        requires room { length self.old.bytes + length part.now ≤ 2 ^ 34 }
        ensures { self.new ≡ record self.old { bytes = self.old.bytes ++ part.now } }
    {
        read_bytes(part);
        let used = self.layout.used.saturating_sub(self.count);
        let filled = is_filled(part, used, self.layout.fill);
        let found = scan_next(part, self.layout, self.count, &mut self.scans);
        self.stored = self.stored.join(found.first);
        self.total += found.second.total;
        self.filled = self.filled && filled;
        self.count += part.len();
        self.gone.add(part);
    }

    /// What is known of it once all of it passed by.
    pub fn end(self) -> PassedUnit
        requires { IsLayout self.layout self.bytes }
        ensures { result ≡ record {
          bytes = self.bytes;
          layout = self.layout;
          blank = self.layout.blank;
          scans = block_count self.bytes;
        } }
    {
        PassedUnit::of(
            self.layout,
            self.stored,
            self.total,
            self.filled,
            self.count,
            self.scans,
            self.gone,
        )
    }
}

// What is kept of a block, or of bytes without pixels, that so many bytes stand before. Each block is
// scanned once.
fn scan_next(part: &[u8], layout: Layout, count: usize, scans: &mut Count) -> Leaf
    requires width { (layout.width ≡ 0) ⊎ IsWidth layout.width }
    requires block { (layout.width ≡ 0) ⊎ (length part.now ≡ 2880) }
    requires whole { length part.now % 2880 ≡ 0 }
    requires room { length part.now ≤ 17179869184 }
    ensures first { result.first ≡ statistics layout.blank (pixels layout.width part.now 0
        (min (layout.pixels - count / layout.width) (2880 / layout.width))) }
    ensures second { result.second.total ≡ word_total part.now }
    ensures work { scans.new.total ≡ scans.old.total + block_count part.now }
{
    scans.add(part.len() / BLOCK_LEN);
    let Some(before) = count.checked_div(layout.width) else {
        return Leaf {
            first: PixelSummary::unit(),
            second: WordSummary {
                total: words_total(part),
            },
        };
    };
    let held = layout
        .pixels
        .saturating_sub(before)
        .min(pixels_per_block(layout.width));
    scan_part(part, layout.width, held, layout.blank)
}
