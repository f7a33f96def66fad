//! How a piece of a data unit is read, and what is kept of it.
ghost use Rattle.std.specs.Prelude.{◌≡◌, ◌≤◌, ◌↔◌, ◌^◌, IsTrue};
ghost use Rattle.fits_pieces.specs.Piece.{piece_layout, piece_pixels, piece_size};

use fits_card::BLOCK_LEN;
use fits_pixels::{Layout, Leaf, PixelSummary};

/// How many bytes a piece has: those of sixteen blocks.
///
/// A power of two of them, so that a tree of pieces, and one of blocks in each, are together no higher
/// than one of all blocks.
pub const PIECE_LEN: usize = 16 * BLOCK_LEN;

/// How many whole pixels a piece of sixteen blocks has.
pub(crate) fn pixels_per_piece(width: usize) -> usize
    ensures { result ≡ piece_pixels width }
{
    PIECE_LEN.checked_div(width).unwrap_or(0)
}

/// How many bytes piece j of so many has.
pub(crate) fn size_of_piece(len: usize, j: usize) -> usize
    requires { j ≤ 2 ^ 34 }
    ensures { result ≡ piece_size len j }
{
    PIECE_LEN.min(len.saturating_sub(PIECE_LEN * j))
}

/// How the bytes of piece j are read.
pub(crate) fn layout_of_piece(layout: Layout, j: usize) -> Layout
    requires { j ≤ 2 ^ 34 }
    ensures { result ≡ piece_layout layout j }
{
    let per = pixels_per_piece(layout.width);
    Layout {
        width: layout.width,
        pixels: per.min(layout.pixels.saturating_sub(j * per)),
        used: PIECE_LEN.min(layout.used.saturating_sub(PIECE_LEN * j)),
        fill: layout.fill,
        blank: layout.blank,
    }
}

/// Whether the statistics of two parts are the same.
fn are_same_pixels(a: PixelSummary, b: PixelSummary) -> bool
    ensures { IsTrue result ↔ (a ≡ b) }
{
    a.defined == b.defined
        && a.blank == b.blank
        && a.least == b.least
        && a.greatest == b.greatest
        && a.sum == b.sum
}

/// Whether what is kept of two parts is the same.
pub(crate) fn are_same(a: Leaf, b: Leaf) -> bool
    ensures { IsTrue result ↔ (a ≡ b) }
{
    a.second.total == b.second.total && are_same_pixels(a.first, b.first)
}
