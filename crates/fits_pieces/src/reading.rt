//! Rectangles of pixels, read from pieces in memory.
ghost use Rattle.std.specs.Prelude.{◌≡◌, ◌≤◌, ◌<◌, ◌*◌, ◌+◌, ◌/◌, ◌^◌, ◌++◌, ℕ, None, Some, is_some, length, map, slice_index_or, slice_set, true, unsigned_abs, vec_len, vec_capacity, IsSomeAnd};
ghost use Rattle.std.specs.List.{range_with_len};
ghost use Rattle.fits_pixels.specs.Pixels.{IsWidth};
ghost use Rattle.fits_pieces.specs.Blocks.{PieceState};
ghost use Rattle.fits_plane.specs.Rectangle.{product, rectangle_size, rectangle_values, value_at, IsRectangle};
ghost use Rattle.fits_pieces.specs.Piece.{piece_pixels};
ghost use Rattle.fits_pieces.specs.Pieces.{bytes_with, HoldsPixels, HoldsRectangle, IsCut, ReadsPieces};

use crate::blocks::Blocks;
use crate::layouts::pixels_per_piece;
use crate::piece::Piece;
use fits_pixels::Layout;
use fits_plane::{put_value, row_len, row_start, rows, value_of};
use fits_stream::GoneBytes;

/// Reads a run of pixels into room that is reserved, each with the offset.
pub(crate) fn read_run(
    blocks: &mut Blocks,
    values: &mut Vec<i128>,
    start: usize,
    count: usize,
    offset: i128,
)
    requires within { start + count ≤ blocks.old.layout.pixels }
    requires small { start + count < 2 ^ 62 }
    requires offset { unsigned_abs offset ≤ 2 ^ 64 }
    requires room { vec_len values.old + count ≤ vec_capacity values.old }
    ensures items { values.new.items ≡ values.old.items
        ++ map (value_at blocks.old.layout.width blocks.old.bytes offset)
        (range_with_len start count) }
    ensures len { vec_len values.new ≡ vec_len values.old + count }
    ensures room { vec_capacity values.old ≤ vec_capacity values.new }
    ensures work { blocks.new ≡ record blocks.old { reads = blocks.old.reads + count } }
{
    for x in 0..count {
        put_value(values, value_of(blocks.pixel(start + x), offset));
    }
}

/// The same of pixels of one of the pieces.
fn read_part(
    pieces: &mut Vec<Piece>,
    j: usize,
    values: &mut Vec<i128>,
    start: usize,
    count: usize,
    offset: i128,
)
    requires held { IsSomeAnd (slice_index_or pieces.old.items j None)
        (λ it. start + count ≤ it.layout.pixels) }
    requires index { j < length pieces.old.items }
    requires small { start + count < 2 ^ 62 }
    requires offset { unsigned_abs offset ≤ 2 ^ 64 }
    requires room { vec_len values.old + count ≤ vec_capacity values.old }
    ensures items { (it : PieceState) → slice_index_or pieces.old.items j None ≡ Some it
        → values.new.items ≡ values.old.items
        ++ map (value_at it.layout.width it.bytes offset) (range_with_len start count) }
    ensures len { vec_len values.new ≡ vec_len values.old + count }
    ensures room { vec_capacity values.old ≤ vec_capacity values.new }
    ensures work { (it : PieceState) → slice_index_or pieces.old.items j None ≡ Some it
        → pieces.new.items
        ≡ slice_set pieces.old.items j (Some (record it { reads = it.reads + count })) }
{
    pieces[j].read_run(values, start, count, offset);
}

/// The same of a run of the unit's pixels, whose pieces are in memory.
fn read_row(
    pieces: &mut Vec<Piece>,
    gone: &GoneBytes,
    layout: Layout,
    values: &mut Vec<i128>,
    start: usize,
    count: usize,
    offset: i128,
)
    requires cut { IsCut layout gone.now.bytes pieces.old.items }
    requires width { IsWidth layout.width }
    requires within { start + count ≤ layout.pixels }
    requires held { HoldsPixels layout.width start count pieces.old.items }
    requires offset { unsigned_abs offset ≤ 2 ^ 64 }
    requires room { vec_len values.old + count ≤ vec_capacity values.old }
    ensures items { values.new.items ≡ values.old.items
        ++ map (value_at layout.width (bytes_with pieces.old.items gone.now.bytes) offset)
        (range_with_len start count) }
    ensures len { vec_len values.new ≡ vec_len values.old + count }
    ensures room { vec_capacity values.old ≤ vec_capacity values.new }
    ensures work { ReadsPieces count pieces.old.items pieces.new.items }
{
    let per = pixels_per_piece(layout.width);
    let mut x = 0usize;
    while x < count {
        let from = (start + x) % per;
        let here = (count - x).min(per - from);
        read_part(pieces, (start + x) / per, values, from, here, offset);
        x += here;
    }
}

/// Reads a rectangle, whose pieces are in memory, into room that is reserved, row by row, each pixel
/// with the offset.
pub(crate) fn read_rows(
    pieces: &mut Vec<Piece>,
    gone: &GoneBytes,
    layout: Layout,
    values: &mut Vec<i128>,
    axes: &[u64],
    lo: &[u64],
    hi: &[u64],
    offset: i128,
)
    requires cut { IsCut layout gone.now.bytes pieces.old.items }
    requires rectangle { IsRectangle axes.now lo.now hi.now }
    requires all { product axes.now ≡ layout.pixels }
    requires held { HoldsRectangle axes.now lo.now hi.now layout (map is_some pieces.old.items) }
    requires offset { unsigned_abs offset ≤ 2 ^ 64 }
    requires room { vec_len values.old + rectangle_size lo.now hi.now ≤ vec_capacity values.old }
    ensures items { values.new.items ≡ values.old.items
        ++ rectangle_values layout.width (bytes_with pieces.old.items gone.now.bytes)
        axes.now lo.now hi.now offset }
    ensures work { ReadsPieces (rectangle_size lo.now hi.now) pieces.old.items pieces.new.items }
{
    let side = row_len(axes, lo, hi) as usize;
    for row in 0..rows(axes, lo, hi) {
        let start = row_start(axes, lo, hi, row);
        read_row(pieces, gone, layout, values, start, side, offset);
    }
}
