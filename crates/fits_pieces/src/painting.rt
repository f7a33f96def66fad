//! Rectangles of pixels, painted on pieces in memory.
ghost use Rattle.std.specs.Prelude.{◌≡◌, ◌≤◌, ◌<◌, ◌+◌, ℕ, Bool, None, Some, is_some, length, map, slice_index_or, slice_set, IsSomeAnd};
ghost use Rattle.fits_pixels.specs.Pixels.{IsWidth};
ghost use Rattle.fits_plane.specs.Painting.{number_of, touches, Paints, Suits};
ghost use Rattle.fits_plane.specs.Rectangle.{IsWritten};
ghost use Rattle.fits_plane.specs.ShortRows.{CanPaint, RowWritten};
ghost use Rattle.fits_pieces.specs.Blocks.{PieceState};
ghost use Rattle.fits_pieces.specs.Painting.{PaintsRun, PassesRun, RepaintsPieces, StaleIn, TakesRun};
ghost use Rattle.fits_pieces.specs.Pieces.{bytes_with, unit_of, AreFresh, ArePieces, HoldsPixels, HoldsRectangle, IsCut};

use crate::layouts::pixels_per_piece;
use crate::piece::Piece;
use crate::rescanning::{renew_leaves, rescan_pieces};
use fits_pixels::{Layout, Leaf};
use fits_plane::{Painting, Tree, row_len, row_start, rows};
use fits_stream::GoneBytes;

/// Paints a run of pixels of one of the pieces, the first of which has this rank.
fn paint_part(
    pieces: &mut Vec<Piece>,
    j: usize,
    start: usize,
    count: usize,
    painting: &Painting,
    rank: usize,
)
    requires some { 0 < count }
    requires index { j < length pieces.old.items }
    requires takes { IsSomeAnd (slice_index_or pieces.old.items j None)
        (TakesRun painting.now start count rank) }
    ensures { (it : PieceState) → slice_index_or pieces.old.items j None ≡ Some it
        → (new : PieceState) × (PaintsRun painting.now start count rank it new)
        × (pieces.new.items ≡ slice_set pieces.old.items j (Some new)) }
{
    pieces[j].paint_run(start, count, painting, rank);
}

/// The same of a run of the unit's pixels, whose pieces are in memory.
fn paint_row(
    pieces: &mut Vec<Piece>,
    gone: &GoneBytes,
    layout: Layout,
    start: usize,
    count: usize,
    painting: &Painting,
    rank: usize,
)
    requires cut { IsCut layout gone.now.bytes pieces.old.items }
    requires width { IsWidth layout.width }
    requires within { start + count ≤ layout.pixels }
    requires held { HoldsPixels layout.width start count pieces.old.items }
    requires paint { CanPaint layout.width painting.now rank count }
    ensures cut { IsCut layout gone.now.bytes pieces.new.items }
    ensures written { RowWritten layout.width start count
        (λ x. number_of painting.now (rank + x))
        (bytes_with pieces.old.items gone.now.bytes)
        (bytes_with pieces.new.items gone.now.bytes) }
    ensures repainted { RepaintsPieces pieces.old.items pieces.new.items }
    ensures stale { (test : ℕ → Bool) → StaleIn test pieces.old.items
        → PassesRun layout.width start count test → StaleIn test pieces.new.items }
{
    let per = pixels_per_piece(layout.width);
    let mut x = 0usize;
    while x < count {
        let from = (start + x) % per;
        let here = (count - x).min(per - from);
        paint_part(pieces, (start + x) / per, from, here, painting, rank + x);
        x += here;
    }
}

/// Paints a rectangle, whose pieces are in memory, row by row. The blocks that hold a pixel of it are
/// yet to be scanned then.
fn paint_rows(pieces: &mut Vec<Piece>, gone: &GoneBytes, layout: Layout, painting: &Painting)
    requires cut { IsCut layout gone.now.bytes pieces.old.items }
    requires fresh { AreFresh pieces.old.items }
    requires suits { Suits layout painting.now }
    requires held { HoldsRectangle painting.now.axes.now painting.now.lo.now painting.now.hi.now
        layout (map is_some pieces.old.items) }
    ensures cut { IsCut layout gone.now.bytes pieces.new.items }
    ensures written { IsWritten layout.width painting.now.axes.now painting.now.lo.now
        painting.now.hi.now (number_of painting.now)
        (bytes_with pieces.old.items gone.now.bytes)
        (bytes_with pieces.new.items gone.now.bytes) }
    ensures repainted { RepaintsPieces pieces.old.items pieces.new.items }
    ensures stale { StaleIn (touches painting.now layout) pieces.new.items }
{
    let side = row_len(painting.axes, painting.lo, painting.hi) as usize;
    for row in 0..rows(painting.axes, painting.lo, painting.hi) {
        let start = row_start(painting.axes, painting.lo, painting.hi, row);
        paint_row(
            pieces,
            gone,
            layout,
            start,
            side,
            painting,
            row as usize * side,
        );
    }
}

/// Paints a rectangle, whose pieces are in memory, and makes what is kept of them anew.
pub(crate) fn paint_pieces(
    pieces: &mut Vec<Piece>,
    marks: &mut Vec<bool>,
    tree: &mut Tree<Leaf>,
    gone: &GoneBytes,
    layout: Layout,
    painting: &Painting,
)
    requires marks { length marks.old.items ≡ length pieces.old.items }
    requires are { ArePieces layout gone.now.bytes (length gone.now.bytes)
        pieces.old.items tree.old.leaves }
    requires suits { Suits layout painting.now }
    requires held { HoldsRectangle painting.now.axes.now painting.now.lo.now painting.now.hi.now
        layout (map is_some pieces.old.items) }
    ensures marks { length marks.new.items ≡ length pieces.new.items }
    ensures are { ArePieces layout gone.now.bytes (length gone.now.bytes)
        pieces.new.items tree.new.leaves }
    ensures painted { (scans : ℕ) → Paints painting.now
        (unit_of layout gone.now.bytes pieces.old.items scans tree.old.joins).plane
        (unit_of layout gone.now.bytes pieces.new.items scans tree.new.joins).plane }
    ensures held { map is_some pieces.new.items ≡ map is_some pieces.old.items }
{
    paint_rows(pieces, gone, layout, painting);
    rescan_pieces(pieces, marks);
    renew_leaves(tree, pieces, marks.as_slice());
}
