//! Pieces that a rectangle wants, and that aren't in memory.
ghost use Rattle.std.specs.Prelude.{◌≡◌, ◌<◌, ◌≤◌, ℕ, ◌-◌, [], ◌∷◌, ◌++◌, false, true, filter, is_some, length, map, not, slice_index_or, if◌then◌else◌, IfOk, IsOk, OnOk};
ghost use Rattle.std.specs.List.{range_with_len};
ghost use Rattle.fits_plane.specs.Rectangle.{product, IsRectangle};
ghost use Rattle.fits_pieces.specs.Pieces.{missing_pieces, HoldsRectangle, IsCut};

use crate::layouts::pixels_per_piece;
use crate::piece::Piece;
use fits_pixels::Layout;
use fits_plane::{row_len, row_start, rows};
use fits_stream::GoneBytes;
use std::alloc::{AllocError, Global};

/// Adds a piece, if it isn't in memory.
fn add_piece(found: &mut Vec<usize>, j: usize, held: bool) -> Result<(), AllocError>
    ensures value { OnOk result (found.new.items
        ≡ found.old.items ++ (if held then [] else j ∷ [])) }
    ensures at_once { held ≡ true → IsOk result }
{
    if held {
        return Ok(());
    }
    found.push(j)?;
    Ok(())
}

/// Adds those of a range of pieces that aren't in memory.
fn add_missing(
    found: &mut Vec<usize>,
    pieces: &Vec<Piece>,
    from: usize,
    to: usize,
) -> Result<(), AllocError>
    requires { to ≤ length pieces.now.items }
    ensures value { OnOk result (found.new.items ≡ found.old.items
        ++ filter (λ j. not (slice_index_or (map is_some pieces.now.items) j false))
        (range_with_len from (to - from))) }
    ensures at_once { ((j : ℕ) → from ≤ j → j < to
        → slice_index_or (map is_some pieces.now.items) j false ≡ true) → IsOk result }
{
    for j in from..to {
        add_piece(found, j, pieces[j].is_held())?;
    }
    Ok(())
}

/// The pieces that have a pixel of a rectangle and aren't in memory, in order.
pub(crate) fn find_missing(
    alloc: Global,
    pieces: &Vec<Piece>,
    gone: &GoneBytes,
    layout: Layout,
    axes: &[u64],
    lo: &[u64],
    hi: &[u64],
) -> Result<Vec<usize>, AllocError>
    requires cut { IsCut layout gone.now.bytes pieces.now.items }
    requires rectangle { IsRectangle axes.now lo.now hi.now }
    requires all { product axes.now ≡ layout.pixels }
    ensures value { IfOk result (λ v. v.items ≡ missing_pieces
        axes.now lo.now hi.now layout (map is_some pieces.now.items)) }
    ensures at_once { HoldsRectangle axes.now lo.now hi.now
        layout (map is_some pieces.now.items) → IsOk result }
{
    let per = pixels_per_piece(layout.width);
    let side = row_len(axes, lo, hi) as usize;
    let mut found = Vec::new(alloc);
    let mut next = 0usize;
    for row in 0..rows(axes, lo, hi) {
        let first = row_start(axes, lo, hi, row);
        let start = (first / per).max(next);
        let stop = (first + side - 1) / per + 1;
        add_missing(&mut found, pieces, start, stop)?;
        next = next.max(stop);
    }
    Ok(found)
}
