ghost use Rattle.std.specs.Prelude.{◌≤◌, ◌+◌, slice_index, IsTrue};
ghost use Rattle.fits_plane.specs.Painting.{plane_by, Paints, Suits};
ghost use Rattle.fits_plane.specs.ShortRows.{IsKept};

use crate::data_bytes::DataBytes;
use crate::lent_paint::LentPaint;
use crate::rectangle::row_len;
use crate::tree::Tree;
use fits_pixels::{Layout, Leaf, pixels_per_block};

/// A rectangle of pixels with what they are given: the values of a paint, each less the offset.
///
/// Its corners count from 1, and it has a length for each axis of all pixels.
#[derive(Drop)]
pub struct Painting<'a> {
    pub axes: &'a [u64],
    pub lo: &'a [u64],
    pub hi: &'a [u64],
    pub paint: &'a LentPaint<'a>,
    pub offset: i128,
}

/// Whether each row is an eighth of a block at most, and no block has pixels of two rows.
///
/// What a row changes is read twice, and the whole block as well where the least or the greatest
/// number went: a longer row takes one of them along too often.
fn are_apart(axes: &[u64], per: usize, side: usize) -> bool
    ensures { IsTrue result → (side ≤ per) × (per + side ≤ slice_index axes.now 0) }
{
    match axes.first() {
        Some(axis) => side <= per / 8 && per as u64 <= axis.saturating_sub(side as u64),
        None => false,
    }
}

/// Paints all rows, and then scans each block that has a pixel of one.
fn paint_and_scan(tree: &mut Tree<Leaf>, store: &mut DataBytes, layout: Layout, painting: &Painting)
    requires kept { IsKept layout store.old.bytes tree.old.leaves }
    requires suits { Suits layout painting.now }
    ensures painted { Paints painting.now (plane_by layout store.old tree.old.joins)
        (plane_by layout store.new tree.new.joins) }
    ensures kept { IsKept layout store.new.bytes tree.new.leaves }
{
    store.paint_rows(layout, painting);
    store.are_bytes();
    tree.refresh_rectangle(store, layout, painting);
}

/// Paints a rectangle, and makes the leaves of its blocks anew.
pub(crate) fn paint_rectangle(
    tree: &mut Tree<Leaf>,
    store: &mut DataBytes,
    layout: Layout,
    painting: &Painting,
)
    requires kept { IsKept layout store.old.bytes tree.old.leaves }
    requires suits { Suits layout painting.now }
    ensures painted { Paints painting.now (plane_by layout store.old tree.old.joins)
        (plane_by layout store.new tree.new.joins) }
    ensures kept { IsKept layout store.new.bytes tree.new.leaves }
{
    let per = pixels_per_block(layout.width);
    let side = row_len(painting.axes, painting.lo, painting.hi) as usize;
    if are_apart(painting.axes, per, side) {
        tree.paint_short_rows(store, layout, painting);
    } else {
        paint_and_scan(tree, store, layout, painting);
    }
}
