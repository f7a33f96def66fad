//! Short rows of a rectangle, painted one by one: what is kept of a row's blocks is made anew from
//! what the row changed.
ghost use Rattle.std.specs.Prelude.{◌≡◌, ◌≤◌, ◌<◌, ◌*◌, ◌+◌, ◌-◌, ◌/◌, ◌^◌, ℕ, drop, length, slice_index, slice_index_or};
ghost use Rattle.fits_pixels.specs.Pixels.{IsWidth};
ghost use Rattle.fits_pixels.specs.Layout.{block_count, block_pixels};
ghost use Rattle.fits_plane.specs.Painting.{number_of, plane_by, Paints, Suits};
ghost use Rattle.fits_plane.specs.Rectangle.{row_size};
ghost use Rattle.fits_plane.specs.Leaves.{leaf_unit};
ghost use Rattle.fits_plane.specs.Tree.{most_above, nodes_left, IsLeastPower};
ghost use Rattle.fits_plane.specs.ShortRows.{IsKept, IsKeptBut, CanPaint, RowWritten};

use crate::data_bytes::DataBytes;
use crate::nodes::{climb, write_leaf};
use crate::painting::Painting;
use crate::rectangle::{row_len, row_start, rows};
use crate::tree::Tree;
use fits_pixels::{Layout, Leaf, pixels_per_block};
use fits_stream::Count;

/// The leaf of block k.
fn leaf_at(nodes: &[Leaf], width: usize, k: usize) -> Leaf
    requires long { length nodes.now ≡ 2 * width }
    requires within { k < width }
    ensures { result ≡ slice_index_or (drop width nodes.now) k leaf_unit }
{
    nodes[width + k]
}

/// Paints pixels of block k, and makes its leaf anew, after another leaf was written. Its place is
/// returned: the nodes above it are yet to be joined.
fn paint_part(
    nodes: &mut [Leaf],
    width: usize,
    last: usize,
    store: &mut DataBytes,
    layout: Layout,
    k: usize,
    start: usize,
    count: usize,
    painting: &Painting,
    rank: usize,
    joins: &mut Count,
) -> usize
    requires kept { IsKeptBut layout store.old.bytes width last nodes.old }
    requires width { IsWidth layout.width }
    requires some { 0 < count }
    requires low { k * block_pixels layout.width ≤ start }
    requires high { start + count ≤ (k + 1) * block_pixels layout.width }
    requires within { start + count ≤ layout.pixels }
    requires paint { CanPaint layout.width painting.now rank count }
    ensures place { result ≡ width + k }
    ensures written { RowWritten layout.width start count
        (λ x. number_of painting.now (rank + x)) store.old.bytes store.new.bytes }
    ensures kept { IsKeptBut layout store.new.bytes width result nodes.new }
    ensures reads { store.new.reads ≡ store.old.reads }
    ensures scans { store.new.scans ≡ store.old.scans + 1 }
    ensures more { joins.old.total ≤ joins.new.total }
    ensures few { (d : ℕ) → width ≤ 2 ^ d → joins.new.total ≤ joins.old.total + most_above d last }
    ensures left { (h : ℕ) → width ≡ 2 ^ h → last ≤ result → joins.new.total
        + nodes_left h (last - width) ≤ joins.old.total + nodes_left h k }
{
    let all = leaf_at(nodes, width, k);
    let leaf = store.paint_block(layout, k, start, count, painting, rank, all);
    write_leaf(nodes, width, last, k, leaf, joins)
}

/// Paints a row that is no longer than a block, so that it has pixels of two blocks at most. The
/// place of the last one's leaf is returned: the nodes above it are yet to be joined.
fn paint_short_row(
    nodes: &mut [Leaf],
    width: usize,
    last: usize,
    store: &mut DataBytes,
    layout: Layout,
    start: usize,
    count: usize,
    painting: &Painting,
    rank: usize,
    joins: &mut Count,
) -> usize
    requires kept { IsKeptBut layout store.old.bytes width last nodes.old }
    requires width { IsWidth layout.width }
    requires some { 0 < count }
    requires short { count ≤ block_pixels layout.width }
    requires within { start + count ≤ layout.pixels }
    requires paint { CanPaint layout.width painting.now rank count }
    ensures place { result ≡ width + (start + count - 1) / block_pixels layout.width }
    ensures written { RowWritten layout.width start count
        (λ x. number_of painting.now (rank + x)) store.old.bytes store.new.bytes }
    ensures kept { IsKeptBut layout store.new.bytes width result nodes.new }
    ensures reads { store.new.reads ≡ store.old.reads }
    ensures scans { store.new.scans ≡ store.old.scans + ((start + count - 1)
        / block_pixels layout.width + 1 - start / block_pixels layout.width) }
    ensures more { joins.old.total ≤ joins.new.total }
    ensures few { (d : ℕ) → width ≤ 2 ^ d → joins.new.total + most_above d result
        ≤ joins.old.total + most_above d last + (store.new.scans - store.old.scans) * d }
    ensures left { (h : ℕ) → width ≡ 2 ^ h → last ≤ width + start / block_pixels layout.width
        → joins.new.total + nodes_left h (last - width)
        ≤ joins.old.total + nodes_left h (result - width) }
{
    let per = pixels_per_block(layout.width);
    let k = start / per;
    let next = (k + 1) * per;
    let here = count.min(next - start);
    let place = paint_part(
        nodes, width, last, store, layout, k, start, here, painting, rank, joins,
    );
    if here < count {
        let rest = count - here;
        paint_part(
            nodes,
            width,
            place,
            store,
            layout,
            k + 1,
            next,
            rest,
            painting,
            rank + here,
            joins,
        )
    } else {
        place
    }
}

/// Paints a rectangle row by row, where no block has pixels of two rows, into the leaves of a tree.
fn paint_rows_apart(
    nodes: &mut [Leaf],
    width: usize,
    store: &mut DataBytes,
    layout: Layout,
    painting: &Painting,
    joins: &mut Count,
)
    requires kept { IsKeptBut layout store.old.bytes width 1 nodes.old }
    requires power { IsLeastPower (block_count store.old.bytes) width }
    requires suits { Suits layout painting.now }
    requires short { row_size painting.now.lo.now painting.now.hi.now ≤ block_pixels layout.width }
    requires apart { block_pixels layout.width + row_size painting.now.lo.now painting.now.hi.now
        ≤ slice_index painting.now.axes.now 0 }
    ensures painted { Paints painting.now (plane_by layout store.old joins.old.total)
        (plane_by layout store.new joins.new.total) }
    ensures kept { IsKeptBut layout store.new.bytes width 1 nodes.new }
{
    let side = row_len(painting.axes, painting.lo, painting.hi) as usize;
    // No leaf is written yet, and above the root nothing is to be joined.
    let mut last = 1usize;
    for row in 0..rows(painting.axes, painting.lo, painting.hi) {
        let start = row_start(painting.axes, painting.lo, painting.hi, row);
        let rank = row as usize * side;
        last = paint_short_row(
            nodes, width, last, store, layout, start, side, painting, rank, joins,
        );
    }
    climb(nodes, width, last, 1, joins);
    store.are_bytes();
}

impl Tree<Leaf> {
    /// Paints a rectangle row by row, where no block has pixels of two rows. The nodes above a leaf
    /// are joined up to where its path meets the next one's.
    pub(crate) fn paint_short_rows(
        &mut self,
        store: &mut DataBytes,
        layout: Layout,
        painting: &Painting,
    )
        requires kept { IsKept layout store.old.bytes self.old.leaves }
        requires suits { Suits layout painting.now }
        requires short { row_size painting.now.lo.now painting.now.hi.now
            ≤ block_pixels layout.width }
        requires apart { block_pixels layout.width
            + row_size painting.now.lo.now painting.now.hi.now
            ≤ slice_index painting.now.axes.now 0 }
        ensures painted { Paints painting.now (plane_by layout store.old self.old.joins)
            (plane_by layout store.new self.new.joins) }
        ensures kept { IsKept layout store.new.bytes self.new.leaves }
    {
        let nodes = self.nodes.as_mut_slice();
        paint_rows_apart(nodes, self.width, store, layout, painting, &mut self.joins);
    }
}
