//! The leaves of a data unit's tree: its blocks, each scanned once.
ghost use Rattle.std.specs.Prelude.{◌≡◌, ◌≤◌, ◌<◌, ◌*◌, ◌+◌, ◌-◌, ◌/◌, ◌^◌, ◌⊎◌, ℕ, false, drop, length, max, replicate, slice_index_or, IfOk, OnOk};
ghost use Rattle.fits_sum.specs.Words.{word_total};
ghost use Rattle.fits_pixels.specs.Summary.{PixelFits, WordFits, HalvesFit};
ghost use Rattle.fits_pixels.specs.Statistics.{statistics};
ghost use Rattle.fits_pixels.specs.Pixels.{pixels};
ghost use Rattle.fits_pixels.specs.Layout.{IsLayout, block_count, block_pixels};
ghost use Rattle.fits_plane.specs.Painting.{touches, Suits};
ghost use Rattle.fits_plane.specs.DataBytes.{IsScanned};
ghost use Rattle.fits_plane.specs.Tree.{most_above, nodes_left, IsLeastPower};
ghost use Rattle.fits_plane.specs.Work.{rectangle_blocks};
ghost use Rattle.fits_plane.specs.Leaves.{leaf_unit, IsLeaf, AreLeaves, IsBlockTree, IsBlockTreeBut};

use crate::data_bytes::DataBytes;
use crate::nodes::{climb, write_leaf};
use crate::painting::Painting;
use crate::rectangle::{row_len, row_start, rows};
use crate::tree::Tree;
use fits_pixels::{Layout, Leaf, pixels_per_block};
use fits_stream::Count;
use std::alloc::{AllocError, Global};

/// The summaries of all blocks.
pub fn leaves_of(
    alloc: Global,
    store: &mut DataBytes,
    layout: Layout,
    blocks: usize,
) -> Result<Vec<Leaf>, AllocError>
    requires layout { IsLayout layout store.old.bytes }
    requires whole { length store.old.bytes ≡ 2880 * blocks }
    ensures long { IfOk result (λ v. length v.items ≡ blocks) }
    ensures right { IfOk result (λ v. AreLeaves layout store.old.bytes v.items) }
    ensures fit { IfOk result (λ v. (k : ℕ) → k < blocks
        → HalvesFit PixelFits WordFits (slice_index_or v.items k leaf_unit)) }
    ensures same { IsScanned store.old store.new }
    ensures work { OnOk result (store.new.scans ≡ store.old.scans + blocks) }
{
    let mut leaves = Vec::with_capacity(alloc, blocks)?;
    for k in 0..blocks {
        leaves.push(store.scan(layout, k))?;
    }
    Ok(leaves)
}

/// The summaries of all blocks, where each byte is zero. Blocks that are full of pixels are all the
/// same, so one of them is scanned.
pub(crate) fn zero_leaves(
    alloc: Global,
    store: &mut DataBytes,
    layout: Layout,
    blocks: usize,
) -> Result<Vec<Leaf>, AllocError>
    requires layout { IsLayout layout store.old.bytes }
    requires whole { length store.old.bytes ≡ 2880 * blocks }
    requires zeros { store.old.bytes ≡ replicate (length store.old.bytes) 0 }
    ensures long { IfOk result (λ v. length v.items ≡ blocks) }
    ensures right { IfOk result (λ v. AreLeaves layout store.old.bytes v.items) }
    ensures fit { IfOk result (λ v. (k : ℕ) → k < blocks
        → HalvesFit PixelFits WordFits (slice_index_or v.items k leaf_unit)) }
    ensures same { IsScanned store.old store.new }
    ensures work { OnOk result (store.new.scans ≤ store.old.scans + blocks) }
{
    let full = full_blocks(layout);
    let mut leaves = Vec::with_capacity(alloc, blocks)?;
    for k in 0..blocks {
        let leaf = if 0 < k && k < full {
            leaves[0]
        } else {
            store.scan(layout, k)
        };
        leaves.push(leaf)?;
    }
    Ok(leaves)
}

/// How many blocks are full of pixels.
fn full_blocks(layout: Layout) -> usize
    ensures { result ≡ layout.pixels / block_pixels layout.width }
{
    layout
        .pixels
        .checked_div(pixels_per_block(layout.width))
        .unwrap_or(0)
}

/// Scans the blocks of a range, each into its leaf, after another leaf was written. The place of the
/// last one is returned: the nodes above it are yet to be joined.
fn refresh_blocks(
    nodes: &mut [Leaf],
    width: usize,
    last: usize,
    store: &mut DataBytes,
    layout: Layout,
    from: usize,
    to: usize,
    joins: &mut Count,
) -> usize
    requires layout { IsLayout layout store.old.bytes }
    requires tree { IsBlockTreeBut width last nodes.old }
    requires leaf { (last ≡ 1) ⊎ (width ≤ last) }
    requires blocks { to ≤ block_count store.old.bytes }
    requires within { block_count store.old.bytes ≤ width }
    ensures tree { IsBlockTreeBut width result nodes.new }
    ensures leaf { (result ≡ 1) ⊎ (width ≤ result) }
    ensures order { result ≤ max last (width + to) }
    ensures made { (k : ℕ) → from ≤ k → k < to → IsLeaf layout store.old.bytes (drop width nodes.new) k }
    ensures kept { (k : ℕ) → (k < from) ⊎ (to ≤ k)
        → slice_index_or (drop width nodes.new) k leaf_unit
        ≡ slice_index_or (drop width nodes.old) k leaf_unit }
    ensures same { IsScanned store.old store.new }
    ensures work { store.new.scans ≡ store.old.scans + (to - from) }
    ensures more { joins.old.total ≤ joins.new.total }
    ensures few { (d : ℕ) → width ≤ 2 ^ d → joins.new.total + most_above d result
        ≤ joins.old.total + most_above d last + (to - from) * d }
    ensures left { (h : ℕ) → width ≡ 2 ^ h → last ≤ width + from → joins.new.total
        + nodes_left h (last - width) ≤ joins.old.total + nodes_left h (result - width) }
{
    let mut place = last;
    for k in from..to {
        let leaf = store.scan(layout, k);
        place = write_leaf(nodes, width, place, k, leaf, joins);
    }
    place
}

/// Scans each block that holds a pixel of a rectangle, into the leaves of a tree.
fn refresh_rows(
    nodes: &mut [Leaf],
    width: usize,
    store: &mut DataBytes,
    layout: Layout,
    painting: &Painting,
    joins: &mut Count,
)
    requires layout { IsLayout layout store.old.bytes }
    requires suits { Suits layout painting.now }
    requires tree { IsBlockTree width nodes.old }
    requires power { IsLeastPower (block_count store.old.bytes) width }
    requires fresh { (k : ℕ) → k < block_count store.old.bytes
        → touches painting.now layout k ≡ false
        → IsLeaf layout store.old.bytes (drop width nodes.old) k }
    ensures tree { IsBlockTree width nodes.new }
    ensures right { (k : ℕ) → k < block_count store.old.bytes
        → IsLeaf layout store.old.bytes (drop width nodes.new) k }
    ensures units { (k : ℕ) → block_count store.old.bytes ≤ k
        → slice_index_or (drop width nodes.new) k leaf_unit
        ≡ slice_index_or (drop width nodes.old) k leaf_unit }
    ensures same { IsScanned store.old store.new }
    ensures more_work { store.old.scans ≤ store.new.scans }
    ensures work { store.new.scans ≤ store.old.scans + rectangle_blocks layout store.old.bytes
        painting.now.axes.now painting.now.lo.now painting.now.hi.now }
    ensures more { joins.old.total ≤ joins.new.total }
    ensures few { (d : ℕ) → block_count store.old.bytes ≤ 2 ^ d → joins.new.total
        ≤ joins.old.total + (store.new.scans - store.old.scans) * d }
    ensures most { (d : ℕ) → block_count store.old.bytes ≤ 2 ^ d
        → joins.new.total ≤ joins.old.total + 2 ^ d }
{
    let per = pixels_per_block(layout.width);
    let side = row_len(painting.axes, painting.lo, painting.hi) as usize;
    let mut next = 0usize;
    // No leaf is written yet, and above the root nothing is to be joined.
    let mut last = 1usize;
    for row in 0..rows(painting.axes, painting.lo, painting.hi) {
        let first = row_start(painting.axes, painting.lo, painting.hi, row);
        let start = (first / per).max(next);
        let stop = (first + side - 1) / per + 1;
        last = refresh_blocks(nodes, width, last, store, layout, start, stop, joins);
        next = next.max(stop);
    }
    climb(nodes, width, last, 1, joins);
}

impl Tree<Leaf> {
    /// Scans each block that holds a pixel of a rectangle, in ascending order. The nodes above a leaf
    /// are joined up to where its path meets the next one's.
    pub(crate) fn refresh_rectangle(
        &mut self,
        store: &mut DataBytes,
        layout: Layout,
        painting: &Painting,
    )
        requires layout { IsLayout layout store.old.bytes }
        requires suits { Suits layout painting.now }
        requires whole { length store.old.bytes ≡ 2880 * length self.old.leaves }
        requires fresh { (k : ℕ) → k < length self.old.leaves
            → touches painting.now layout k ≡ false
            → IsLeaf layout store.old.bytes self.old.leaves k }
        ensures long { length self.new.leaves ≡ length self.old.leaves }
        ensures right { AreLeaves layout store.old.bytes self.new.leaves }
        ensures same { IsScanned store.old store.new }
        ensures more_work { store.old.scans ≤ store.new.scans }
        ensures work { store.new.scans ≤ store.old.scans + rectangle_blocks layout
            store.old.bytes painting.now.axes.now painting.now.lo.now painting.now.hi.now }
        ensures more { self.old.joins ≤ self.new.joins }
        ensures joins { (d : ℕ) → block_count store.old.bytes ≤ 2 ^ d
            → self.new.joins ≤ self.old.joins + (store.new.scans - store.old.scans) * d }
        ensures most { (d : ℕ) → block_count store.old.bytes ≤ 2 ^ d
            → self.new.joins ≤ self.old.joins + 2 ^ d }
    {
        let nodes = self.nodes.as_mut_slice();
        refresh_rows(nodes, self.width, store, layout, painting, &mut self.joins);
    }
}

/// The statistics of all pixels and the total of all words, of a tree whose leaves are right.
pub(crate) fn root_of(tree: &Tree<Leaf>, store: &DataBytes, layout: Layout) -> Leaf
    requires layout { IsLayout layout store.now.bytes }
    requires whole { length store.now.bytes ≡ 2880 * length tree.now.leaves }
    requires right { AreLeaves layout store.now.bytes tree.now.leaves }
    ensures first { result.first
        ≡ statistics layout.blank (pixels layout.width store.now.bytes 0 layout.pixels) }
    ensures second { result.second.total ≡ word_total store.now.bytes }
{
    store.are_bytes();
    tree.root()
}
