//! A block of which a part is painted: what went of its summary and what came, without a look at the
//! rest.
ghost use Rattle.std.specs.Prelude.{◌≡◌, ◌≤◌, ◌<◌, ◌*◌, ◌+◌, ◌-◌, ℕ, List, length, slice_index};
ghost use Rattle.fits_pixels.specs.Pixels.{IsWidth};
ghost use Rattle.fits_pixels.specs.Layout.{IsLayout, block_pixels};
ghost use Rattle.fits_pixels.specs.Block.{leaf_of};
ghost use Rattle.fits_plane.specs.Painting.{number_of};
ghost use Rattle.fits_plane.specs.Parts.{part_of, AreGroupsChanged};
ghost use Rattle.fits_plane.specs.ShortRows.{CanPaint, RowWritten};

use crate::exchange::exchanged;
use crate::painting::Painting;
use crate::pixel_writes::paint_row;
use fits_pixels::{Layout, Leaf, read_bytes, scan_block, scan_part};

/// Scans a part of a block, by groups of eight bytes.
fn scan_groups(bytes: &[u8], layout: Layout, from: usize, to: usize) -> Leaf
    requires layout { IsLayout layout bytes.now }
    requires width { IsWidth layout.width }
    requires order { from ≤ to }
    requires within { 8 * to ≤ length bytes.now }
    requires short { to ≤ from + 360 }
    ensures { result ≡ part_of layout bytes.now from (to - from) }
{
    let part = &bytes[8 * from..8 * to];
    let per = 8 / layout.width;
    let held = layout
        .pixels
        .saturating_sub(from * per)
        .min((to - from) * per);
    scan_part(part, layout.width, held, layout.blank)
}

/// The summary of a block once a part of it changed, of which this went.
fn leaf_after(
    bytes: &[u8],
    layout: Layout,
    k: usize,
    from: usize,
    to: usize,
    all: Leaf,
    gone: Leaf,
) -> Leaf
    requires layout { IsLayout layout bytes.now }
    requires width { IsWidth layout.width }
    requires block { 2880 * k + 2880 ≤ length bytes.now }
    requires low { 360 * k ≤ from }
    requires order { from ≤ to }
    requires high { to ≤ 360 * k + 360 }
    ensures { (old : List ℕ) → ((j : ℕ) → slice_index old j < 256)
        → AreGroupsChanged from to old bytes.now → all ≡ leaf_of layout old k
        → gone ≡ part_of layout old from (to - from) → result ≡ leaf_of layout bytes.now k }
{
    read_bytes(bytes);
    let come = scan_groups(bytes, layout, from, to);
    match exchanged(all, gone, come) {
        Some(leaf) => leaf,
        None => scan_block(bytes, layout, k),
    }
}

/// Paints pixels of block k, of which this is kept, and says what is kept of it then.
pub(crate) fn paint_block(
    bytes: &mut [u8],
    layout: Layout,
    k: usize,
    start: usize,
    count: usize,
    painting: &Painting,
    rank: usize,
    all: Leaf,
) -> Leaf
    requires layout { IsLayout layout bytes.old }
    requires width { IsWidth layout.width }
    requires some { 0 < count }
    requires low { k * block_pixels layout.width ≤ start }
    requires high { start + count ≤ (k + 1) * block_pixels layout.width }
    requires within { start + count ≤ layout.pixels }
    requires paint { CanPaint layout.width painting.now rank count }
    ensures written { RowWritten layout.width start count
        (λ x. number_of painting.now (rank + x)) bytes.old bytes.new }
    ensures leaf { all ≡ leaf_of layout bytes.old k → result ≡ leaf_of layout bytes.new k }
{
    read_bytes(bytes);
    // The groups of eight bytes that hold the pixels, and perhaps others beside them.
    let from = start * layout.width / 8;
    let to = ((start + count) * layout.width).div_ceil(8);
    let gone = scan_groups(bytes, layout, from, to);
    paint_row(bytes, layout.width, start, count, painting, rank);
    leaf_after(bytes, layout, k, from, to, all, gone)
}
