//! Pixels of a data unit, stored anew in other bytes: at another width, each with a shift.
//!
//! Whether a full block's numbers can be stored is seen by the least and the greatest of them, which
//! are kept. So its pixels are stored without a test, and those of the last block, where it isn't
//! kept whole, are tested one by one.
ghost use Rattle.std.specs.Prelude.{◌≡◌, ◌≤◌, ◌<◌, ◌*◌, ◌+◌, ◌+ℤ◌, ◌%◌, ◌^◌, ◌⊎◌, ◌↔◌, ℕ, ℤ, pos, List, IsTrue, IfSome, length, slice_index, slice_index_or, unsigned_abs};
ghost use Rattle.fits_pixels.specs.Layout.{block_pixels};
ghost use Rattle.fits_pixels.specs.Pixels.{pixel, IsWidth, IsStorable};
ghost use Rattle.fits_pixels.specs.Statistics.{statistics};
ghost use Rattle.fits_plane.specs.DataBytes.{IsRead};
ghost use Rattle.fits_plane.specs.ShortRows.{IsKept};

use crate::data_bytes::DataBytes;
use crate::pixel_reads::value_of;
use crate::pixel_writer::PixelWriter;
use crate::tree::Tree;
use fits_pixels::{Layout, Leaf, PixelSummary, Width, is_storable, pixels_per_block};

/// Whether pixels of so many bytes can store a number with the shift, where there is one.
fn has_room(number: Option<i64>, width: usize, shift: i128) -> bool
    requires width { IsWidth width }
    requires shift { unsigned_abs shift ≤ 2 ^ 64 }
    ensures { IsTrue result ↔ IfSome number (λ z. IsStorable width (z +ℤ shift)) }
{
    match number {
        Some(stored) => is_storable(width, value_of(stored, shift)),
        None => true,
    }
}

/// Whether they can store each number of which these are the statistics.
///
/// A blank pixel keeps its number too, and is no part of the least and the greatest.
fn summary_converts(summary: PixelSummary, blank: Option<i64>, width: usize, shift: i128) -> bool
    requires width { IsWidth width }
    requires shift { unsigned_abs shift ≤ 2 ^ 64 }
    ensures { (xs : List ℤ) → summary ≡ statistics blank xs
        → IsTrue result ↔ ((i : ℕ) → i < length xs
        → IsStorable width (slice_index_or xs i (pos 0) +ℤ shift)) }
{
    if !has_room(summary.least, width, shift) {
        return false;
    }
    if !has_room(summary.greatest, width, shift) {
        return false;
    }
    if summary.blank == 0 {
        return true;
    }
    has_room(blank, width, shift)
}

/// Whether they can store the numbers of the first blocks, which are full. No pixel is read.
fn blocks_convert(
    width: usize,
    store: &DataBytes,
    layout: Layout,
    tree: &Tree<Leaf>,
    blocks: usize,
    shift: i128,
) -> bool
    requires width { IsWidth width }
    requires from { IsWidth layout.width }
    requires kept { IsKept layout store.now.bytes tree.now.leaves }
    requires full { blocks * block_pixels layout.width ≤ layout.pixels }
    requires shift { unsigned_abs shift ≤ 2 ^ 64 }
    ensures { IsTrue result ↔ ((x : ℕ) → x < blocks * block_pixels layout.width
        → IsStorable width (pixel layout.width store.now.bytes x +ℤ shift)) }
{
    for k in 0..blocks {
        if !summary_converts(tree.leaf(k).first, layout.blank, width, shift) {
            return false;
        }
    }
    true
}

/// Whether they can store a run of pixels, each with the shift. Each is read once at most.
fn converts_each(
    width: usize,
    store: &mut DataBytes,
    from: usize,
    start: usize,
    count: usize,
    shift: i128,
) -> bool
    requires width { IsWidth width }
    requires from { IsWidth from }
    requires within { (start + count) * from ≤ length store.old.bytes }
    requires small { start + count < 2 ^ 62 }
    requires shift { unsigned_abs shift ≤ 2 ^ 64 }
    ensures means { IsTrue result ↔ ((x : ℕ) → x < count
        → IsStorable width (pixel from store.old.bytes (start + x) +ℤ shift)) }
    ensures same { IsRead store.old store.new }
    ensures more { store.old.reads ≤ store.new.reads }
    ensures reads { store.new.reads ≤ store.old.reads + count }
{
    for x in 0..count {
        let number = value_of(store.pixel(from, start + x), shift);
        if !is_storable(width, number) {
            return false;
        }
    }
    true
}

/// Stores a run of pixels anew, each with the shift, as far as its numbers can be stored. Each is
/// read once at most.
fn convert_each(
    pixels: &mut PixelWriter<'_>,
    width: usize,
    store: &mut DataBytes,
    from: usize,
    start: usize,
    count: usize,
    shift: i128,
) -> bool
    requires width { IsWidth width }
    requires from { IsWidth from }
    requires within { (start + count) * from ≤ length store.old.bytes }
    requires room { (start + count) * width ≤ length pixels.old.bytes.now }
    requires small { start + count < 2 ^ 62 }
    requires shift { unsigned_abs shift ≤ 2 ^ 64 }
    ensures means { IsTrue result ↔ ((x : ℕ) → x < count
        → IsStorable width (pixel from store.old.bytes (start + x) +ℤ shift)) }
    ensures same_reference { pixels.new.bytes.ghost_name ≡ pixels.old.bytes.ghost_name }
    ensures long { length pixels.new.bytes.now ≡ length pixels.old.bytes.now }
    ensures inside { IsTrue result → (x : ℕ) → x < count
        → pixel width pixels.new.bytes.now (start + x)
        ≡ pixel from store.old.bytes (start + x) +ℤ shift }
    ensures outside { (j : ℕ) → (j < start * width) ⊎ ((start + count) * width ≤ j)
        → slice_index pixels.new.bytes.now j ≡ slice_index pixels.old.bytes.now j }
    ensures same { IsRead store.old store.new }
    ensures more { store.old.reads ≤ store.new.reads }
    ensures reads { store.new.reads ≤ store.old.reads + count }
{
    for x in 0..count {
        let i = start + x;
        let number = value_of(store.pixel(from, i), shift);
        if !is_storable(width, number) {
            return false;
        }
        pixels.put(width, i, number as i64);
    }
    true
}

/// Stores the first pixels anew, where the width that is written is a type's. That they can be stored
/// is known.
fn convert_to<B: Width>(
    target: &mut [u8],
    store: &mut DataBytes,
    from: usize,
    count: usize,
    shift: i128,
)
    requires from { IsWidth from }
    requires within { count * from ≤ length store.old.bytes }
    requires room { count * B.width ≤ length target.old }
    requires shift { unsigned_abs shift ≤ 2 ^ 64 }
    requires storable { (x : ℕ) → x < count
        → IsStorable B.width (pixel from store.old.bytes x +ℤ shift) }
    ensures long { length target.new ≡ length target.old }
    ensures inside { (x : ℕ) → x < count
        → pixel B.width target.new x ≡ pixel from store.old.bytes x +ℤ shift }
    ensures outside { (j : ℕ) → count * B.width ≤ j
        → slice_index target.new j ≡ slice_index target.old j }
    ensures work { store.new ≡ record store.old { reads = store.old.reads + count } }
{
    match from {
        1 => store.convert_as::<u8, B>(target, count, shift),
        2 => store.convert_as::<i16, B>(target, count, shift),
        4 => store.convert_as::<i32, B>(target, count, shift),
        _ => store.convert_as::<i64, B>(target, count, shift),
    }
}

/// The same, where it is a number.
fn convert_all(
    target: &mut [u8],
    width: usize,
    store: &mut DataBytes,
    from: usize,
    count: usize,
    shift: i128,
)
    requires width { IsWidth width }
    requires from { IsWidth from }
    requires within { count * from ≤ length store.old.bytes }
    requires room { count * width ≤ length target.old }
    requires shift { unsigned_abs shift ≤ 2 ^ 64 }
    requires storable { (x : ℕ) → x < count
        → IsStorable width (pixel from store.old.bytes x +ℤ shift) }
    ensures long { length target.new ≡ length target.old }
    ensures inside { (x : ℕ) → x < count
        → pixel width target.new x ≡ pixel from store.old.bytes x +ℤ shift }
    ensures outside { (j : ℕ) → count * width ≤ j
        → slice_index target.new j ≡ slice_index target.old j }
    ensures work { store.new ≡ record store.old { reads = store.old.reads + count } }
{
    match width {
        1 => convert_to::<u8>(target, store, from, count, shift),
        2 => convert_to::<i16>(target, store, from, count, shift),
        4 => convert_to::<i32>(target, store, from, count, shift),
        _ => convert_to::<i64>(target, store, from, count, shift),
    }
}

/// Whether pixels of so many bytes can store the first pixels of a data unit, each with the shift.
///
/// Only pixels past the last full block are read.
pub(crate) fn converts_run(
    width: usize,
    store: &mut DataBytes,
    layout: Layout,
    tree: &Tree<Leaf>,
    count: usize,
    shift: i128,
) -> bool
    requires width { IsWidth width }
    requires from { IsWidth layout.width }
    requires kept { IsKept layout store.old.bytes tree.now.leaves }
    requires within { count ≤ layout.pixels }
    requires shift { unsigned_abs shift ≤ 2 ^ 64 }
    ensures means { IsTrue result ↔ ((x : ℕ) → x < count
        → IsStorable width (pixel layout.width store.old.bytes x +ℤ shift)) }
    ensures same { IsRead store.old store.new }
    ensures more { store.old.reads ≤ store.new.reads }
    ensures reads { store.new.reads ≤ store.old.reads + count % block_pixels layout.width }
{
    let from = layout.width;
    let per = pixels_per_block(from);
    let blocks = count / per;
    if !blocks_convert(width, store, layout, tree, blocks, shift) {
        return false;
    }
    let full = blocks * per;
    converts_each(width, store, from, full, count - full, shift)
}

/// Stores the first pixels of a data unit anew, each with the shift, where all of them can be
/// stored. Each is read once at most.
pub(crate) fn convert_run(
    target: &mut [u8],
    width: usize,
    store: &mut DataBytes,
    layout: Layout,
    tree: &Tree<Leaf>,
    count: usize,
    shift: i128,
) -> bool
    requires width { IsWidth width }
    requires from { IsWidth layout.width }
    requires kept { IsKept layout store.old.bytes tree.now.leaves }
    requires within { count ≤ layout.pixels }
    requires room { count * width ≤ length target.old }
    requires shift { unsigned_abs shift ≤ 2 ^ 64 }
    ensures means { IsTrue result ↔ ((x : ℕ) → x < count
        → IsStorable width (pixel layout.width store.old.bytes x +ℤ shift)) }
    ensures long { length target.new ≡ length target.old }
    ensures inside { IsTrue result → (x : ℕ) → x < count
        → pixel width target.new x ≡ pixel layout.width store.old.bytes x +ℤ shift }
    ensures outside { (j : ℕ) → count * width ≤ j
        → slice_index target.new j ≡ slice_index target.old j }
    ensures same { IsRead store.old store.new }
    ensures more { store.old.reads ≤ store.new.reads }
    ensures reads { store.new.reads ≤ store.old.reads + count }
{
    let from = layout.width;
    let per = pixels_per_block(from);
    let blocks = count / per;
    if !blocks_convert(width, store, layout, tree, blocks, shift) {
        return false;
    }
    let full = blocks * per;
    convert_all(target, width, store, from, full, shift);
    let mut pixels = PixelWriter::new(target);
    convert_each(&mut pixels, width, store, from, full, count - full, shift)
}
