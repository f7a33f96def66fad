//! Rectangles of pixels, read from the bytes of a data unit.
ghost use Rattle.std.specs.Prelude.{◌≡◌, ◌≤◌, ◌<◌, ◌*◌, ◌+◌, ◌+ℤ◌, ◌^◌, ◌++◌, [], ◌∷◌, length, map, unsigned_abs, vec_len, vec_capacity};
ghost use Rattle.std.specs.List.{range_with_len};
ghost use Rattle.fits_pixels.specs.Pixels.{IsWidth};
ghost use Rattle.fits_plane.specs.Rectangle.{IsRectangle, product, rectangle_size, value_at, rectangle_values};

use crate::data_bytes::DataBytes;
use crate::rectangle::{row_len, row_start, rows};

/// The value of a stored number.
pub fn value_of(stored: i64, offset: i128) -> i128
    requires { unsigned_abs offset ≤ 2 ^ 64 }
    ensures { result ≡ stored +ℤ offset }
{
    stored as i128 + offset
}

/// Puts a value after the others, in room that is reserved.
pub fn put_value(values: &mut Vec<i128>, value: i128)
    requires { vec_len values.old < vec_capacity values.old }
    ensures items { values.new.items ≡ values.old.items ++ value ∷ [] }
    ensures len { vec_len values.new ≡ vec_len values.old + 1 }
    ensures room { vec_capacity values.old ≤ vec_capacity values.new }
{
    let _ = values.push(value);
}

/// Reads a run of pixels into room that is reserved, each with the offset.
fn read_row(
    values: &mut Vec<i128>,
    store: &mut DataBytes,
    width: usize,
    start: usize,
    count: usize,
    offset: i128,
)
    requires width { IsWidth width }
    requires within { (start + count) * width ≤ length store.old.bytes }
    requires small { start + count < 2 ^ 62 }
    requires offset { unsigned_abs offset ≤ 2 ^ 64 }
    requires room { vec_len values.old + count ≤ vec_capacity values.old }
    ensures items { values.new.items ≡ values.old.items
        ++ map (value_at width store.old.bytes offset) (range_with_len start count) }
    ensures len { vec_len values.new ≡ vec_len values.old + count }
    ensures room { vec_capacity values.old ≤ vec_capacity values.new }
    ensures work { store.new ≡ record store.old { reads = store.old.reads + count } }
{
    for x in 0..count {
        put_value(values, value_of(store.pixel(width, start + x), offset));
    }
}

/// Reads a rectangle into room that is reserved, row by row, each pixel with the offset.
pub(crate) fn read_rows(
    values: &mut Vec<i128>,
    store: &mut DataBytes,
    width: usize,
    axes: &[u64],
    lo: &[u64],
    hi: &[u64],
    offset: i128,
)
    requires width { IsWidth width }
    requires rectangle { IsRectangle axes.now lo.now hi.now }
    requires within { product axes.now * width ≤ length store.old.bytes }
    requires small { product axes.now < 2 ^ 62 }
    requires offset { unsigned_abs offset ≤ 2 ^ 64 }
    requires room { vec_len values.old + rectangle_size lo.now hi.now ≤ vec_capacity values.old }
    ensures items { values.new.items ≡ values.old.items
        ++ rectangle_values width store.old.bytes axes.now lo.now hi.now offset }
    ensures work { store.new
        ≡ record store.old { reads = store.old.reads + rectangle_size lo.now hi.now } }
{
    let side = row_len(axes, lo, hi) as usize;
    for row in 0..rows(axes, lo, hi) {
        let start = row_start(axes, lo, hi, row);
        read_row(values, store, width, start, side, offset);
    }
}
