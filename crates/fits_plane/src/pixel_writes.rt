//! Rectangles of pixels, painted in the bytes of a data unit.
ghost use Rattle.std.specs.Prelude.{◌≡◌, ◌≤◌, ◌<◌, ◌*◌, ◌+◌, ◌-ℤ◌, ◌⊎◌, ℕ, pos, length, slice_index, slice_index_or, FitsSigned};
ghost use Rattle.std.specs.Int.{w64};
ghost use Rattle.fits_pixels.specs.Layout.{IsLayout};
ghost use Rattle.fits_pixels.specs.Pixels.{pixel, IsWidth, IsStorable};
ghost use Rattle.fits_plane.specs.Painting.{number_of, Suits};
ghost use Rattle.fits_plane.specs.Rectangle.{IsWritten};
ghost use Rattle.fits_plane.specs.ShortRows.{CanPaint, RowWritten};

use crate::lent_paint::LentPaint;
use crate::painting::Painting;
use crate::pixel_writer::PixelWriter;
use crate::rectangle::{row_len, row_start, rows};
use fits_pixels::Layout;

/// Writes one number over a run of pixels.
fn fill_row(pixels: &mut PixelWriter<'_>, width: usize, start: usize, count: usize, stored: i64)
    requires width { IsWidth width }
    requires within { (start + count) * width ≤ length pixels.old.bytes.now }
    requires storable { IsStorable width stored }
    ensures same_reference { pixels.new.bytes.ghost_name ≡ pixels.old.bytes.ghost_name }
    ensures written { RowWritten width start count (λ x. stored)
        pixels.old.bytes.now pixels.new.bytes.now }
{
    for x in 0..count {
        pixels.put(width, start + x, stored);
    }
}

/// The stored number of a pixel value.
fn stored_of(value: i128, offset: i128) -> i64
    requires { FitsSigned w64 (value -ℤ offset) }
    ensures { result ≡ value -ℤ offset }
{
    (value - offset) as i64
}

/// Writes values less the offset over a run of pixels.
fn write_row(
    pixels: &mut PixelWriter<'_>,
    width: usize,
    start: usize,
    values: &[i128],
    offset: i128,
)
    requires width { IsWidth width }
    requires within { (start + length values.now) * width ≤ length pixels.old.bytes.now }
    requires storable { (x : ℕ) → x < length values.now
        → IsStorable width (slice_index_or values.now x (pos 0) -ℤ offset) }
    ensures same_reference { pixels.new.bytes.ghost_name ≡ pixels.old.bytes.ghost_name }
    ensures written { RowWritten width start (length values.now)
        (λ x. slice_index_or values.now x (pos 0) -ℤ offset)
        pixels.old.bytes.now pixels.new.bytes.now }
{
    for x in 0..values.len() {
        pixels.put(width, start + x, stored_of(values[x], offset));
    }
}

/// Paints a run of pixels, the first of which has this rank.
///
/// Which paint it is is asked once a row: asked at each pixel, it slows a fill by half and more.
pub(crate) fn paint_row(
    bytes: &mut [u8],
    width: usize,
    start: usize,
    count: usize,
    painting: &Painting,
    rank: usize,
)
    requires width { IsWidth width }
    requires within { (start + count) * width ≤ length bytes.old }
    requires some { 0 < count }
    requires paint { CanPaint width painting.now rank count }
    ensures long { length bytes.new ≡ length bytes.old }
    ensures inside { (x : ℕ) → x < count
        → pixel width bytes.new (start + x) ≡ number_of painting.now (rank + x) }
    ensures outside { (j : ℕ) → (j < start * width) ⊎ ((start + count) * width ≤ j)
        → slice_index bytes.new j ≡ slice_index bytes.old j }
{
    let mut pixels = PixelWriter::new(bytes);
    match painting.paint {
        LentPaint::Fill(value) => {
            let stored = stored_of(*value, painting.offset);
            fill_row(&mut pixels, width, start, count, stored);
        }
        LentPaint::Write(values) => {
            let part = &values.as_slice()[rank..rank + count];
            write_row(&mut pixels, width, start, part, painting.offset);
        }
    }
}

/// Paints a rectangle, row by row.
pub(crate) fn paint_rows(bytes: &mut [u8], layout: Layout, painting: &Painting)
    requires layout { IsLayout layout bytes.old }
    requires suits { Suits layout painting.now }
    ensures { IsWritten layout.width painting.now.axes.now painting.now.lo.now
        painting.now.hi.now (number_of painting.now) bytes.old bytes.new }
{
    let side = row_len(painting.axes, painting.lo, painting.hi) as usize;
    for row in 0..rows(painting.axes, painting.lo, painting.hi) {
        let start = row_start(painting.axes, painting.lo, painting.hi, row);
        let rank = row as usize * side;
        paint_row(bytes, layout.width, start, side, painting, rank);
    }
}
