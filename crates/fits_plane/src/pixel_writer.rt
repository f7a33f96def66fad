ghost use Rattle.std.specs.Prelude.{◌≡◌, ◌≤◌, ◌*◌, ◌+◌};

use fits_pixels::{Width, put_pixel};

/// Bytes of pixels that can be written, and not read.
///
/// Who paints is lent this and not the bytes, so that no pixel is looked at without a count. Pixels
/// that are stored anew are written by it too.
#[derive(Drop)]
pub(crate) struct PixelWriter<'a> {
    bytes: &'a mut [u8],
}

impl<'a> PixelWriter<'a> {
    ghost use Rattle.std.specs.Prelude.{◌≡◌, ◌≤◌, ◌<◌, ◌*◌, ◌+◌, ◌⊎◌, ℕ, length, slice_index};
    ghost use Rattle.fits_pixels.specs.Pixels.{pixel, IsStorable, IsWidth};

    pub(crate) fn new(bytes: &'a mut [u8]) -> PixelWriter<'a>
        ensures same_reference { result.bytes.ghost_name ≡ bytes.entry.ghost_name }
        ensures value { result.bytes.now ≡ bytes.old }
    {
        PixelWriter { bytes }
    }

    /// Writes stored pixel i.
    pub(crate) fn put(&mut self, width: usize, i: usize, stored: i64)
        requires width { IsWidth width }
        requires within { (i + 1) * width ≤ length self.old.bytes.now }
        requires storable { IsStorable width stored }
        ensures same_reference { self.new.bytes.ghost_name ≡ self.old.bytes.ghost_name }
        ensures long { length self.new.bytes.now ≡ length self.old.bytes.now }
        ensures here { pixel width self.new.bytes.now i ≡ stored }
        ensures other { (j : ℕ) → (j < i * width) ⊎ ((i + 1) * width ≤ j)
            → slice_index self.new.bytes.now j ≡ slice_index self.old.bytes.now j }
    {
        put_pixel(self.bytes, width, i, stored);
    }
    /// The same, of a width that a type names.
    pub(crate) fn put_as<B: Width>(&mut self, i: usize, stored: i64)
        requires within { (i + 1) * B.width ≤ length self.old.bytes.now }
        requires storable { IsStorable B.width stored }
        ensures same_reference { self.new.bytes.ghost_name ≡ self.old.bytes.ghost_name }
        ensures long { length self.new.bytes.now ≡ length self.old.bytes.now }
        ensures here { pixel B.width self.new.bytes.now i ≡ stored }
        ensures other { (j : ℕ) → (j < i * B.width) ⊎ ((i + 1) * B.width ≤ j)
            → slice_index self.new.bytes.now j ≡ slice_index self.old.bytes.now j }
    {
        B::write(self.bytes, i, stored);
    }
}
