ghost use Rattle.std.specs.Prelude.{◌≡◌, ◌≤◌, ◌<◌, ◌*◌, ◌+◌, ◌⊎◌, ℕ, length, slice_index, refl};
ghost use Rattle.std.proofs.Common.{inl, inr};
ghost use Rattle.fits_pixels.specs.Pixels.{pixel, IsWidth, IsStorable};

use crate::pixels::{pixel_at, put_pixel};

/// A width of pixels that a type names, so that a loop over them is built for that width.
pub trait Width {
    /// How many bytes such a pixel has.
    ghost width: { ℕ };

    ghost is_width: { IsWidth width };

    /// Stored pixel i.
    fn read(bytes: &[u8], i: usize) -> i64
        requires within { (i + 1) * width ≤ length bytes.now }
        ensures { result ≡ pixel width bytes.now i };

    /// Writes stored pixel i.
    fn write(bytes: &mut [u8], i: usize, stored: i64)
        requires within { (i + 1) * width ≤ length bytes.old }
        requires storable { IsStorable width stored }
        ensures long { length bytes.new ≡ length bytes.old }
        ensures here { pixel width bytes.new i ≡ stored }
        ensures other { (j : ℕ) → (j < i * width) ⊎ ((i + 1) * width ≤ j)
            → slice_index bytes.new j ≡ slice_index bytes.old j };
}

impl Width for u8 {
    ghost width = { 1 };

    ghost is_width = { inl refl };

    fn read(bytes: &[u8], i: usize) -> i64 {
        pixel_at(bytes, 1, i)
    }

    fn write(bytes: &mut [u8], i: usize, stored: i64) {
        put_pixel(bytes, 1, i, stored);
    }
}

impl Width for i16 {
    ghost width = { 2 };

    ghost is_width = { inr (inl refl) };

    fn read(bytes: &[u8], i: usize) -> i64 {
        pixel_at(bytes, 2, i)
    }

    fn write(bytes: &mut [u8], i: usize, stored: i64) {
        put_pixel(bytes, 2, i, stored);
    }
}

impl Width for i32 {
    ghost width = { 4 };

    ghost is_width = { inr (inr (inl refl)) };

    fn read(bytes: &[u8], i: usize) -> i64 {
        pixel_at(bytes, 4, i)
    }

    fn write(bytes: &mut [u8], i: usize, stored: i64) {
        put_pixel(bytes, 4, i, stored);
    }
}

impl Width for i64 {
    ghost width = { 8 };

    ghost is_width = { inr (inr (inr refl)) };

    fn read(bytes: &[u8], i: usize) -> i64 {
        pixel_at(bytes, 8, i)
    }

    fn write(bytes: &mut [u8], i: usize, stored: i64) {
        put_pixel(bytes, 8, i, stored);
    }
}
