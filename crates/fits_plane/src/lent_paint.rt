ghost use Rattle.std.specs.Prelude.{◌≡◌, ◌<◌, ℕ, true, IsTrue};
ghost use Rattle.fits_pixels.specs.Pixels.{IsWidth, IsStorable};
ghost use Rattle.fits_plane.specs.Paint.{can_store_paint, has_count, painted_number};

use crate::values::Values;
use fits_pixels::{are_storable, stores};

/// What the pixels of a rectangle are given.
#[derive(Drop)]
pub enum LentPaint<'a> {
    /// This value in each.
    Fill(i128),
    /// These values, in file order.
    Write(Values<'a>),
}

impl<'a> LentPaint<'a> {
    /// Whether it has a value for each of so many pixels, and no more.
    pub fn has_count(&self, size: u64) -> bool
        ensures { result ≡ has_count self.now size }
    {
        match self {
            LentPaint::Fill(_) => true,
            LentPaint::Write(values) => values.as_slice().len() as u64 == size,
        }
    }

    /// Whether pixels of so many bytes can store each of its values less the offset.
    pub fn is_storable(&self, width: usize, offset: i128) -> bool
        requires { IsWidth width }
        ensures value { result ≡ can_store_paint width offset self.now }
        ensures numbers { IsTrue result → (size : ℕ) → has_count self.now size ≡ true → (k : ℕ)
            → k < size → IsStorable width (painted_number self.now offset k) }
    {
        match self {
            LentPaint::Fill(value) => stores(width, *value, offset),
            LentPaint::Write(values) => are_storable(width, values.as_slice(), offset),
        }
    }
}
