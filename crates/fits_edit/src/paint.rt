use crate::pixel_values::PixelValues;
use fits_plane::{LentPaint, Values};

/// What the pixels of a rectangle are given. A value is a stored number plus the offset of the
/// image's kind.
#[derive(Drop)]
pub enum Paint {
    /// Each has this value.
    Fill(i128),
    /// They have these values, in file order.
    Write(PixelValues),
}

impl Paint {
    ghost use Rattle.std.specs.Prelude.{◌≡◌};
    ghost use Rattle.fits_edit.specs.Paint.{plane_paint};

    /// The same, lent to a plane.
    pub fn lent(&self) -> LentPaint<'_>
        ensures { result ≡ plane_paint self.now }
    {
        match self {
            Paint::Fill(value) => LentPaint::Fill(*value),
            Paint::Write(values) => LentPaint::Write(Values::new(values.as_slice())),
        }
    }
}
