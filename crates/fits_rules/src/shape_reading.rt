ghost use Rattle.std.specs.Prelude.{◌≡◌, ◌↔◌, [], IsTrue};
ghost use Rattle.fits_rules.specs.ShapeSteps.{IsReadingOf};

use crate::array_shape::Shape;
use crate::axis_buffer::AxisBuffer;
use crate::class::Class;

/// A shape that was read without memory. A count is missing where its lead says none.
#[derive(Drop)]
pub(crate) struct ShapeReading {
    pub(crate) class: Class,
    pub(crate) bitpix: i64,
    pub(crate) axes: AxisBuffer,
    pub(crate) pcount: Option<u64>,
    pub(crate) gcount: Option<u64>,
}

impl ShapeReading {
    /// Room for a reading, with no axes in it yet.
    pub(crate) fn new() -> ShapeReading
        ensures { result.axes ≡ [] }
    {
        ShapeReading {
            class: Class::Other,
            bitpix: 0,
            axes: AxisBuffer::new(),
            pcount: None,
            gcount: None,
        }
    }
}

/// Whether a reading is that of a shape.
pub(crate) fn is_shape(reading: &ShapeReading, shape: &Shape) -> bool
    ensures { IsTrue result ↔ IsReadingOf shape.now reading.now }
{
    reading.class == shape.class
        && reading.bitpix == shape.bitpix
        && reading.axes.as_slice() == shape.axes.as_slice()
        && reading.pcount == Some(shape.pcount)
        && reading.gcount == Some(shape.gcount)
}
