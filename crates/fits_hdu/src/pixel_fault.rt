use thiserror::Error;

/// Why pixels aren't read or written: the first test that fails, in this order.
#[derive(Clone, Copy, Debug, Error)]
pub enum PixelFault {
    /// The HDU is no image of integers.
    #[error("no image of integers")]
    NotImage,
    /// The corners don't have a number for each axis, or don't lie in the axes, in order.
    #[error("bad rectangle")]
    BadRectangle,
    /// There are more or fewer values than the rectangle has pixels.
    #[error("wrong count of values")]
    WrongCount,
    /// A value, less the offset, isn't a number that a pixel can store.
    #[error("value out of range")]
    OutOfRange,
    /// Memory was refused.
    #[error("no memory")]
    Memory,
}
