use crate::numbers::Numbers;

/// What an HDU is.
#[repr(C)]
#[derive(Clone, Copy)]
pub struct Shaped {
    pub axes: Numbers,
    pub bitpix: i64,
    pub class: u8,
    /// The type of its pixels, or 0 where it is no image of integers.
    pub pixels: u8,
}
