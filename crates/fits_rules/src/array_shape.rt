use crate::axes::Axes;
use crate::class::Class;

/// What a header's mandatory keywords say of its data (FITS Standard 4.0, section 4.4.1).
#[derive(Drop)]
pub struct Shape {
    pub class: Class,
    /// Bits of a value: 8, 16, 32, 64, and -32 and -64 for floating-point numbers.
    pub bitpix: i64,
    /// The numbers of NAXIS1, NAXIS2 and so on.
    pub axes: Axes,
    /// Parameters of a group, or values after an array. 0 in class Primary.
    pub pcount: u64,
    /// How many groups. 1 in class Primary.
    pub gcount: u64,
}
