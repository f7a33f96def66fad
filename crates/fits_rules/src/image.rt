ghost use Rattle.std.specs.Prelude.{◌≡◌};
ghost use Rattle.fits_rules.specs.Image.{array_bits, image_bits};

use crate::array_shape::Shape;
use crate::class::Class;

/// How many bits a value has in an array of integers, with axes or without, of the primary HDU or of
/// an IMAGE extension with PCOUNT 0 and GCOUNT 1 (FITS Standard 4.0, sections 3.3.2, 4.4.1.1 and
/// 7.1).
#[tactic(auto, unfolding(crate::specs::Image::array_bits))]
pub fn array_bits(shape: &Shape) -> Option<u64>
    ensures { result ≡ array_bits shape.now }
{
    let is_array = match shape.class {
        Class::Primary => true,
        Class::Image => shape.pcount == 0 && shape.gcount == 1,
        _ => false,
    };
    if !is_array {
        return None;
    }
    u64::try_from(shape.bitpix).ok()
}

/// How many bits a value has in an array of integers that has an axis.
#[tactic(auto, unfolding(crate::specs::Image::image_bits))]
pub fn image_bits(shape: &Shape) -> Option<u64>
    ensures { result ≡ image_bits shape.now }
{
    if shape.axes.as_slice().is_empty() {
        return None;
    }
    array_bits(shape)
}
