//! How long a new image is.
ghost use Rattle.std.specs.Prelude.{◌≡◌, ◌≤◌, ◌<◌, ◌^◌, true, length, IfSome, None};
ghost use Rattle.fits_image.specs.ImageCards.{are_axes, image_shape};
ghost use Rattle.fits_passing.specs.Hdu.{hdu_bytes};
ghost use Rattle.fits_hdu.specs.NewImage.{new_image};

use fits_card::header_len;
use fits_image::{Kind, card_count};
use fits_passing::unit_len;
use fits_rules::Shape;

/// How many bytes a new image has, with its header and its fill (FITS Standard 4.0, section 3.1),
/// where they are no more than so many. It takes no memory.
#[tactic(auto, using(crate::proofs::NewImageLemmas::size_steps))]
pub fn image_len(kind: Kind, shape: &Shape, most: u64) -> Option<u64>
    requires shape { shape.now ≡ image_shape kind shape.now.axes }
    requires axes { are_axes shape.now.axes ≡ true }
    requires small { most ≤ 2 ^ 34 }
    ensures len { IfSome result (λ len. len ≡ length (hdu_bytes (new_image kind shape.now.axes))) }
    ensures within { IfSome result (λ len. len ≤ most) }
    ensures too_large { result ≡ None → most < length (hdu_bytes (new_image kind shape.now.axes)) }
{
    let header = header_len(card_count(kind, shape.axes.as_slice()));
    let Ok(unit) = unit_len(shape, most as usize) else {
        return None;
    };
    let len = (header + unit) as u64;
    if most < len {
        return None;
    }
    Some(len)
}
