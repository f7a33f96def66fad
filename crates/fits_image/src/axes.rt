//! The axes of an image, and its shape.
ghost use Rattle.std.specs.Prelude.{◌≡◌, nat_le, IfOk};
ghost use Rattle.std.specs.List.{list_all};
ghost use Rattle.fits_image.specs.ImageCards.{are_axes, image_shape};

use crate::kind::Kind;
use fits_rules::{Axes, Class, Shape};
use std::alloc::{AllocError, Global};

/// How many axes a header may describe at most.
const MOST_AXES: usize = 999;

/// The greatest number of an axis: the greatest integer of 64 bits.
const LARGEST: u64 = 9_223_372_036_854_775_807;

/// Whether an image may have these axes: 999 at most, each up to the greatest integer of 64 bits
/// (FITS Standard 4.0, section 4.4.1.1). It takes no memory.
#[tactic(auto, unfolding(crate::specs::ImageCards::are_axes))]
pub fn are_axes(axes: &[u64]) -> bool
    ensures { result ≡ are_axes axes.now }
{
    axes.len() <= MOST_AXES && are_small(axes)
}

// Whether each is an integer of 64 bits.
fn are_small(axes: &[u64]) -> bool
    ensures { result ≡ list_all (λ axis. nat_le axis LARGEST) axes.now }
{
    axes.iter().all(|axis| *axis <= LARGEST)
}

/// What the cards of an image of this kind describe (FITS Standard 4.0, section 7.1).
///
/// Err: memory was refused.
pub fn image_shape(alloc: Global, kind: Kind, axes: &[u64]) -> Result<Shape, AllocError>
    ensures { IfOk result (λ shape. shape ≡ image_shape kind axes.now) }
{
    Ok(Shape {
        class: Class::Image,
        bitpix: 8 * kind.width() as i64,
        axes: Axes::new(axes.to_vec(alloc)?),
        pcount: 0,
        gcount: 1,
    })
}
