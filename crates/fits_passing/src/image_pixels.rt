ghost use Rattle.std.specs.Prelude.{◌≡◌, ◌≤◌, ◌^◌, Ok, IfOk};
ghost use Rattle.fits_rules.specs.Class.{is_primary};
ghost use Rattle.fits_rules.specs.Shape.{shape_of};
ghost use Rattle.fits_rules.specs.Size.{data_size};
ghost use Rattle.fits_passing.specs.PassingStats.{image_pixels};

use crate::described::Described;
use crate::layout::layout_of;
use fits_header::Header;
use fits_image::{Kind, pixel_kind};
use fits_pixels::Layout;
use fits_rules::image_bits;
use std::alloc::{AllocError, Global};

/// How the pixels of an image of integers are read.
#[derive(Clone, Copy)]
pub(crate) struct ImagePixels {
    pub layout: Layout,
    /// Their type, which says what is added to a stored number.
    pub kind: Kind,
}

/// How the pixels are read that a header describes, where it describes an image of integers. Where
/// it describes none, no card is read and no memory is taken.
#[tactic(auto, using(crate::proofs::StatsLemmas::image_none))]
pub(crate) fn image_pixels(
    alloc: Global,
    head: Described,
) -> Result<Option<ImagePixels>, AllocError>
    requires described { shape_of (is_primary head.shape.class) head.cards.header.cards
        ≡ Ok head.shape }
    requires small { data_size head.shape ≤ 2 ^ 34 }
    ensures { IfOk result (λ image. image ≡ image_pixels head.shape head.cards.header.cards) }
{
    let Some(bits) = image_bits(&head.shape) else {
        drop(head);
        return Ok(None);
    };
    let Described { cards, shape, .. } = head;
    let mut header = Header::open(alloc, cards, shape)?;
    let layout = layout_of(&mut header);
    let kind = pixel_kind(&mut header, bits);
    drop(header);
    Ok(Some(ImagePixels { layout, kind }))
}
