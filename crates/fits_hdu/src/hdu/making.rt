//! Making an HDU of nothing.
use super::Hdu;
use crate::planes::zero_plane;
use fits_header::Header;
use fits_image::{Kind, image_header};
use fits_passing::unit_len;
use fits_rules::Shape;
use fits_unit::DataUnit;
use std::alloc::{AllocError, Global};

/// How many bytes the data unit of a new image has at most.
const LARGEST_UNIT: usize = 1 << 34;

impl Hdu {
    ghost use Rattle.std.specs.Prelude.{◌≡◌, ◌^◌, ◌≤◌, true, false, length, None, IfOk};
    ghost use Rattle.fits_pixels.specs.Layout.{block_count};
    ghost use Rattle.fits_passing.specs.Hdu.{hdu_bytes};
    ghost use Rattle.fits_image.specs.ImageCards.{are_axes, image_shape};
    ghost use Rattle.fits_hdu.specs.NewImage.{new_image};
    ghost use Rattle.fits_hdu.specs.State.{name_of, parts_of, IsDescribed};
    ghost use Rattle.fits_passing.specs.Work.{open_reads};
    ghost use Rattle.fits_hdu.specs.Work.{plane_work, IsMade};

    /// A new image of this kind and shape (FITS Standard 4.0, section 7.1), each of whose bytes of
    /// data is zero. With its header it has 2^34 bytes at most. It isn't called anything.
    ///
    /// Err: memory was refused.
    #[tactic(auto, using(crate::proofs::NewImageLemmas::make_steps))]
    pub fn new_image(alloc: Global, kind: Kind, shape: Shape) -> Result<Hdu, AllocError>
        requires shape { shape ≡ image_shape kind shape.axes }
        requires axes { are_axes shape.axes ≡ true }
        requires small { length (hdu_bytes (new_image kind shape.axes)) ≤ 2 ^ 34 }
        ensures hdu { IfOk result (λ it. parts_of it ≡ new_image kind shape.axes) }
        ensures shape { IfOk result (λ it. it.header.shape ≡ shape) }
        ensures described { IfOk result (λ it. IsDescribed it) }
        ensures unnamed { IfOk result (λ it. name_of it ≡ None) }
        ensures entry { IfOk result (λ it. it.entry ≡ None) }
        ensures kept { IfOk result (λ it. it.kept ≡ false) }
        ensures held { IfOk result (λ it. it.absent ≡ None) }
        ensures work { IfOk result (λ it. it.header.reads ≤ open_reads it.header.header.cards) }
        ensures scans { IfOk result (λ it. IsMade (block_count it.plane.bytes)
            (plane_work it.plane)) }
    {
        let Ok(len) = unit_len(&shape, LARGEST_UNIT) else {
            unreachable!()
        };
        let cards = image_header(alloc, kind, shape.axes.as_slice())?;
        let mut header = Header::open(alloc, cards, shape)?;
        match zero_plane(alloc, &mut header, len) {
            Ok(plane) => Ok(Hdu::joined(header, DataUnit::held(plane))),
            Err(refused) => {
                drop(header);
                Err(refused)
            }
        }
    }
}
