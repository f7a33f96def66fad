//! The data unit of a header: of its bytes, of zeros, and as BLANK says.
ghost use Rattle.std.specs.Prelude.{◌≡◌, ◌≤◌, ◌^◌, length, replicate, IfOk};
ghost use Rattle.fits_header.specs.State.{ReadsUpTo};
ghost use Rattle.fits_pixels.specs.Layout.{block_count};
ghost use Rattle.fits_rules.specs.Size.{data_length};
ghost use Rattle.fits_passing.specs.Layout.{blank_number, layout_of};
ghost use Rattle.fits_hdu.specs.Work.{plane_work, FollowsBlank, IsMade, IsScanned};

use fits_header::Header;
use fits_passing::{blank_number, layout_of};
use fits_plane::Plane;
use fits_rules::image_bits;
use fits_unit::DataUnit;
use std::alloc::{AllocError, Global};

/// The stored number of undefined pixels, where the header describes an image of integers. It takes
/// no memory.
#[tactic(auto, using(fits_passing::proofs::LayoutLemmas::layout_steps))]
pub(crate) fn pixel_blank(header: &mut Header) -> Option<i64>
    ensures value { result ≡ (layout_of header.old.shape header.old.header.cards).blank }
    ensures work { ReadsUpTo header.old header.new 1 }
{
    image_bits(header.shape())?;
    blank_number(header)
}

/// The data unit of these bytes, which are as many as the header describes.
#[tactic(auto, using(fits_passing::proofs::LayoutLemmas::layout_steps))]
pub(crate) fn plane_of(
    alloc: Global,
    header: &mut Header,
    data_unit: Vec<u8>,
) -> Result<Plane, AllocError>
    requires size { length data_unit.items ≡ data_length header.old.shape }
    requires small { length data_unit.items ≤ 2 ^ 34 }
    ensures bytes { IfOk result (λ plane. plane.bytes ≡ data_unit.items) }
    ensures layout { IfOk result (λ plane. plane.layout
        ≡ layout_of header.old.shape header.old.header.cards) }
    ensures scans { IfOk result (λ plane. IsScanned (block_count data_unit.items)
        (plane_work plane)) }
    ensures work { ReadsUpTo header.old header.new 1 }
{
    let layout = layout_of(header);
    Plane::of(alloc, data_unit, layout)
}

/// The data unit of so many zero bytes, which are as many as the header describes.
#[tactic(auto, using(fits_passing::proofs::LayoutLemmas::layout_steps))]
pub(crate) fn zero_plane(
    alloc: Global,
    header: &mut Header,
    len: usize,
) -> Result<Plane, AllocError>
    requires size { len ≡ data_length header.old.shape }
    requires small { len ≤ 2 ^ 34 }
    ensures bytes { IfOk result (λ plane. plane.bytes ≡ replicate len 0) }
    ensures layout { IfOk result (λ plane. plane.layout
        ≡ layout_of header.old.shape header.old.header.cards) }
    ensures scans { IfOk result (λ plane. IsMade (block_count (replicate len 0))
        (plane_work plane)) }
    ensures work { ReadsUpTo header.old header.new 1 }
{
    let layout = layout_of(header);
    Plane::zeroed(alloc, len, layout)
}

/// Makes what BLANK says the stored number of undefined pixels, where it isn't yet. It takes no
/// memory.
pub(crate) fn follow_blank(unit: &mut DataUnit, header: &mut Header)
    requires { unit.old.plane.layout ≡ record (layout_of header.old.shape header.old.header.cards)
        { blank = unit.old.plane.layout.blank } }
    ensures bytes { unit.new.plane.bytes ≡ unit.old.plane.bytes }
    ensures layout { unit.new.plane.layout ≡ layout_of header.old.shape header.old.header.cards }
    ensures absent { unit.new.absent ≡ unit.old.absent }
    ensures scans { FollowsBlank unit.old.plane.layout.blank unit.new.plane.layout.blank
        (block_count unit.old.plane.bytes) (plane_work unit.old.plane) (plane_work unit.new.plane) }
    ensures work { ReadsUpTo header.old header.new 1 }
{
    let blank = pixel_blank(header);
    if blank != unit.layout().blank {
        unit.set_blank(blank);
    }
}
