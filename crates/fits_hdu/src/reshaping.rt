//! What is found of an array before it is made another: whether it may be, and its cards then.
ghost use Rattle.std.specs.Prelude.{◌≡◌, ◌≤◌, ◌+◌, ◌*◌, ◌||◌, not, length, true, IfOk, IfErr};
ghost use Rattle.std.specs.Ordering.{int_eq};
ghost use Rattle.fits_header.specs.State.{ReadsUpTo};
ghost use Rattle.fits_header.specs.Work.{shape_reads};
ghost use Rattle.fits_rules.specs.Image.{is_array};
ghost use Rattle.fits_image.specs.ImageCards.{are_axes};
ghost use Rattle.fits_image.specs.Kind.{convention, has_offset, kind_of, offset_of, width_of};
ghost use Rattle.fits_hdu.specs.Reshape.{cards_reshaped, describes_array, reshaped_shape, scales_otherwise};
ghost use Rattle.fits_hdu.specs.Reshaping.{scaling_for, IsPlan, IsPlanned, PlanFails};
ghost use Rattle.fits_hdu.specs.Work.{plan_reads};

use crate::reshape_fault::ReshapeFault;
use crate::scaling::Scaling;
use fits_card::{Cards, Change, Name};
use fits_header::Header;
use fits_image::{Kind, are_axes, array_kind, is_plain, number_cards, pixel_kind, shape_cards};
use fits_rules::{Axes, Shape};
use std::alloc::{AllocError, Global};

/// An array that is to be made another: its cards then, found before anything changes.
#[derive(Drop)]
pub(crate) struct Reshaping {
    /// The kind of its pixels, and that which they will have.
    pub(crate) old: Kind,
    pub(crate) kind: Kind,
    /// BITPIX, NAXIS and the axes, in place of those that stand there.
    pub(crate) change: Change,
    /// What they describe.
    pub(crate) shape: Shape,
    /// BSCALE and BZERO, where the offset is another.
    pub(crate) scaling: Option<Scaling>,
}

/// Finds whether the array that a header describes may be made another, and by which cards.
///
/// Memory may run out for what an array of integers is made by.
#[tactic(auto, using(crate::proofs::PlanLemmas::plan_steps))]
pub(crate) fn plan(
    alloc: Global,
    header: &mut Header,
    kind: Kind,
    axes: &[u64],
) -> Result<Reshaping, ReshapeFault>
    ensures ok { IfOk result (IsPlan kind axes.now header.old.shape header.old.header.cards) }
    ensures err { IfErr result (PlanFails kind axes.now header.old.shape header.old.header.cards) }
    ensures work { ReadsUpTo header.old header.new (plan_reads axes.now) }
{
    let Some(old) = array_kind(header) else {
        return Err(ReshapeFault::NotImage);
    };
    if !are_axes(axes) || scales_otherwise(header, old, kind) {
        return Err(ReshapeFault::BadShape);
    }
    let plan = planned(alloc, header.shape(), old, kind, axes)?;
    if !is_described(header, &plan, axes) {
        drop(plan);
        return Err(ReshapeFault::BadShape);
    }
    Ok(plan)
}

// Whether an offset comes where there was none, over cards that scale pixels or add to them.
fn scales_otherwise(header: &mut Header, old: Kind, kind: Kind) -> bool
    ensures value { result ≡ scales_otherwise old kind header.old.header.cards }
    ensures work { ReadsUpTo header.old header.new 2 }
{
    old.offset() == 0 && kind.offset() != 0 && !is_plain(header)
}

// The cards that an array of this shape is made another by.
fn planned(
    alloc: Global,
    shape: &Shape,
    old: Kind,
    kind: Kind,
    axes: &[u64],
) -> Result<Reshaping, AllocError>
    requires axes { are_axes axes.now ≡ true }
    requires few { length shape.now.axes ≤ 999 }
    ensures { IfOk result (IsPlanned old kind axes.now shape.now) }
{
    let cards = shape_cards(alloc, kind, axes)?;
    let change = Change::Splice {
        place: 2,
        removed: 2 + shape.axes.as_slice().len(),
        cards: Cards::new(cards),
    };
    Ok(Reshaping {
        old,
        kind,
        change,
        shape: Shape {
            class: shape.class,
            bitpix: 8 * kind.width() as i64,
            axes: Axes::new(axes.to_vec(alloc)?),
            pcount: shape.pcount,
            gcount: shape.gcount,
        },
        scaling: scaling_for(alloc, old, kind)?,
    })
}

// BSCALE and BZERO, where the offset is another.
#[tactic(auto, using(fits_image::proofs::ImageHeaderLemmas::card_steps))]
fn scaling_for(alloc: Global, old: Kind, kind: Kind) -> Result<Option<Scaling>, AllocError>
    ensures { IfOk result (λ scaling. scaling ≡ scaling_for old kind) }
{
    if old.offset() == kind.offset() {
        return Ok(None);
    }
    Ok(Some(Scaling {
        scale: Cards::new(number_cards(alloc, &Name(*b"BSCALE  "), 1)?),
        zero: Cards::new(number_cards(alloc, &Name(*b"BZERO   "), kind.offset())?),
    }))
}

// Whether the cards describe the array that is asked for, once they are written.
#[tactic(auto, using(crate::proofs::PlanLemmas::plan_steps))]
fn is_described(header: &mut Header, plan: &Reshaping, axes: &[u64]) -> bool
    requires planned { IsPlanned plan.now.old plan.now.kind axes.now header.old.shape plan.now }
    requires axes { are_axes axes.now ≡ true }
    requires array { is_array header.old.shape.class header.old.shape.pcount
        header.old.shape.gcount ≡ true }
    ensures value { result ≡ describes_array
        (reshaped_shape plan.now.kind axes.now header.old.shape) (offset_of plan.now.kind)
        (cards_reshaped plan.now.old plan.now.kind axes.now header.old.shape
        header.old.header.cards) }
    ensures work { ReadsUpTo header.old header.new (shape_reads plan.now.shape + 2) }
{
    let _described = header.shape();
    header.would_have(&plan.change, &plan.shape) && keeps_offset(header, plan.old, plan.kind)
}

// Whether pixels of the new width have the offset that is asked for, where no other is written.
fn keeps_offset(header: &mut Header, old: Kind, kind: Kind) -> bool
    ensures value { result ≡ (not (int_eq (offset_of old) (offset_of kind))
        || int_eq (offset_of (kind_of (8 * width_of kind)
        (has_offset header.old.header.cards (convention (8 * width_of kind))))) (offset_of kind)) }
    ensures work { ReadsUpTo header.old header.new 2 }
{
    old.offset() != kind.offset()
        || pixel_kind(header, 8 * kind.width() as u64).offset() == kind.offset()
}
