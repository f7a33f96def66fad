//! Rectangles of pixels, out of a session and into it.
ghost use Rattle.std.specs.Prelude.{◌≡◌, map, IfOk};
ghost use Rattle.fits_c.specs.Pixels.{write_edit};

use crate::live::Live;
use crate::number::Number;
use crate::rect_rows::read_rect;
use crate::undone::refusal_number;
use fits_session::{Corner, Edit, HduEdit, Paint, PixelValues, Refusal};
use std::alloc::{AllocError, Global};

impl Live {
    ghost use Rattle.std.specs.Prelude.{map};
    ghost use Rattle.fits_c.specs.Pixels.{RectComesTo, WriteComesTo};

    /// Puts the values of a rectangle of HDU h into room for as many, in file order. The number is 0,
    /// or that of why they aren't given: `Range` of a value that the room has no number for.
    pub fn rect<N: Number>(
        &mut self,
        alloc: Global,
        h: usize,
        lo: &[u64],
        hi: &[u64],
        room: &mut [N],
    ) -> u8
        ensures { RectComesTo N.Fits self.old h lo.now hi.now result (map N.value room.new) self.new }
    {
        match read_rect(alloc, &mut self.session, h, lo, hi, room) {
            Ok(()) => 0,
            Err(why) => refusal_number(why),
        }
    }

    /// Writes the values of a rectangle of HDU h, in file order.
    #[tactic(auto, using(crate::proofs::WriteLemmas::fails))]
    pub fn write<N: Number>(
        &mut self,
        alloc: Global,
        h: usize,
        lo: &[u64],
        hi: &[u64],
        values: &[N],
    ) -> u8
        ensures { WriteComesTo self.old h lo.now hi.now (map N.value values.now) result self.new }
    {
        match write_edit(alloc, h, lo, hi, values) {
            Ok(edit) => match self.session.edit(edit) {
                Ok(()) => 0,
                Err(why) => refusal_number(why),
            },
            Err(_) => refusal_number(Refusal::Memory),
        }
    }
}

// The edit that writes these values.
fn write_edit<N: Number>(
    alloc: Global,
    h: usize,
    lo: &[u64],
    hi: &[u64],
    values: &[N],
) -> Result<Edit, AllocError>
    ensures { IfOk result (λ edit. edit ≡ write_edit h lo.now hi.now (map N.value values.now)) }
{
    let lo = Corner::new(lo.to_vec(alloc)?);
    let hi = Corner::new(hi.to_vec(alloc)?);
    let values = PixelValues::new(widened(alloc, values)?);
    let edit = HduEdit::Pixels {
        lo,
        hi,
        paint: Paint::Write(values),
    };
    Ok(Edit::Hdu { hdu: h, edit })
}

// The same numbers with more bits.
fn widened<N: Number>(alloc: Global, values: &[N]) -> Result<Vec<i128>, AllocError>
    ensures { IfOk result (λ wide. wide.items ≡ map N.value values.now) }
{
    let mut wide = Vec::with_capacity(alloc, values.len())?;
    for value in values {
        wide.push(value.widen())?;
    }
    Ok(wide)
}
