//! A rectangle of pixels that is read row by row into room of C's.
ghost use Rattle.std.specs.Prelude.{◌≡◌, ◌+◌, ◌++◌, ◌≤◌, true, false, length, map, take, All, IfErr, OnOk, Ok};
ghost use Rattle.fits_plane.specs.Rectangle.{rectangle_size};
ghost use Rattle.fits_session.specs.Query.{rect_in};
ghost use Rattle.fits_session.specs.Session.{file_of, marked_of};
ghost use Rattle.fits_c.specs.Pixels.{IsRectIn, RectStops};

use crate::number::Number;
use crate::rows::{corner_in_row, has_size, row_len};
use fits_plane::is_rectangle;
use fits_session::{Refusal, Session};
use std::alloc::Global;

/// Puts the values of a rectangle of HDU h into room for as many, in file order.
pub fn read_rect<N: Number>(
    alloc: Global,
    session: &mut Session,
    h: usize,
    lo: &[u64],
    hi: &[u64],
    room: &mut [N],
) -> Result<(), Refusal>
    ensures ok { OnOk result (rect_in (file_of session.old) h lo.now hi.now
        ≡ Ok (map N.value room.new)) }
    ensures err { IfErr result (RectStops N.Fits (rect_in (file_of session.old) h lo.now hi.now)
        (length room.old)) }
    ensures stays { marked_of session.new ≡ marked_of session.old }
{
    session.kind(h)?;
    let shape = session.shape(h)?;
    if !is_rectangle(shape.axes.as_slice(), lo, hi) {
        return Err(Refusal::BadRect);
    }
    if !has_size(lo, hi, room.len()) {
        return Err(Refusal::WrongCount);
    }
    read_rows(alloc, session, h, lo, hi, room)
}

// The same where they are as many. Of each row the values are held, and then put.
fn read_rows<N: Number>(
    alloc: Global,
    session: &mut Session,
    h: usize,
    lo: &[u64],
    hi: &[u64],
    room: &mut [N],
) -> Result<(), Refusal>
    requires lies { IsRectIn (file_of session.old) h lo.now hi.now }
    requires size { length room.old ≡ rectangle_size lo.now hi.now }
    ensures ok { OnOk result (rect_in (file_of session.old) h lo.now hi.now
        ≡ Ok (map N.value room.new)) }
    ensures err { IfErr result (RectStops N.Fits (rect_in (file_of session.old) h lo.now hi.now)
        (length room.old)) }
    ensures stays { marked_of session.new ≡ marked_of session.old }
{
    let side = row_len(lo, hi) as usize;
    let rows = room.len() / side;
    for row in 0..rows {
        let first = corner_in_row(alloc, lo, lo, hi, row as u64)?;
        let last = corner_in_row(alloc, hi, lo, hi, row as u64)?;
        let values = session.rect(h, &first, &last)?;
        if !put_row(&values, room, row * side) {
            return Err(Refusal::Range);
        }
    }
    Ok(())
}

// Puts values after the first numbers of the room.
fn put_row<N: Number>(values: &[i128], room: &mut [N], at: usize) -> bool
    requires { at + length values.now ≤ length room.old }
    ensures yes { result ≡ true → map N.value (take (at + length values.now) room.new)
        ≡ map N.value (take at room.old) ++ values.now }
    ensures no { result ≡ false → All N.Fits values.now → ⊥ }
    ensures size { length room.new ≡ length room.old }
{
    let (_, rest) = room.split_at_mut(at);
    let (row, _) = rest.split_at_mut(values.len());
    put(values, row)
}

// Puts values into room for as many.
fn put<N: Number>(values: &[i128], room: &mut [N]) -> bool
    requires { length values.now ≡ length room.old }
    ensures yes { result ≡ true → map N.value room.new ≡ values.now }
    ensures no { result ≡ false → All N.Fits values.now → ⊥ }
{
    for (i, value) in values.iter().enumerate() {
        let Some(number) = N::of(*value) else {
            return false;
        };
        room[i] = number;
    }
    true
}
