//! The pixels of a session, for callers in C.
ghost use Rattle.std.specs.Prelude.{map, pos};
ghost use Rattle.fits_c.specs.Pixels.{IsSigned, IsUnsigned, RectComesTo, WriteComesTo};
ghost use Rattle.fits_c.specs.Session.{Calls, IsOpen};
ghost use Rattle.fits_c.specs.declared.live.Live.{Live};

use crate::session_handle::SessionHandle;
use std::alloc::Global;

/// Puts the values of a rectangle of pixels into room of the caller's.
#[unsafe(no_mangle)]
pub extern "C" fn fitsed_rect(
    alloc: Global,
    session: &mut SessionHandle,
    hdu: usize,
    lo: &[u64],
    hi: &[u64],
    room: &mut [i64],
) -> u8
    requires { IsOpen session.old }
    ensures { Calls (λ (old new : Live). RectComesTo IsSigned old hdu lo.now hi.now result room.new new) session.old session.new }
{
    let mut live = session.take(alloc);
    let number = live.rect(alloc, hdu, lo, hi, room);
    *session = SessionHandle::of(live);
    number
}

/// The same as numbers without a sign.
#[unsafe(no_mangle)]
pub extern "C" fn fitsed_rect_u64(
    alloc: Global,
    session: &mut SessionHandle,
    hdu: usize,
    lo: &[u64],
    hi: &[u64],
    room: &mut [u64],
) -> u8
    requires { IsOpen session.old }
    ensures { Calls (λ (old new : Live). RectComesTo IsUnsigned old hdu lo.now hi.now result (map pos room.new) new) session.old session.new }
{
    let mut live = session.take(alloc);
    let number = live.rect(alloc, hdu, lo, hi, room);
    *session = SessionHandle::of(live);
    number
}

/// Writes the values of a rectangle of pixels.
#[unsafe(no_mangle)]
pub extern "C" fn fitsed_write(
    alloc: Global,
    session: &mut SessionHandle,
    hdu: usize,
    lo: &[u64],
    hi: &[u64],
    values: &[i64],
) -> u8
    requires { IsOpen session.old }
    ensures { Calls (λ (old new : Live). WriteComesTo old hdu lo.now hi.now values.now result new) session.old session.new }
{
    let mut live = session.take(alloc);
    let number = live.write(alloc, hdu, lo, hi, values);
    *session = SessionHandle::of(live);
    number
}

/// The same from numbers without a sign.
#[unsafe(no_mangle)]
pub extern "C" fn fitsed_write_u64(
    alloc: Global,
    session: &mut SessionHandle,
    hdu: usize,
    lo: &[u64],
    hi: &[u64],
    values: &[u64],
) -> u8
    requires { IsOpen session.old }
    ensures { Calls (λ (old new : Live). WriteComesTo old hdu lo.now hi.now (map pos values.now) result new) session.old session.new }
{
    let mut live = session.take(alloc);
    let number = live.write(alloc, hdu, lo, hi, values);
    *session = SessionHandle::of(live);
    number
}
