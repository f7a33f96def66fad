//! The rows of a rectangle of pixels.
ghost use Rattle.std.specs.Prelude.{◌≡◌, ◌<◌, ◌≤◌, ◌+◌, ◌-◌, ◌↔◌, IsTrue, length, IfOk};
ghost use Rattle.fits_plane.specs.Rectangle.{rectangle_size, row_size};
ghost use Rattle.fits_c.specs.Rows.{row_corner, AreCorners};

use std::alloc::{AllocError, Global};

/// How many pixels a row has.
pub fn row_len(lo: &[u64], hi: &[u64]) -> u64
    requires { AreCorners lo.now hi.now }
    ensures value { result ≡ row_size lo.now hi.now }
    ensures some { 0 < result }
{
    if lo.is_empty() { 1 } else { side(lo[0], hi[0]) }
}

/// Whether a rectangle has so many pixels.
pub fn has_size(lo: &[u64], hi: &[u64], size: usize) -> bool
    requires { AreCorners lo.now hi.now }
    ensures { IsTrue result ↔ size ≡ rectangle_size lo.now hi.now }
{
    let mut left = size as u64;
    for i in 0..lo.len() {
        let side = side(lo[i], hi[i]);
        if left % side != 0 {
            return false;
        }
        left /= side;
    }
    left == 1
}

/// The corner of a row that has the first coordinate of this one.
pub fn corner_in_row(
    alloc: Global,
    corner: &[u64],
    lo: &[u64],
    hi: &[u64],
    row: u64,
) -> Result<Vec<u64>, AllocError>
    requires lies { AreCorners lo.now hi.now }
    requires like { length corner.now ≡ length lo.now }
    ensures { IfOk result (λ made. made.items ≡ row_corner corner.now lo.now hi.now row) }
{
    let mut made = Vec::with_capacity(alloc, lo.len())?;
    if lo.is_empty() {
        return Ok(made);
    }
    made.push(corner[0])?;
    let mut left = row;
    for i in 1..lo.len() {
        let side = side(lo[i], hi[i]);
        made.push(lo[i] + left % side)?;
        left /= side;
    }
    Ok(made)
}

// How many pixels a rectangle has along an axis.
fn side(low: u64, high: u64) -> u64
    requires some { 1 ≤ low }
    requires ordered { low ≤ high }
    ensures value { result ≡ high + 1 - low }
    ensures some { 0 < result }
{
    high - low + 1
}
