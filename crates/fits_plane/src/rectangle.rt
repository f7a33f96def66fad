//! Rectangles of pixels: how long they are, and where their rows begin.
ghost use Rattle.std.specs.Prelude.{◌≡◌, ◌<◌, ◌+◌, ◌*◌, ◌^◌, ◌≤◌, ◌↔◌, IsTrue};
ghost use Rattle.fits_plane.specs.Rectangle.{IsRectangle, lies_within, product, rectangle_size, row_size, row_count, place};

/// Whether two corners lie in one axis, in order.
fn lie_in(axis: u64, low: u64, high: u64) -> bool
    ensures { IsTrue result ↔ (1 ≤ low) × ((low ≤ high) × (high ≤ axis)) }
{
    1 <= low && low <= high && high <= axis
}

/// Whether these corners, counted from 1, lie in the axes.
pub fn is_rectangle(axes: &[u64], lo: &[u64], hi: &[u64]) -> bool
    ensures means { IsTrue result ↔ IsRectangle axes.now lo.now hi.now }
    ensures value { result ≡ lies_within axes.now lo.now hi.now }
{
    if lo.len() != axes.len() || hi.len() != axes.len() {
        return false;
    }
    for i in 0..axes.len() {
        if !lie_in(axes[i], lo[i], hi[i]) {
            return false;
        }
    }
    true
}

/// How many pixels a rectangle has.
pub fn rectangle_len(axes: &[u64], lo: &[u64], hi: &[u64]) -> u64
    requires rectangle { IsRectangle axes.now lo.now hi.now }
    requires small { product axes.now < 2 ^ 62 }
    ensures { result ≡ rectangle_size lo.now hi.now }
{
    let mut size = 1u64;
    for i in 0..axes.len() {
        size *= hi[i] + 1 - lo[i];
    }
    size
}

/// How many pixels it has in a row, which goes along the first axis.
pub fn row_len(axes: &[u64], lo: &[u64], hi: &[u64]) -> u64
    requires rectangle { IsRectangle axes.now lo.now hi.now }
    requires small { product axes.now < 2 ^ 62 }
    ensures value { result ≡ row_size lo.now hi.now }
    ensures some { 0 < result }
    ensures within { result ≤ product axes.now }
{
    if axes.is_empty() {
        1
    } else {
        hi[0] + 1 - lo[0]
    }
}

/// How many rows it has.
pub fn rows(axes: &[u64], lo: &[u64], hi: &[u64]) -> u64
    requires rectangle { IsRectangle axes.now lo.now hi.now }
    requires small { product axes.now < 2 ^ 62 }
    ensures { result ≡ row_count lo.now hi.now }
{
    rectangle_len(axes, lo, hi) / row_len(axes, lo, hi)
}

/// Which pixel of the image a pixel of the rectangle is, both counted from 0.
fn place_of(axes: &[u64], lo: &[u64], hi: &[u64], number: u64) -> u64
    requires rectangle { IsRectangle axes.now lo.now hi.now }
    requires within { number < rectangle_size lo.now hi.now }
    requires small { product axes.now < 2 ^ 62 }
    ensures { result ≡ place axes.now lo.now hi.now number }
{
    let mut start = 0u64;
    let mut stride = 1u64;
    let mut left = number;
    for i in 0..axes.len() {
        let side = hi[i] + 1 - lo[i];
        start += stride * (lo[i] - 1 + left % side);
        stride *= axes[i];
        left /= side;
    }
    start
}

/// The first pixel of a row.
pub fn row_start(axes: &[u64], lo: &[u64], hi: &[u64], row: u64) -> usize
    requires rectangle { IsRectangle axes.now lo.now hi.now }
    requires within { row < row_count lo.now hi.now }
    requires small { product axes.now < 2 ^ 62 }
    ensures value { result ≡ place axes.now lo.now hi.now (row * row_size lo.now hi.now) }
    ensures within { result + row_size lo.now hi.now ≤ product axes.now }
{
    place_of(axes, lo, hi, row * row_len(axes, lo, hi)) as usize
}
