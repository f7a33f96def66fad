//! What is kept of a data unit that wasn't looked at: plain values alone.

use super::UnreadUnit;
use fits_pixels::Layout;

// A value that holds no memory of its own.
fn plain<T: Copy>(_value: T) {}

/// Takes one apart, and nothing calls it: each field has the type that is written here, and one more,
/// or one of another type, doesn't compile.
fn apart(unit: UnreadUnit) {
    let UnreadUnit { layout, len } = unit;
    plain::<Layout>(layout);
    plain::<usize>(len);
}
