//! What is kept of a data unit that passed by: plain values alone, and for contracts its bytes and a
//! count.

use super::PassedUnit;
use fits_pixels::{Layout, PixelSummary};
use fits_stream::{Count, GoneBytes};

// A value that holds no memory of its own.
fn plain<T: Copy>(_value: T) {}

/// Takes one apart, and nothing calls it: each field has the type that is written here, and one more,
/// or one of another type, doesn't compile.
fn apart(unit: PassedUnit) {
    let PassedUnit {
        layout,
        blank,
        stored,
        total,
        filled,
        len,
        scans,
        gone,
    } = unit;
    plain::<Layout>(layout);
    plain::<Option<i64>>(blank);
    plain::<PixelSummary>(stored);
    plain::<u64>(total);
    plain::<bool>(filled);
    plain::<usize>(len);
    let _scans: Count = scans;
    let _gone: GoneBytes = gone;
}
