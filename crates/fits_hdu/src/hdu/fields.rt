//! What an HDU under edits keeps: a header and a data unit, and beside them plain values alone.

use super::Hdu;
use fits_codes::HeaderMark;
use fits_header::Header;
use fits_image::Kind;
use fits_passing::SumKeywords;
use fits_unit::DataUnit;

// A value that holds no memory of its own.
fn plain<T: Copy>(_value: T) {}

/// Takes an HDU apart, and nothing calls it: each field has the type that is written here, and one
/// more, or one of another type, doesn't compile.
fn apart(hdu: Hdu) {
    let Hdu {
        header,
        unit,
        mark,
        kind,
        sums,
        entry,
        kept,
    } = hdu;
    let _header: Header = header;
    let _unit: DataUnit = unit;
    plain::<HeaderMark>(mark);
    plain::<Option<Kind>>(kind);
    plain::<SumKeywords>(sums);
    plain::<Option<usize>>(entry);
    plain::<bool>(kept);
}
