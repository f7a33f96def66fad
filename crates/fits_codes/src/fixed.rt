//! Values in fixed format (FITS Standard 4.0, sections 4.2.1.1, 4.2.2 and 4.2.3).
ghost use Rattle.std.specs.Prelude.{◌≡◌, Some, None, if◌then◌else◌};
ghost use Rattle.fits_codes.specs.Fixed.{is_fixed_as, span_fixed};

use fits_value::{Reading, ValueKind};

// Whether the value stands where fixed format asks.
fn stands_fixed(reading: &Reading) -> bool
    ensures { result ≡ span_fixed reading.now.kind reading.now.value }
{
    match reading.kind {
        ValueKind::Logical | ValueKind::Integer => reading.value.end == 30,
        ValueKind::Str => reading.value.start == 10 && reading.value.end >= 20,
        _ => false,
    }
}

/// The type of a value that is read, where it stands in fixed format.
pub(crate) fn fixed_by(reading: &Reading) -> Option<ValueKind>
    ensures { result ≡ if span_fixed reading.now.kind reading.now.value
        then Some reading.now.kind else None }
{
    if stands_fixed(reading) {
        Some(reading.kind)
    } else {
        None
    }
}

/// Whether the card is in fixed format for this type.
pub(crate) fn is_fixed_as(wanted: ValueKind, fixed: Option<ValueKind>) -> bool
    ensures { result ≡ is_fixed_as wanted fixed }
{
    matches!(
        (wanted, fixed),
        (ValueKind::Logical, Some(ValueKind::Logical))
            | (ValueKind::Integer, Some(ValueKind::Integer))
            | (ValueKind::Str, Some(ValueKind::Str))
    )
}
