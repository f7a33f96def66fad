//! The arrays that TDIMn says (FITS Standard 4.0, section 7.3.2).
ghost use Rattle.std.specs.Prelude.{◌≡◌, Some, None, IfSome, IfNone};
ghost use Rattle.std.specs.List.{fold, slice_split};
ghost use Rattle.fits_table.specs.Dimensions.{is_comma, bracketed};
ghost use Rattle.fits_table.specs.DimensionSteps.{times, limited_volume};

use crate::numerals::numeral;

// The bytes between the brackets.
#[tactic(auto, unfolding(crate::specs::Dimensions::bracketed))]
fn bracketed(text: &[u8]) -> Option<&[u8]>
    ensures found { IfSome result (λ inside. bracketed text.now ≡ Some inside.now) }
    ensures none { IfNone result (bracketed text.now ≡ None) }
{
    match text {
        [b'(', inside @ .., b')'] => Some(inside),
        _ => None,
    }
}

// The elements of the axes before, times one more size.
fn times(volume: Option<u128>, text: &[u8]) -> Option<u128>
    ensures { result ≡ times volume text.now }
{
    let volume = volume?;
    let size = numeral(text)?;
    Some(volume.saturating_mul(size as u128))
}

// The elements of all axes, whose sizes have commas between them.
fn volume_inside(inside: &[u8]) -> Option<u128>
    ensures { result ≡ fold times (Some 1) (slice_split is_comma inside.now) }
{
    inside
        .split(|byte| *byte == b',')
        .fold(Some(1), |volume, size| times(volume, size))
}

/// How many elements an array of these dimensions has, up to a limit that no count reaches.
#[tactic(auto, using(crate::proofs::DimensionLemmas::volume_steps))]
pub(crate) fn limited_volume(text: &[u8]) -> Option<u128>
    ensures { result ≡ limited_volume text.now }
{
    volume_inside(bracketed(text)?)
}
