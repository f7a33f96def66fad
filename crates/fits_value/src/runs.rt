//! How far a text goes on with one byte, or without it, found sixteen bytes at a time.
ghost use Rattle.std.specs.Prelude.{◌≡◌, ◌≤◌, ◌+◌, ◌==◌, ◌<◌, not, length, if◌then◌else◌};
ghost use Rattle.std.specs.Int.{w64, trailing_zeros};
ghost use Rattle.std.specs.List.{prefix_len};
ghost use Rattle.std.specs.Simd.Lanes.{chunk};
ghost use Rattle.fits_value.specs.declared.runs.TheConstants.{LANES};

use std::simd::prelude::*;

/// How many bytes are compared at once.
pub(crate) const LANES: usize = 16;

// The first lane of a mask, or how many lanes there are.
fn first_lane(mask: u64) -> usize
    ensures { result ≡ if mask == 0 then LANES else trailing_zeros w64 mask }
{
    if mask == 0 {
        LANES
    } else {
        mask.trailing_zeros() as usize
    }
}

/// How many of the bytes of all lanes from a place on are this one, up to the first other.
pub(crate) fn run_at(text: &[u8], at: usize, byte: u8) -> usize
    requires { at + LANES ≤ length text.now }
    ensures { result ≡ prefix_len (λ b. b == byte) (chunk at LANES text.now) }
{
    let others = u8x16::from_slice(&text[at..]).simd_ne(u8x16::splat(byte));
    first_lane(others.to_bitmask())
}

// How many of the bytes of all lanes from a place on come before the first that is this one.
fn gap_at(text: &[u8], at: usize, byte: u8) -> usize
    requires { at + LANES ≤ length text.now }
    ensures { result ≡ prefix_len (λ b. not (b == byte)) (chunk at LANES text.now) }
{
    let hits = u8x16::from_slice(&text[at..]).simd_eq(u8x16::splat(byte));
    first_lane(hits.to_bitmask())
}

/// How many bytes at the front are this one.
pub(crate) fn run_len(text: &[u8], byte: u8) -> usize
    ensures value { result ≡ prefix_len (λ b. b == byte) text.now }
    ensures within { result ≤ length text.now }
{
    let whole = text.len() / LANES;
    for i in 0..whole {
        let run = run_at(text, LANES * i, byte);
        if run < LANES {
            return LANES * i + run;
        }
    }
    for j in LANES * whole..text.len() {
        if text[j] != byte {
            return j;
        }
    }
    text.len()
}

/// How many bytes come before the first that is this one.
pub(crate) fn gap_len(text: &[u8], byte: u8) -> usize
    ensures value { result ≡ prefix_len (λ b. not (b == byte)) text.now }
    ensures within { result ≤ length text.now }
{
    // In a row of quotes the next one stands at once.
    if text.first() == Some(&byte) {
        return 0;
    }
    let whole = text.len() / LANES;
    for i in 0..whole {
        let gap = gap_at(text, LANES * i, byte);
        if gap < LANES {
            return LANES * i + gap;
        }
    }
    for j in LANES * whole..text.len() {
        if text[j] == byte {
            return j;
        }
    }
    text.len()
}
