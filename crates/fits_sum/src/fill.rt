//! Runs of one byte, such as header fill and data fill.
ghost use Rattle.std.specs.Prelude.{◌≡◌, ◌≤◌, ◌<◌, ◌+◌, ◌↔◌, ℕ, All, IsTrue, length, slice_index};
ghost use Rattle.fits_sum.specs.declared.fill.TheConstants.{LANES};

use std::simd::prelude::*;

/// How many bytes are compared at once.
const LANES: usize = 64;

/// True only where the bytes of all lanes from a place on are this one.
fn is_uniform(bytes: &[u8], at: usize, byte: u8) -> bool
    requires { at + LANES ≤ length bytes.now }
    ensures { IsTrue result → (k : ℕ) → at ≤ k → k < at + LANES → slice_index bytes.now k ≡ byte }
{
    let others = u8x64::from_slice(&bytes[at..])
        .simd_ne(u8x64::splat(byte))
        .to_bitmask();
    others == 0
}

/// Whether each byte is this one.
pub fn all_are(bytes: &[u8], byte: u8) -> bool
    ensures { IsTrue result ↔ All (λ b. b ≡ byte) bytes.now }
{
    let mut at = 0usize;
    for i in 0..bytes.len() / LANES {
        if !is_uniform(bytes, LANES * i, byte) {
            break;
        }
        at = LANES * (i + 1);
    }
    for j in at..bytes.len() {
        if bytes[j] != byte {
            return false;
        }
    }
    true
}
