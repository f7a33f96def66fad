//! Totals folded to 32 bits.
ghost use Rattle.std.specs.Prelude.{◌≡◌};
ghost use Rattle.fits_sum.specs.OnesComplement.{ones_complement};

/// The ones'-complement sum of a total.
pub fn fold(total: u64) -> u32
    ensures { result ≡ ones_complement total }
{
    if total == 0 {
        0
    } else {
        ((total - 1) % u64::from(u32::MAX) + 1) as u32
    }
}
