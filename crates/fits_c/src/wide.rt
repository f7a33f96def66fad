//! Numbers of 128 bits in two parts, as C has them.
ghost use Rattle.fits_c.specs.Wide.{IsWide, IsWideOrZero};

/// A number of 128 bits: the high part times 2^64, and the low part.
#[repr(C)]
#[derive(Clone, Copy)]
pub struct Wide {
    pub low: u64,
    pub high: i64,
}

/// What the high part counts.
const WORD: i128 = 1 << 64;

/// The parts of a number.
#[tactic(auto, using(crate::proofs::WideLemmas::parts, crate::proofs::WideLemmas::high_fits, crate::proofs::WideLemmas::low_fits))]
pub fn parts_of(number: i128) -> Wide
    ensures { IsWide number result }
{
    let high = number.div_euclid(WORD);
    let low = number.rem_euclid(WORD);
    Wide {
        low: low as u64,
        high: high as i64,
    }
}

/// Those of one that may be lacking.
pub fn parts_or_zero(number: Option<i128>) -> Wide
    ensures { IsWideOrZero number result }
{
    parts_of(number.unwrap_or(0))
}
