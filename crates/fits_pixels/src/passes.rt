//! What is found of a block of pixels that have a sign, by one pass over them.
//!
//! A pass holds numbers of the pixel's own type, its counts too.
ghost use Rattle.std.specs.Prelude.{◌≡◌, ◌≢◌, ◌≤◌, ◌<◌, ◌*◌, ℕ, pos, int_lt, if◌then◌else◌, length, Some, None};
ghost use Rattle.fits_pixels.specs.Pixels.{pixel, pixels, IsStorable};
ghost use Rattle.fits_pixels.specs.Scan.{AreExtremes};

use crate::extremes::Extremes;
use crate::signed_pixel::SignedPixel;

/// What is found where no pixel is blank.
pub(crate) fn defined<P: SignedPixel>(block: &[u8], held: usize) -> Extremes
    requires within { held * P.width ≤ length block.now }
    requires short { length block.now ≤ 2880 }
    ensures { AreExtremes None (pixels P.width block.now 0 held) result }
{
    let mut least = P::nearest(i64::MAX);
    let mut greatest = P::nearest(i64::MIN);
    let zero = P::nearest(0);
    let mut negatives = zero;
    for i in 0..held {
        let x = P::read(block, i);
        least = least.min(x);
        greatest = greatest.max(x);
        negatives = negatives.with(x < zero);
    }
    Extremes {
        least: least.wide(),
        greatest: greatest.wide(),
        negatives: negatives.wide() as u64,
        blanks: 0,
    }
}

/// How many pixels are blank before the first that is not.
fn leading_blanks<P: SignedPixel>(block: &[u8], held: usize, blank: P) -> usize
    requires within { held * P.width ≤ length block.now }
    ensures within { result ≤ held }
    ensures blank { (k : ℕ) → k < result → pixel P.width block.now k ≡ P.number blank }
    ensures stops { result < held → pixel P.width block.now result ≢ P.number blank }
{
    for i in 0..held {
        if P::read(block, i) != blank {
            return i;
        }
    }
    held
}

/// Stored pixel i, or 0 where there is none.
fn pixel_or_zero<P: SignedPixel>(block: &[u8], held: usize, i: usize) -> P
    requires within { held * P.width ≤ length block.now }
    ensures { i < held → P.number result ≡ pixel P.width block.now i }
{
    if i < held {
        P::read(block, i)
    } else {
        P::nearest(0)
    }
}

/// How many of so many blank pixels are negative.
fn negative_blanks(blank: i64, count: usize) -> i64
    requires few { count ≤ 1440 }
    ensures { result ≡ pos (if int_lt blank (pos 0) then count else 0) }
{
    if blank < 0 { count as i64 } else { 0 }
}

/// What is found where one number is blank.
pub(crate) fn beside<P: SignedPixel>(block: &[u8], held: usize, blank: i64) -> Extremes
    requires within { held * P.width ≤ length block.now }
    requires short { length block.now ≤ 2880 }
    requires storable { IsStorable P.width blank }
    ensures { AreExtremes (Some blank) (pixels P.width block.now 0 held) result }
{
    let zero = P::nearest(0);
    let named = P::nearest(blank);
    let first = leading_blanks(block, held, named);
    // A blank pixel counts as the first that is not, which moves neither the least nor the greatest.
    let fill = pixel_or_zero(block, held, first);
    let mut least = P::nearest(i64::MAX);
    let mut greatest = P::nearest(i64::MIN);
    let mut blanks = P::nearest(first as i64);
    let mut negatives = P::nearest(negative_blanks(blank, first));
    for i in first..held {
        let x = P::read(block, i);
        let mut used = x;
        if x == named {
            used = fill;
            blanks = blanks.with(true);
        }
        least = least.min(used);
        greatest = greatest.max(used);
        negatives = negatives.with(x < zero);
    }
    Extremes {
        least: least.wide(),
        greatest: greatest.wide(),
        negatives: negatives.wide() as u64,
        blanks: blanks.wide() as u64,
    }
}
