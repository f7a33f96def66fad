//! A summary of which a part went and another came in its place, made without a look at the rest.
ghost use Rattle.std.specs.Prelude.{◌≡◌, ℤ, Option, IsTrue, IfSome};
ghost use Rattle.fits_pixels.specs.Summary.{lesser, greater};
ghost use Rattle.fits_plane.specs.Exchange.{pixels_without, words_without, IsExchanged};

use fits_pixels::{Both, Leaf, PixelSummary, Summary, WordSummary};

/// Whether the least number is known once some went and others came: it is, unless it went itself
/// and none that came is as low.
fn knows_least(all: Option<i64>, gone: Option<i64>, come: Option<i64>) -> bool
    ensures { IsTrue result → (rest : Option ℤ) → all ≡ lesser rest gone
        → lesser all come ≡ lesser rest come }
{
    match (all, gone, come) {
        (_, None, _) => true,
        (Some(least), Some(went), Some(new)) => least < went || new <= least,
        (Some(least), Some(went), None) => least < went,
        (None, Some(_), _) => false,
    }
}

/// Whether the greatest number is known, likewise.
fn knows_greatest(all: Option<i64>, gone: Option<i64>, come: Option<i64>) -> bool
    ensures { IsTrue result → (rest : Option ℤ) → all ≡ greater rest gone
        → greater all come ≡ greater rest come }
{
    match (all, gone, come) {
        (_, None, _) => true,
        (Some(greatest), Some(went), Some(new)) => went < greatest || greatest <= new,
        (Some(greatest), Some(went), None) => went < greatest,
        (None, Some(_), _) => false,
    }
}

/// Counts the pixels of a part no more. The least and the greatest stay.
fn pixels_less(all: PixelSummary, gone: PixelSummary) -> PixelSummary
    ensures { result ≡ pixels_without all gone }
{
    PixelSummary {
        defined: all.defined.wrapping_sub(gone.defined),
        blank: all.blank.wrapping_sub(gone.blank),
        least: all.least,
        greatest: all.greatest,
        sum: all.sum.wrapping_sub(gone.sum),
    }
}

/// Counts the words of a part no more.
fn words_less(all: WordSummary, gone: WordSummary) -> WordSummary
    ensures { result ≡ words_without all gone }
{
    WordSummary {
        total: all.total.wrapping_sub(gone.total),
    }
}

/// The summary once a part went and another came in its place, where the least and the greatest are
/// known without a look at the rest.
pub(crate) fn exchanged(all: Leaf, gone: Leaf, come: Leaf) -> Option<Leaf>
    ensures { IfSome result (λ new. IsExchanged all gone come new) }
{
    if !knows_least(all.first.least, gone.first.least, come.first.least) {
        return None;
    }
    if !knows_greatest(all.first.greatest, gone.first.greatest, come.first.greatest) {
        return None;
    }
    Some(Both {
        first: pixels_less(all.first, gone.first).join(come.first),
        second: words_less(all.second, gone.second).join(come.second),
    })
}
