//! How many errors and warnings are found of cards.
ghost use Rattle.std.specs.Prelude.{◌≡◌, ◌≤◌, ◌<◌, ◌+◌, ◌*◌, ◌^◌, ◌++◌, List, ℕ, length};
ghost use Rattle.fits_codes.specs.declared.code.Code.{Code};
ghost use Rattle.fits_codes.specs.declared.code_set.TheConstants.{MOST_CODES};
ghost use Rattle.fits_header.specs.Findings.{card_counts, counted, counts_of};
ghost use Rattle.fits_header.specs.Notes.{notes_of};
ghost use Rattle.fits_header.specs.Surroundings.{surroundings_of};

use crate::counts::Counts;
use crate::findings::codes_at;
use crate::notes::Notes;
use fits_codes::{Code, Surrounding};
use fits_rules::Shape;

/// The errors and warnings of all cards.
pub(crate) fn count_all(shape: &Shape, notes: &Notes, surroundings: &[Surrounding]) -> Counts
    requires size { length surroundings.now ≡ length notes.now.items }
    requires few { length notes.now.items < 2 ^ 59 }
    ensures value { (cards : List (List ℕ)) → notes.now.items ≡ notes_of cards
        → surroundings.now ≡ surroundings_of cards → result ≡ card_counts shape.now cards }
    ensures within { result.errors + result.warnings ≤ MOST_CODES * length notes.now.items }
{
    let mut counts = Counts::NONE;
    for index in 0..notes.len() {
        let codes = codes_at(shape, notes, surroundings, index + 1);
        counts = count_more(counts, codes.as_slice());
    }
    counts
}

/// The counts with those of these codes.
pub(crate) fn count_more(counts: Counts, codes: &[Code]) -> Counts
    requires { counts.errors + counts.warnings + length codes.now < 2 ^ 64 }
    ensures value { (found : List Code) → counts ≡ counts_of found
        → result ≡ counts_of (found ++ codes.now) }
    ensures sum { result.errors + result.warnings
        ≡ counts.errors + counts.warnings + length codes.now }
{
    let mut counts = counts;
    for index in 0..codes.len() {
        counts = count_one(counts, codes[index]);
    }
    counts
}

// The counts with one more code.
fn count_one(counts: Counts, code: Code) -> Counts
    requires { counts.errors + counts.warnings + 1 < 2 ^ 64 }
    ensures value { result ≡ counted counts code }
    ensures sum { result.errors + result.warnings ≡ counts.errors + counts.warnings + 1 }
{
    if code.is_error() {
        return Counts {
            errors: counts.errors + 1,
            ..counts
        };
    }
    Counts {
        warnings: counts.warnings + 1,
        ..counts
    }
}
