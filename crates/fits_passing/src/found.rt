//! The codes of an HDU as a whole, whether it is kept or passes by.
ghost use Rattle.std.specs.Prelude.{◌≡◌, ◌≤◌, ◌++◌, length};
ghost use Rattle.fits_passing.specs.Findings.{data_codes, is_wrong};

use crate::verdict::Verdict;
use crate::verdicts::Verdicts;
use fits_codes::{Code, CodeSet};

/// The codes of a header, and then those that its data and its sums have.
#[tactic(auto, unfolding(crate::specs::Findings::data_codes))]
pub fn with_data_codes(codes: CodeSet, filled: bool, verdicts: Verdicts) -> CodeSet
    requires room { length codes ≤ 10 }
    ensures { result ≡ codes ++ data_codes filled verdicts }
{
    let mut found = codes;
    if !filled {
        found.push(Code::BadDataFill);
    }
    if is_wrong(verdicts.datasum) {
        found.push(Code::WrongDatasum);
    }
    if is_wrong(verdicts.checksum) {
        found.push(Code::WrongChecksum);
    }
    found
}

// Whether the verdict is that something is wrong.
fn is_wrong(verdict: Verdict) -> bool
    ensures { result ≡ is_wrong verdict }
{
    matches!(verdict, Verdict::Wrong)
}
