//! HDUs as they were met, where they lie in a file.
ghost use Rattle.std.specs.Prelude.{◌≡◌, ◌≤◌, ◌^◌, ℕ, List, map, All, IfOk};
ghost use Rattle.fits_session.specs.Away.{AllLie, AreOpenedFrom};
ghost use Rattle.fits_session.specs.Session.{hdus_of, IsSeen};
ghost use Rattle.fits_passing.specs.Met.{all_there, hdus_end, parts_met, AllLieThere, AllPassed, AreMet};
ghost use Rattle.fits_hdu.specs.State.{hdu_at};

use fits_hdu::Hdu;
use fits_passing::PassedHdu;
use std::alloc::{AllocError, Global};

/// The HDUs of a file that were met, of which the first begins it.
pub(crate) fn placed(alloc: Global, passed: Vec<PassedHdu>) -> Result<Vec<Hdu>, AllocError>
    requires met { AreMet passed.items }
    requires few { hdus_end 0 passed.items ≤ 2 ^ 34 }
    ensures there { IfOk result (λ hdus. (told : List ℕ) → AllLieThere told 0 passed.items
        → hdus_of (map (hdu_at told) hdus.items) ≡ all_there told 0 passed.items) }
    ensures lie { IfOk result (λ hdus. (told : List ℕ)
        → AllLieThere told 0 passed.items → AllLie told hdus.items) }
    ensures parts { IfOk result (λ hdus. hdus_of hdus.items ≡ map parts_met passed.items) }
    ensures opened { IfOk result (λ hdus. AreOpenedFrom 0 hdus.items) }
    ensures seen { AllPassed passed.items → IfOk result (λ hdus. All IsSeen hdus.items) }
{
    let mut hdus = Vec::new(alloc);
    let mut end = 0u64;
    for it in passed {
        let place = end + it.header.byte_len() as u64;
        end = place + it.unit.byte_len() as u64;
        hdus.push(Hdu::away(alloc, it, place)?)?;
    }
    Ok(hdus)
}
