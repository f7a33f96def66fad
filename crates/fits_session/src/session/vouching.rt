//! HDUs whose sums vouch for them: each edit of one is followed by a stamp from now on.
ghost use Rattle.std.specs.Prelude.{◌≡◌, ◌≤◌, ◌^◌, ◌&&◌, length, map, All};
ghost use Rattle.fits_passing.specs.Hdu.{hdu_bytes};
ghost use Rattle.fits_hdu.specs.State.{parts_of};
ghost use Rattle.fits_passing.specs.File.{joined_hdus};
ghost use Rattle.fits_making.specs.Keeping.{are_right, is_right, vouch, vouched_one};
ghost use Rattle.fits_session.specs.Session.{hdus_of, IsSeen};
ghost use Rattle.fits_passing.specs.declared.limits.TheConstants.{FILE_LIMIT};

use super::Session;
use crate::holder::Holder;
use fits_hdu::{Hdu, Verdict, Verdicts};

impl<H: Holder + Drop> Session<H> {
    ghost use Rattle.std.specs.Prelude.{◌≡◌, map, All};
    ghost use Rattle.fits_making.specs.Keeping.{vouched_one};
    ghost use Rattle.fits_session.specs.Away.{LieStill};
    ghost use Rattle.fits_session.specs.Marked.{vouched};
    ghost use Rattle.fits_session.specs.Session.{file_of, marked_of, state_of, IsSeen};

    /// Marks each HDU whose CHECKSUM is right and whose DATASUM isn't wrong, and no other: from now
    /// on it is stamped after each edit, as one that is kept. No byte changes, and nothing is read: all
    /// data units are known.
    pub fn keep_right(&mut self)
        requires { All IsSeen self.old.hdus }
        ensures marks { marked_of self.new ≡ vouched (file_of self.old) }
        ensures rest { self.new ≡ state_of (map vouched_one self.old.hdus) self.old.tail }
        ensures stays { LieStill self.old.hdus self.new.hdus }
    {
        mark_all(&mut self.hdus);
    }
}

// The same of HDUs, one after another.
fn mark_all(hdus: &mut Vec<Hdu>)
    requires seen { All IsSeen hdus.old.items }
    requires few { length (joined_hdus (hdus_of hdus.old.items)) ≤ FILE_LIMIT }
    ensures { hdus.new.items ≡ map vouched_one hdus.old.items }
{
    for i in 0..hdus.len() {
        let hdu = &mut hdus[i];
        mark(hdu);
    }
}

// The same of one.
fn mark(hdu: &mut Hdu)
    requires seen { IsSeen hdu.old }
    requires small { length (hdu_bytes (parts_of hdu.old)) ≤ 2 ^ 34 }
    ensures { hdu.new ≡ vouched_one hdu.old }
{
    let verdicts = hdu.verdicts();
    hdu.set_kept(vouch(verdicts));
}

// Whether CHECKSUM is right, and DATASUM isn't wrong.
fn vouch(verdicts: Verdicts) -> bool
    ensures { result ≡ vouch verdicts }
{
    is_right(verdicts.checksum) && !matches!(verdicts.datasum, Verdict::Wrong)
}

/// Whether an HDU that is marked or not, and whose sums are so, is kept with both right.
pub(super) fn is_kept(mark: bool, verdicts: Verdicts) -> bool
    ensures { result ≡ (mark && are_right verdicts) }
{
    mark && are_right(verdicts)
}

// Whether both are right.
fn are_right(verdicts: Verdicts) -> bool
    ensures { result ≡ are_right verdicts }
{
    is_right(verdicts.datasum) && is_right(verdicts.checksum)
}

// Whether it is right.
fn is_right(verdict: Verdict) -> bool
    ensures { result ≡ is_right verdict }
{
    matches!(verdict, Verdict::Right)
}
