//! What saving would change in the file itself, where its length and the places of its data units stay.
ghost use Rattle.std.specs.Prelude.{◌≡◌, ◌≤◌, ◌+◌, true, ℕ, List, [], drop, length, map, IfErr, IfOk, IsErrOf, OnOk};
ghost use Rattle.fits_stream.specs.Agree.{IsOf};
ghost use Rattle.fits_unit.specs.Again.{Follows, LoadCounts};
ghost use Rattle.fits_passing.specs.File.{joined_hdus};
ghost use Rattle.fits_passing.specs.declared.limits.TheConstants.{FILE_LIMIT};
ghost use Rattle.fits_hdu.specs.State.{hdu_at};
ghost use Rattle.fits_planning.specs.Front.{MakesFront};
ghost use Rattle.fits_session.specs.Away.{AllLie};
ghost use Rattle.fits_session.specs.Overwriting.{stay_from, MakesFile};
ghost use Rattle.fits_session.specs.Session.{hdus_of, state_of, ReadsOnceAtMost};

use super::Session;
use crate::holder::InFile;
use fits_hdu::Hdu;
use fits_planning::{lie_there, lies_at, plan_hdu};
use fits_redo::Plan;
use fits_stream::{ReadLog, Stored};
use fits_unit::LoadFault;
use std::alloc::Global;

impl<'f, F: Stored> Session<InFile<'f, F>> {
    ghost use Rattle.std.specs.Prelude.{◌≡◌, ◌≤◌, ℕ, List, drop, is_some, length, IfErr, IfOk, IfSome, IsErrOf, OnOk};
    ghost use Rattle.fits_stream.specs.Agree.{IsOf};
    ghost use Rattle.fits_unit.specs.Again.{Follows, LoadCounts};
    ghost use Rattle.fits_passing.specs.File.{joined_hdus};
    ghost use Rattle.fits_session.specs.Away.{AllLie, LieStill};
    ghost use Rattle.fits_session.specs.Overwriting.{stays_in_place, MakesFile};
    ghost use Rattle.fits_session.specs.Session.{absences_of, hdus_of, marked_of, ReadsOnceAtMost};

    /// The blocks of a file of so many bytes that saving would change in it: those of headers and of
    /// data units in memory that differ from what the file has at their place. There is no plan where
    /// its length or the place of a data unit in it would be another.
    ///
    /// Old bytes are read again; data units that aren't in memory aren't read. `Changed` says that
    /// the file has too few bytes, or others after the last HDU than it was opened with.
    pub fn plan(&mut self, len: u64, log: &mut ReadLog) -> Result<Option<Plan>, LoadFault>
        ensures in_place { IfOk result (λ found. is_some found ≡ stays_in_place len self.old) }
        ensures plan { (told : List ℕ) → IsOf told log.new → AllLie told self.old.hdus
            → length told ≡ len → IfOk result (λ found. IfSome found (MakesFile told self.old)) }
        ensures quiet { OnOk result (log.new.failures ≡ log.old.failures) }
        ensures counted { IfErr result (LoadCounts log.old.failures log.new.failures) }
        ensures steady { (told : List ℕ) → IsOf told log.new → length told ≡ len
            → drop (length (joined_hdus (hdus_of self.old.hdus))) told ≡ self.old.tail
            → IsErrOf result LoadFault.Changed → ⊥ }
        ensures follows { Follows log.old log.new }

        // The file stays, and each card is read once at most.
        ensures file { marked_of self.new ≡ marked_of self.old }
        ensures absences { absences_of self.new.hdus ≡ absences_of self.old.hdus }
        ensures stays { LieStill self.old.hdus self.new.hdus }
        ensures work { ReadsOnceAtMost self.old.hdus self.new.hdus }
    {
        if self.len != len {
            return Ok(None);
        }
        if !stay(&self.hdus) {
            return Ok(None);
        }
        let file = self.holder.file();
        let plan = plan_parts(self.alloc, file, &mut self.hdus, &self.tail, log, len)?;
        Ok(Some(plan))
    }
}

// The same of these HDUs and this tail, each of which stays where it lies.
fn plan_parts<F: Stored>(
    alloc: Global,
    file: &F,
    hdus: &mut Vec<Hdu>,
    tail: &[u8],
    log: &mut ReadLog,
    len: u64,
) -> Result<Plan, LoadFault>
    requires stay { stay_from 0 hdus.old.items ≡ true }
    requires few { length (joined_hdus (hdus_of hdus.old.items)) ≤ FILE_LIMIT }
    requires len { len ≡ length (joined_hdus (hdus_of hdus.old.items)) + length tail.now }
    ensures plan { (told : List ℕ) → IsOf told log.new → AllLie told hdus.old.items
        → length told ≡ len → IfOk result (MakesFile told (state_of hdus.old.items tail.now)) }
    ensures quiet { OnOk result (log.new.failures ≡ log.old.failures) }
    ensures counted { IfErr result (LoadCounts log.old.failures log.new.failures) }
    ensures steady { (told : List ℕ) → IsOf told log.new → length told ≡ len
        → drop (length (joined_hdus (hdus_of hdus.old.items))) told ≡ tail.now
        → IsErrOf result LoadFault.Changed → ⊥ }
    ensures follows { Follows log.old log.new }
    ensures work { ReadsOnceAtMost hdus.old.items hdus.new.items }
{
    let mut plan = Plan::new(alloc, len);
    plan_hdus(alloc, file, hdus, log, &mut plan)?;
    let end = len - tail.len() as u64;
    lie_there(file, log, end, tail)?;
    Ok(plan)
}

// Whether each data unit would be saved where it lies.
fn stay(hdus: &[Hdu]) -> bool
    requires { length (joined_hdus (hdus_of hdus.now)) ≤ FILE_LIMIT }
    ensures { result ≡ stay_from 0 hdus.now }
{
    let mut start = 0;
    for hdu in hdus {
        let header_len = hdu.header().byte_len();
        let place = start + header_len as u64;
        if !lies_at(hdu, place) {
            return false;
        }
        let data_len = hdu.data_len();
        start = place + data_len as u64;
    }
    true
}

// Each of these HDUs is to stand in a file, the first where it begins: the blocks that differ from
// what the file has there are kept in the plan.
fn plan_hdus<F: Stored>(
    alloc: Global,
    file: &F,
    hdus: &mut Vec<Hdu>,
    log: &mut ReadLog,
    plan: &mut Plan,
) -> Result<(), LoadFault>
    requires stay { stay_from 0 hdus.old.items ≡ true }
    requires few { length (joined_hdus (hdus_of hdus.old.items)) ≤ FILE_LIMIT }
    ensures plan { (told : List ℕ) → IsOf told log.new → AllLie told hdus.old.items
        → MakesFront told [] plan.old.blocks.items → OnOk result (MakesFront told
        (joined_hdus (hdus_of (map (hdu_at told) hdus.old.items))) plan.new.blocks.items) }
    ensures len { plan.new.len ≡ plan.old.len }
    ensures quiet { OnOk result (log.new.failures ≡ log.old.failures) }
    ensures counted { IfErr result (LoadCounts log.old.failures log.new.failures) }
    ensures steady { (told : List ℕ) → IsOf told log.new
        → length (joined_hdus (hdus_of hdus.old.items)) ≤ length told
        → IsErrOf result LoadFault.Changed → ⊥ }
    ensures follows { Follows log.old log.new }
    ensures work { ReadsOnceAtMost hdus.old.items hdus.new.items }
{
    let mut start = 0;
    for i in 0..hdus.len() {
        let hdu = &mut hdus[i];
        start = plan_hdu(alloc, file, hdu, log, plan, start)?;
    }
    Ok(())
}
