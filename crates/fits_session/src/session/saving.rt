//! Writing the file.
ghost use Rattle.std.specs.Prelude.{◌≡◌, ◌+◌, ◌%◌, ℕ, List, None, true, length, map, All, IfErr, IsOk, IsErr, OnOk, OnErr};
ghost use Rattle.fits_unit.specs.Again.{CopyCounts, CopyFails, CopyWrites, Follows, PrintsAs};
ghost use Rattle.fits_stream.specs.Agree.{IsOf};
ghost use Rattle.fits_session.specs.Away.{FileHasTotal, HdusHaveTotal, IsTold, WritesHdus};
ghost use Rattle.fits_stream.specs.Stream.{Prints, PrintsFront};
ghost use Rattle.fits_passing.specs.File.{joined_hdus};
ghost use Rattle.fits_session.specs.Session.{hdus_of, each_read, ReadsOnceAtMost};
ghost use Rattle.fits_hdu.specs.State.{hdu_at};
ghost use Rattle.fits_making.specs.Making.{IsHad};

use super::Session;
use crate::holder::Holder;
use crate::save_fault::SaveFault;
use fits_hdu::Hdu;
use fits_stream::{ReadLog, Sink, write_all};
use fits_unit::CopyFault;

impl Session {
    ghost use Rattle.std.specs.Prelude.{◌≡◌, ◌+◌, OnOk, OnErr};
    ghost use Rattle.fits_stream.specs.Stream.{Prints, PrintsFront};
    ghost use Rattle.fits_passing.specs.File.{file_bytes};
    ghost use Rattle.fits_session.specs.Session.{file_of, each_read, marked_of, ReadsOnceAtMost};

    /// Writes the file. Where a call fails a prefix was written. It takes no memory.
    pub fn save<W: Sink>(&mut self, sink: &mut W) -> Result<(), SaveFault>
        ensures ok { OnOk result (Prints (file_bytes (file_of self.old))
            (W.state sink.old) (W.state sink.new)) }
        ensures err { OnErr result (PrintsFront (file_bytes (file_of self.old))
            (W.state sink.old) (W.state sink.new)) }

        // The file stays, and each card is read once at most.
        ensures file { marked_of self.new ≡ marked_of self.old }
        ensures work { ReadsOnceAtMost self.old.hdus self.new.hdus }
        ensures all_read { OnOk result (self.new.hdus ≡ each_read self.old.hdus) }
    {
        self.are_held();
        let mut log = ReadLog::none();
        match self.write(&mut log, sink) {
            Ok(()) => Ok(()),
            Err(_) => Err(SaveFault::Device),
        }
    }
}

impl<H: Holder + Drop> Session<H> {
    ghost use Rattle.std.specs.Prelude.{◌≡◌, ℕ, List, true, length, IfErr, OnOk};
    ghost use Rattle.fits_unit.specs.Again.{CopyCounts, CopyFails, CopyWrites, Follows, PrintsAs};
    ghost use Rattle.fits_stream.specs.Agree.{IsOf};
    ghost use Rattle.fits_session.specs.Away.{FileHasTotal, IsTold, LieStill, WritesFile};
    ghost use Rattle.fits_stream.specs.Stream.{Prints};
    ghost use Rattle.fits_passing.specs.File.{file_bytes};
    ghost use Rattle.fits_session.specs.Session.{absences_of, file_of, each_read, marked_of, session_at, ReadsOnceAtMost};

    /// Writes the file, as `save`. Data units that aren't in memory are read, and reads that fail are
    /// counted; where one that is known has another total than it had, it ends there. It takes no memory.
    #[tactic(auto, using(crate::proofs::SaveLemmas::save_steps))]
    pub fn write<W: Sink>(&mut self, log: &mut ReadLog, sink: &mut W) -> Result<(), CopyFault>
        ensures ok { (told : List ℕ) → IsTold H.whole told log.new self.old.hdus
            → OnOk result (Prints (file_bytes (file_of (session_at told self.old)))
            (W.state sink.old) (W.state sink.new)) }
        ensures like { OnOk result (PrintsAs (FileHasTotal self.old)
            (length (file_bytes (file_of self.old))) (W.state sink.old) (W.state sink.new)) }
        ensures copied { OnOk result (WritesFile self.old log.old log.new
            (W.state sink.old) (W.state sink.new)) }
        ensures quiet { OnOk result (log.new.failures ≡ log.old.failures) }
        ensures err { (told : List ℕ) → IsTold H.whole told log.new self.old.hdus
            → IfErr result (CopyFails (file_bytes (file_of (session_at told self.old)))
            (W.state sink.old) (W.state sink.new)) }
        ensures counted { IfErr result (CopyCounts log.old.failures log.new.failures) }
        ensures follows { Follows log.old log.new }
        ensures written { H.whole ≡ true → IfErr result (λ why. why ≡ CopyFault.Write) }
        ensures writes { IfErr result (CopyWrites (W.state sink.old) (W.state sink.new)) }

        // The file stays, and each card is read once at most.
        ensures file { marked_of self.new ≡ marked_of self.old }
        ensures absences { absences_of self.new.hdus ≡ absences_of self.old.hdus }
        ensures stays { LieStill self.old.hdus self.new.hdus }
        ensures work { ReadsOnceAtMost self.old.hdus self.new.hdus }
        ensures all_read { OnOk result (self.new.hdus ≡ each_read self.old.hdus) }
    {
        write_hdus(&mut self.holder, &mut self.hdus, log, sink)?;
        let Ok(()) = write_all(sink, &self.tail) else {
            return Err(CopyFault::Write);
        };
        Ok(())
    }
}

// Writes HDUs, one after another, that are had so.
#[tactic(auto, using(crate::proofs::SaveLemmas::save_steps))]
fn write_hdus<H: Holder, W: Sink>(
    holder: &mut H,
    hdus: &mut Vec<Hdu>,
    log: &mut ReadLog,
    sink: &mut W,
) -> Result<(), CopyFault>
    requires { All (IsHad (record { whole = H.whole; told = None })) hdus.old.items }
    ensures ok { (told : List ℕ) → IsTold H.whole told log.new hdus.old.items
        → OnOk result (Prints (joined_hdus (hdus_of (map (hdu_at told) hdus.old.items)))
        (W.state sink.old) (W.state sink.new)) }
    ensures like { OnOk result (PrintsAs (HdusHaveTotal hdus.old.items)
        (length (joined_hdus (hdus_of hdus.old.items))) (W.state sink.old) (W.state sink.new)) }
    ensures copied { OnOk result (WritesHdus hdus.old.items log.old log.new
        (W.state sink.old) (W.state sink.new)) }
    ensures words { OnOk result (length (joined_hdus (hdus_of hdus.old.items)) % 4 ≡ 0) }
    ensures quiet { OnOk result (log.new.failures ≡ log.old.failures) }
    ensures err { (told : List ℕ) → IsTold H.whole told log.new hdus.old.items
        → IfErr result (CopyFails (joined_hdus (hdus_of (map (hdu_at told) hdus.old.items)))
        (W.state sink.old) (W.state sink.new)) }
    ensures counted { IfErr result (CopyCounts log.old.failures log.new.failures) }
    ensures written { H.whole ≡ true → IfErr result (λ why. why ≡ CopyFault.Write) }
    ensures writes { IfErr result (CopyWrites (W.state sink.old) (W.state sink.new)) }
    ensures follows { Follows log.old log.new }
    ensures work { ReadsOnceAtMost hdus.old.items hdus.new.items }
    ensures all_read { OnOk result (hdus.new.items ≡ each_read hdus.old.items) }
{
    for i in 0..hdus.len() {
        let hdu = &mut hdus[i];
        // It is of whole words, so the total of what is written is known.
        let _whole = hdu.card_count();
        holder.emit(hdu, log, sink)?;
    }
    Ok(())
}
