//! A walk over the HDUs of a source, whatever is kept of them.
ghost use Rattle.std.specs.Prelude.{◌≡◌, ◌+◌, ◌≤◌, ◌<◌, false, length, codes, nat_eq, IfOk, IfErr, IfSome, OnOk};
ghost use Rattle.std.specs.List.{starts_with};
ghost use Rattle.fits_card.specs.declared.card_list.TheConstants.{BLOCK_LEN};
ghost use Rattle.fits_stream.specs.Gave.{Overruns};
ghost use Rattle.fits_stream.specs.Intake.{supply, IsLimited, IsSpent, Supply};
ghost use Rattle.fits_stream.specs.Stream.{IsDry, StaysQuiet};
ghost use Rattle.fits_passing.specs.File.{begins_extension};
ghost use Rattle.fits_passing.specs.declared.limits.TheConstants.{FILE_LIMIT, HDU_LIMIT};
ghost use Rattle.fits_passing.specs.Opening.{open_fault_of};
ghost use Rattle.fits_passing.specs.Reading.{file_fault_of, is_of_bytes, GaveFault, GaveWhole, IsFresh, IsWalkOf, ReadStops, RestStops, SupplyStops, Walked, WalkStops};

use crate::hdu_fault::HduFault;
use crate::kept::Kept;
use crate::limits::{FILE_LIMIT, HDU_LIMIT};
use crate::open_fault::OpenFault;
use crate::read_file_fault::ReadFileFault;
use crate::read_hdu_fault::ReadHduFault;
use fits_card::BLOCK_LEN;
use fits_stream::{Intake, Reach, Source};
use std::alloc::Global;

/// What is kept of the HDUs of what may be taken of a source. Then the block after the last lies
/// ahead, if there is one.
#[tactic(auto, using(crate::proofs::WalkLemmas::walk_steps))]
pub fn walk<K: Kept + Drop, R: Source>(
    alloc: Global,
    intake: &mut Intake,
    source: &mut R,
) -> Result<Vec<K>, ReadFileFault>
    requires { length intake.old.ahead + intake.old.left ≤ FILE_LIMIT }
    ensures walked { IfOk result (λ kept. Walked K.keeps kept.items
        (supply (R.state source.old) intake.old) (supply (R.state source.new) intake.new)) }
    ensures some { IfOk result (λ kept. 0 < length kept.items) }
    ensures few { IfOk result (λ kept. length kept.items ≤ HDU_LIMIT) }
    ensures ends { OnOk result (begins_extension intake.new.ahead ≡ false) }
    ensures short { OnOk result (length intake.new.ahead < BLOCK_LEN
        → IsSpent (supply (R.state source.new) intake.new)) }
    ensures err { IfErr result (WalkStops
        (supply (R.state source.old) intake.old) (supply (R.state source.new) intake.new)) }
{
    let mut kept = Vec::new(alloc);
    let Ok(()) = intake.hold(source, BLOCK_LEN) else {
        return Err(ReadFileFault::Failed);
    };
    if !begins_file(intake.ahead()) {
        return Err(ReadFileFault::Open(OpenFault::NotFits));
    }
    'hdu: loop {
        match K::read_next(alloc, intake, source, kept.is_empty()) {
            Ok(next) => kept.push(next)?,
            Err(fault) => return Err(file_fault(fault, kept.len() + 1)),
        }
        let Ok(()) = intake.hold(source, BLOCK_LEN) else {
            return Err(ReadFileFault::Failed);
        };
        if !begins_extension(intake.ahead()) {
            return Ok(kept);
        }
        if kept.len() as u64 == HDU_LIMIT {
            return Err(ReadFileFault::Open(OpenFault::TooLarge));
        }
    }
}

/// What is kept of the HDUs of a source, and whether bytes follow the last. It is gone
/// through to its end, or past the limit of a file.
pub(crate) fn read_kept<K: Kept + Drop, R: Source>(
    alloc: Global,
    source: &mut R,
    reach: Reach,
) -> Result<(Vec<K>, bool), ReadFileFault>
    ensures ok { IfOk result (λ walk. GaveWhole (R.state source.old) (R.state source.new)
        (IsWalkOf K.keeps walk.0.items walk.1)) }
    ensures quiet { OnOk result (StaysQuiet (R.state source.old) (R.state source.new)) }
    ensures err { IfErr result (ReadStops (R.state source.old) (R.state source.new)) }
    ensures gave { IfErr result (GaveFault (R.state source.old) (R.state source.new)) }
{
    let mut intake = Intake::new(alloc, FILE_LIMIT as usize, reach)?;
    match walk(alloc, &mut intake, source) {
        Ok(kept) => {
            let followed = !intake.ahead().is_empty();
            match end(intake, source) {
                Ok(()) => Ok((kept, followed)),
                Err(fault) => Err(fault),
            }
        }
        Err(fault) => Err(settled(intake, source, fault)),
    }
}

/// Goes past what may still be taken. A source that has more is too large.
#[tactic(auto, using(crate::proofs::WalkLemmas::end_steps))]
pub fn end<R: Source>(intake: Intake, source: &mut R) -> Result<(), ReadFileFault>
    ensures ok { OnOk result (IfSome (R.state source.old).remaining
        (λ bytes. length bytes ≤ intake.entry.left)) }
    ensures came { OnOk result (Overruns intake.entry.left false
        (R.state source.old) (R.state source.new)) }
    ensures over { OnOk result (IsDry (R.state source.new)) }
    ensures quiet { OnOk result (StaysQuiet (R.state source.old) (R.state source.new)) }
    ensures err { IfErr result (RestStops (supply (R.state source.old) intake.entry)
        (R.state source.new)) }
{
    match intake.overruns(source) {
        Ok(true) => Err(ReadFileFault::Open(OpenFault::TooLarge)),
        Ok(false) => Ok(()),
        Err(_) => Err(ReadFileFault::Failed),
    }
}

/// The fault of a source by that which ended a walk: that it is too large, or a failed call, comes
/// before a fault of its bytes.
#[tactic(auto, using(crate::proofs::WalkLemmas::settled_steps))]
pub fn settled<R: Source>(intake: Intake, source: &mut R, fault: ReadFileFault) -> ReadFileFault
    ensures stops { (first : Supply) → IsLimited FILE_LIMIT first
        → WalkStops first (supply (R.state source.old) intake.entry) fault
        → SupplyStops first (R.state source.new) result }
    ensures gave { (first : Supply) → IsFresh first
        → WalkStops first (supply (R.state source.old) intake.entry) fault
        → GaveFault first.source (R.state source.new) result }
{
    if !is_of_bytes(fault) {
        return fault;
    }
    match end(intake, source) {
        Ok(()) => fault,
        Err(before) => before,
    }
}

// Whether the bytes are at fault, and not memory or a call.
fn is_of_bytes(fault: ReadFileFault) -> bool
    ensures { result ≡ is_of_bytes fault }
{
    match fault {
        ReadFileFault::Failed => false,
        ReadFileFault::Open(why) => !matches!(why, OpenFault::Memory),
    }
}

/// Whether a file begins here.
#[tactic(auto)]
pub(crate) fn begins_file(bytes: &[u8]) -> bool
    ensures { result ≡ starts_with nat_eq bytes.now (codes "SIMPLE  ") }
{
    bytes.starts_with(b"SIMPLE  ")
}

/// Whether an extension begins here.
#[tactic(auto, unfolding(crate::specs::File::begins_extension))]
pub(crate) fn begins_extension(bytes: &[u8]) -> bool
    ensures { result ≡ begins_extension bytes.now }
{
    bytes.starts_with(b"XTENSION")
}

/// The fault of HDU h as the file's.
pub(crate) fn file_fault(fault: ReadHduFault, h: usize) -> ReadFileFault
    ensures { result ≡ file_fault_of fault h }
{
    match fault {
        ReadHduFault::Hdu(fault) => ReadFileFault::Open(open_fault(fault, h)),
        ReadHduFault::Failed => ReadFileFault::Failed,
    }
}

/// The same of a fault of its bytes.
pub(crate) fn open_fault(fault: HduFault, h: usize) -> OpenFault
    ensures { result ≡ open_fault_of fault h }
{
    match fault {
        HduFault::NoEnd => OpenFault::NoEnd { hdu: h },
        HduFault::BadShape(card) => OpenFault::BadShape { hdu: h, card },
        HduFault::ShortData => OpenFault::ShortData { hdu: h },
        HduFault::Memory => OpenFault::Memory,
    }
}
