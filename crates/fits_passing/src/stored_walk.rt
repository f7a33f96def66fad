//! A walk over the HDUs of a stored file, of which parts may stay unread.
ghost use Rattle.std.specs.Prelude.{◌≡◌, ◌+◌, ◌≤◌, ◌<◌, ◌^◌, ℕ, List, true, false, [], length, map, IfOk, IfErr, IsTrue, OnOk, OnErr};
ghost use Rattle.fits_card.specs.declared.card_list.TheConstants.{BLOCK_LEN};
ghost use Rattle.fits_stream.specs.Agree.{IsOf};
ghost use Rattle.fits_stream.specs.Intake.{supply, IsSpent};
ghost use Rattle.fits_stream.specs.Log.{turned};
ghost use Rattle.fits_unit.specs.Again.{Follows};
ghost use Rattle.fits_unit.specs.DataUnit.{is_passed};
ghost use Rattle.fits_passing.specs.File.{begins_extension, joined_hdus, IsFrontOf};
ghost use Rattle.fits_passing.specs.Hdu.{IsHdu};
ghost use Rattle.fits_passing.specs.Met.{hdu_end, hdus_end, parts_met, reads_of, state_by, AllPassed, AreMet, BeginEach, IsLimitedBy, IsMet, IsThere, NextStops, OverStops, StandsAt, StoredStops};
ghost use Rattle.fits_passing.specs.declared.limits.TheConstants.{FILE_LIMIT, HDU_LIMIT};

use crate::hdu_fault::HduFault;
use crate::limits::{FILE_LIMIT, HDU_LIMIT};
use crate::look::Look;
use crate::open_fault::OpenFault;
use crate::passed_hdu::PassedHdu;
use crate::read_file_fault::ReadFileFault;
use crate::read_hdu_fault::ReadHduFault;
use crate::walking::{begins_extension, begins_file, file_fault};
use fits_card::BLOCK_LEN;
use fits_stream::{Intake, Reach, ReadLog, Source, Stored, StoredSource};
use fits_unit::AwayUnit;
use std::alloc::Global;
use std::mem;

/// Whether a stored file keeps to the limit of a file. The byte after the limit is read for, and the
/// source goes on at the file's beginning.
pub fn is_within_limit<'f, F: Stored>(
    file: &'f F,
    source: &mut StoredSource<'f, F>,
) -> Result<bool, ReadFileFault>
    ensures within { IfOk result (λ within. within ≡ true → IsLimitedBy (reads_of source.new)) }
    ensures over { IfOk result (λ within. within ≡ false → (told : List ℕ)
        → IsOf told (reads_of source.new) → FILE_LIMIT < length told) }
    ensures file { OnOk result (source.new.file ≡ file.now) }
    ensures start { OnOk result (source.new.log.at ≡ 0) }
    ensures quiet { OnOk result (source.new.failures ≡ source.old.failures) }
    ensures err { IfErr result (StoredStops (reads_of source.old) (reads_of source.new)) }
    ensures follows { Follows (reads_of source.old) (reads_of source.new) }
{
    let mut next = [0u8; 1];
    turn_to(file, source, FILE_LIMIT);
    let Ok(n) = source.read(&mut next) else {
        return Err(ReadFileFault::Failed);
    };
    turn_to(file, source, 0);
    Ok(n == 0)
}

/// Has a source of a stored file go on at another place of it.
pub fn turn_to<'f, F: Stored>(file: &'f F, source: &mut StoredSource<'f, F>, place: u64)
    ensures file { source.new.file ≡ file.now }
    ensures at { source.new.log.at ≡ place }
    ensures came { source.new.log.came ≡ source.old.log.came }
    ensures ends { source.new.log.ends ≡ source.old.log.ends }
    ensures failures { source.new.failures ≡ source.old.failures }
{
    let nowhere = StoredSource::new(file, place, ReadLog::none());
    let log = mem::replace(source, nowhere).into_log();
    *source = StoredSource::new(file, place, log);
}

/// The HDUs of a stored file, of whose bytes none is ahead yet. Then the block after the last lies
/// ahead, if there is one.
pub fn walk_stored<'f, F: Stored>(
    alloc: Global,
    look: Look,
    file: &'f F,
    intake: &mut Intake<'static>,
    source: &mut StoredSource<'f, F>,
) -> Result<Vec<PassedHdu>, ReadFileFault>
    requires none { intake.old.ahead ≡ [] }
    requires left { intake.old.left ≡ FILE_LIMIT }
    requires start { source.old.log.at ≡ 0 }
    requires limited { IsLimitedBy (reads_of source.old) }
    ensures begin { IfOk result (λ hdus. BeginEach hdus.items intake.new source.new) }
    ensures met { IfOk result (λ hdus. AreMet hdus.items) }
    ensures seen { look ≡ Look.All → IfOk result (λ hdus. AllPassed hdus.items) }
    ensures some { IfOk result (λ hdus. 0 < length hdus.items) }
    ensures few { IfOk result (λ hdus. length hdus.items ≤ HDU_LIMIT) }
    ensures front { IfOk result (λ hdus. IsFrontOf (joined_hdus (map parts_met hdus.items))
        (map parts_met hdus.items) []) }
    ensures left { IfOk result (λ hdus. hdus_end 0 hdus.items + length intake.new.ahead
        + intake.new.left ≡ FILE_LIMIT) }
    ensures ends { OnOk result (begins_extension intake.new.ahead ≡ false) }
    ensures short { OnOk result (length intake.new.ahead < BLOCK_LEN
        → IsSpent (supply (state_by (F.bytes source.new.file) source.new) intake.new)) }
    ensures quiet { OnOk result (source.new.failures ≡ source.old.failures) }
    ensures err { IfErr result (StoredStops (reads_of source.old) (reads_of source.new)) }
    ensures follows { Follows (reads_of source.old) (reads_of source.new) }
{
    let mut hdus = Vec::new(alloc);
    let mut place = 0u64;
    let Ok(()) = intake.hold(source, BLOCK_LEN) else {
        return Err(ReadFileFault::Failed);
    };
    if !begins_file(intake.ahead()) {
        return Err(ReadFileFault::Open(OpenFault::NotFits));
    }
    'hdu: loop {
        match next_hdu(alloc, look, file, intake, source, place, hdus.is_empty()) {
            Ok(next) => {
                place += (next.header.byte_len() + next.unit.byte_len()) as u64;
                hdus.push(next)?;
            }
            Err(fault) => return Err(file_fault(fault, hdus.len() + 1)),
        }
        let Ok(()) = intake.hold(source, BLOCK_LEN) else {
            return Err(ReadFileFault::Failed);
        };
        if !begins_extension(intake.ahead()) {
            return Ok(hdus);
        }
        if hdus.len() as u64 == HDU_LIMIT {
            return Err(ReadFileFault::Open(OpenFault::TooLarge));
        }
    }
}

// The HDU that begins at a place, which comes next. What follows it comes next then.
fn next_hdu<'f, F: Stored>(
    alloc: Global,
    look: Look,
    file: &'f F,
    intake: &mut Intake<'static>,
    source: &mut StoredSource<'f, F>,
    place: u64,
    primary: bool,
) -> Result<PassedHdu, ReadHduFault>
    requires left { place + length intake.old.ahead + intake.old.left ≡ FILE_LIMIT }
    requires limited { IsLimitedBy (reads_of source.old) }
    ensures there { IfOk result (λ it. (told : List ℕ) → IsOf told (reads_of source.new)
        → StandsAt told place intake.old source.old
        → IsThere told primary place it intake.new source.new) }
    ensures met { IfOk result (λ it. IsMet it.header it.unit) }
    ensures whole { IfOk result (λ it. IsHdu primary (parts_met it)) }
    ensures seen { look ≡ Look.All → IfOk result (λ it. is_passed it.unit ≡ true) }
    ensures left { IfOk result (λ it. hdu_end place it + length intake.new.ahead + intake.new.left
        ≡ FILE_LIMIT) }
    ensures quiet { OnOk result (source.new.failures ≡ source.old.failures) }
    ensures err { IfErr result (NextStops primary place intake.old source.old source.new) }
    ensures follows { Follows (reads_of source.old) (reads_of source.new) }
{
    let next = PassedHdu::read(alloc, look, intake, source, primary)?;
    let end = place + (next.header.byte_len() + next.unit.byte_len()) as u64;
    if has_passed(&next.unit) {
        return Ok(next);
    }
    match pass_over(alloc, file, intake, source, end) {
        Ok(()) => Ok(next),
        Err(fault) => {
            drop(next);
            Err(fault)
        }
    }
}

// Whether a data unit passed by.
fn has_passed(unit: &AwayUnit) -> bool
    ensures { result ≡ is_passed unit.now }
{
    matches!(unit, AwayUnit::Passed(_))
}

// Passes over what lies before a place, of which the last byte alone is read.
fn pass_over<'f, F: Stored>(
    alloc: Global,
    file: &'f F,
    intake: &mut Intake<'static>,
    source: &mut StoredSource<'f, F>,
    end: u64,
) -> Result<(), ReadHduFault>
    requires some { 0 < end }
    requires within { end ≤ FILE_LIMIT }
    requires limited { IsLimitedBy (reads_of source.old) }
    ensures stands { OnOk result ((told : List ℕ) → IsOf told (reads_of source.new)
        → StandsAt told end intake.new source.new) }
    ensures there { OnOk result ((told : List ℕ) → IsOf told (reads_of source.new)
        → end ≤ length told) }
    ensures left { OnOk result (end + length intake.new.ahead + intake.new.left ≡ FILE_LIMIT) }
    ensures quiet { OnOk result (source.new.failures ≡ source.old.failures) }
    ensures err { IfErr result (OverStops end source.old source.new) }
    ensures follows { Follows (reads_of source.old) (reads_of source.new) }
{
    let last = end - 1;
    let Ok(fresh) = Intake::new(alloc, (FILE_LIMIT - last) as usize, Reach::Piece) else {
        return Err(ReadHduFault::Hdu(HduFault::Memory));
    };
    *intake = fresh;
    turn_to(file, source, last);
    let Ok(()) = intake.hold(source, 1) else {
        return Err(ReadHduFault::Failed);
    };
    if intake.ahead().is_empty() {
        return Err(ReadHduFault::Hdu(HduFault::ShortData));
    }
    intake.pass(1);
    Ok(())
}
