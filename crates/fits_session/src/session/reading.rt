//! The HDUs of a source, and what follows them.
ghost use Rattle.fits_stream.specs.Gave.{Gave};
ghost use Rattle.std.specs.Prelude.{[], ◌≡◌, ◌+◌, ◌≤◌, ◌<◌, ℕ, List, false, length, All, IfOk, IfErr, OnOk};
ghost use Rattle.fits_card.specs.declared.card_list.TheConstants.{BLOCK_LEN};
ghost use Rattle.fits_stream.specs.Intake.{supply, GivesAll, IsLimited, IsOver, IsSpent, Takes, TakingStops};
ghost use Rattle.fits_stream.specs.Stream.{StaysQuiet};
ghost use Rattle.fits_hdu.specs.Work.{IsOpened};
ghost use Rattle.fits_passing.specs.File.{begins_extension, file_bytes, IsFile, IsFileOf};
ghost use Rattle.fits_passing.specs.declared.limits.TheConstants.{FILE_LIMIT};
ghost use Rattle.fits_stream.specs.Agree.{IsOf};
ghost use Rattle.fits_unit.specs.Again.{Follows};
ghost use Rattle.fits_passing.specs.Met.{hdus_end, reads_of, StoredStops};
ghost use Rattle.fits_session.specs.Away.{AllLie, AreOpenedFrom};
ghost use Rattle.fits_passing.specs.Reading.{GaveFault, IsFresh, SupplyStops};
ghost use Rattle.fits_session.specs.Reading.{IsReadWhole};
ghost use Rattle.fits_session.specs.Session.{file_of, session_at, state_of, IsHeld, IsSeen};

use crate::placing::placed;
use fits_card::BLOCK_LEN;
use fits_hdu::Hdu;
use fits_passing::{
    FILE_LIMIT, Kept, Look, OpenFault, PassedHdu, ReadFileFault, end, is_within_limit, settled,
    walk, walk_stored,
};
use fits_stream::{Intake, Reach, ReadFault, Source, Stored, StoredSource};
use std::alloc::Global;

/// The HDUs of what may be taken of a source, how many bytes the file has, and the bytes after the
/// last HDU.
pub(crate) fn read_file<R: Source>(
    alloc: Global,
    intake: Intake,
    source: &mut R,
) -> Result<(Vec<Hdu>, u64, Vec<u8>), ReadFileFault>
    requires few { length intake.ahead + intake.left ≤ FILE_LIMIT }
    requires limited { IsLimited FILE_LIMIT (supply (R.state source.old) intake) }
    ensures ok { IfOk result (λ parts. GivesAll (supply (R.state source.old) intake.entry)
        (λ bytes. IsFileOf bytes (file_of (state_of parts.0.items parts.2.items)))) }
    ensures came { IfOk result (λ parts. intake.entry.ahead ≡ []
        → Gave (R.state source.old) (R.state source.new)
        (file_bytes (file_of (state_of parts.0.items parts.2.items)))) }
    ensures whole { IfOk result (λ parts. IsFile
        (file_of (state_of parts.0.items parts.2.items))) }
    ensures len { IfOk result (λ parts. parts.1
        ≡ length (file_bytes (file_of (state_of parts.0.items parts.2.items)))) }
    ensures opened { IfOk result (λ parts. All (IsOpened 0) parts.0.items) }
    ensures held { IfOk result (λ parts. All IsHeld parts.0.items) }
    ensures quiet { OnOk result (StaysQuiet (R.state source.old) (R.state source.new)) }
    ensures err { IfErr result (SupplyStops (supply (R.state source.old) intake.entry)
        (R.state source.new)) }
    ensures gave { IfErr result (λ why. IsFresh (supply (R.state source.old) intake.entry)
        → GaveFault (R.state source.old) (R.state source.new) why) }
{
    read_whole::<Hdu, R>(alloc, intake, source)
}

/// The HDUs of a stored file, as they lie in it, how many bytes it has, and the bytes after the last
/// HDU. What isn't looked at stays unread.
pub(crate) fn read_away<'f, F: Stored>(
    alloc: Global,
    look: Look,
    file: &'f F,
    source: &mut StoredSource<'f, F>,
) -> Result<(Vec<Hdu>, u64, Vec<u8>), ReadFileFault>
    requires start { source.old.file ≡ file.now }
    ensures ok { IfOk result (λ parts. (told : List ℕ) → IsOf told (reads_of source.new)
        → IsFileOf told (file_of (session_at told (state_of parts.0.items parts.2.items)))) }
    ensures lie { IfOk result (λ parts. (told : List ℕ) → IsOf told (reads_of source.new)
        → AllLie told parts.0.items) }
    ensures whole { IfOk result (λ parts. IsFile
        (file_of (state_of parts.0.items parts.2.items))) }
    ensures len { IfOk result (λ parts. parts.1
        ≡ length (file_bytes (file_of (state_of parts.0.items parts.2.items)))) }
    ensures opened { IfOk result (λ parts. AreOpenedFrom 0 parts.0.items) }
    ensures seen { look ≡ Look.All → IfOk result (λ parts. All IsSeen parts.0.items) }
    ensures quiet { OnOk result (source.new.failures ≡ source.old.failures) }
    ensures err { IfErr result (StoredStops (reads_of source.old) (reads_of source.new)) }
    ensures follows { Follows (reads_of source.old) (reads_of source.new) }
{
    if !is_within_limit(file, source)? {
        return Err(ReadFileFault::Open(OpenFault::TooLarge));
    }
    let mut intake = Intake::new(alloc, FILE_LIMIT as usize, Reach::Piece)?;
    let passed = walk_stored(alloc, look, file, &mut intake, source)?;
    let tail = match read_tail(alloc, &mut intake, source) {
        Ok(tail) => tail,
        Err(fault) => return Err(ReadFileFault::from(fault)),
    };
    let len = end_of(&passed) + tail.len() as u64;
    let hdus = placed(alloc, passed)?;
    Ok((hdus, len, tail))
}

// Where HDUs end of which the first begins a file.
fn end_of(passed: &[PassedHdu]) -> u64
    requires { hdus_end 0 passed.now ≤ FILE_LIMIT }
    ensures { result ≡ hdus_end 0 passed.now }
{
    let mut end = 0;
    for it in passed {
        end += (it.header.byte_len() + it.unit.byte_len()) as u64;
    }
    end
}

// What is kept of the HDUs, how many bytes the file has, and the bytes after the last HDU.
fn read_whole<K: Kept + Drop, R: Source>(
    alloc: Global,
    mut intake: Intake,
    source: &mut R,
) -> Result<(Vec<K>, u64, Vec<u8>), ReadFileFault>
    requires few { length intake.ahead + intake.left ≤ FILE_LIMIT }
    requires limited { IsLimited FILE_LIMIT (supply (R.state source.old) intake) }
    ensures ok { IfOk result (λ parts. IsReadWhole K.keeps parts.0.items parts.1 parts.2.items
        (supply (R.state source.old) intake.entry) (R.state source.new)) }
    ensures quiet { OnOk result (StaysQuiet (R.state source.old) (R.state source.new)) }
    ensures err { IfErr result (SupplyStops (supply (R.state source.old) intake.entry)
        (R.state source.new)) }
    ensures gave { IfErr result (λ why. IsFresh (supply (R.state source.old) intake.entry)
        → GaveFault (R.state source.old) (R.state source.new) why) }
{
    let all = intake.left();
    let hdus = match walk(alloc, &mut intake, source) {
        Ok(hdus) => hdus,
        Err(fault) => return Err(settled(intake, source, fault)),
    };
    let hdus_len = all - intake.left();
    let tail = match read_tail(alloc, &mut intake, source) {
        Ok(tail) => tail,
        Err(fault) => return Err(ReadFileFault::from(fault)),
    };
    match end(intake, source) {
        Ok(()) => {
            let len = (hdus_len + tail.len()) as u64;
            Ok((hdus, len, tail))
        }
        Err(fault) => Err(fault),
    }
}

// The bytes after the last HDU, of which a block lies ahead, if there are as many.
fn read_tail<R: Source>(
    alloc: Global,
    intake: &mut Intake,
    source: &mut R,
) -> Result<Vec<u8>, ReadFault>
    requires short { length intake.old.ahead < BLOCK_LEN
        → IsSpent (supply (R.state source.old) intake.old) }
    requires ends { begins_extension intake.old.ahead ≡ false }
    ensures ok { IfOk result (λ tail. Takes
        (supply (R.state source.old) intake.old) (supply (R.state source.new) intake.new)
        tail.items) }
    ensures ends { IfOk result (λ tail. begins_extension tail.items ≡ false) }
    ensures over { OnOk result (IsOver (supply (R.state source.new) intake.new)) }
    ensures err { IfErr result (TakingStops (R.state source.old) (R.state source.new)) }
{
    let ahead = intake.ahead();
    if ahead.len() < BLOCK_LEN {
        let tail = ahead.to_vec(alloc)?;
        intake.pass(tail.len());
        return Ok(tail);
    }
    let left = intake.left();
    let tail = intake.take(alloc, source, left)?;
    Ok(tail)
}
