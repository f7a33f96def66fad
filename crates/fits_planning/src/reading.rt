//! Bytes of a stored file that are read to be compared.
ghost use Rattle.std.specs.Prelude.{◌≡◌, ◌<◌, ◌≤◌, ◌+◌, ◌^◌, ℕ, List, length, take, drop, IfErr, IsErrOf, OnOk};
ghost use Rattle.fits_stream.specs.Agree.{IsOf, ReadsOn};
ghost use Rattle.fits_stream.specs.Stream.{Reads};
ghost use Rattle.fits_unit.specs.Again.{Follows, LoadCounts, LoadNextStops, LoadStops};

use fits_stream::{ReadLog, Source, Stored, StoredSource, fill};
use fits_unit::LoadFault;

/// Fills a room with the bytes of a file from a place on.
pub(crate) fn read_there<F: Stored>(
    file: &F,
    log: &mut ReadLog,
    place: u64,
    room: &mut [u8],
) -> Result<(), LoadFault>
    ensures are { OnOk result (ReadsOn place log.old log.new room.new) }
    ensures size { length room.new ≡ length room.old }
    ensures quiet { OnOk result (log.new.failures ≡ log.old.failures) }
    ensures err { IfErr result (LoadStops place (length room.old) log.old log.new) }
    ensures counted { IfErr result (LoadCounts log.old.failures log.new.failures) }
{
    let mut source = StoredSource::new(file, place, log.take_reads());
    let read = read_next(&mut source, room);
    log.put_reads(source.into_log());
    read
}

// Fills it with the next bytes of a source.
fn read_next<R: Source>(source: &mut R, room: &mut [u8]) -> Result<(), LoadFault>
    ensures are { OnOk result (Reads room.new (R.state source.old) (R.state source.new)) }
    ensures size { length room.new ≡ length room.old }
    ensures quiet { OnOk result ((R.state source.new).failures ≡ (R.state source.old).failures) }
    ensures err { IfErr result (LoadNextStops (length room.old)
        (R.state source.old) (R.state source.new)) }
    ensures counted { IfErr result
        (LoadCounts (R.state source.old).failures (R.state source.new).failures) }
{
    let len = room.len();
    let Ok(n) = fill(source, room, len) else {
        return Err(LoadFault::Failed);
    };
    if n < len {
        return Err(LoadFault::Changed);
    }
    Ok(())
}

/// Whether a file has these bytes at a place: else it is `Changed`.
pub fn lie_there<F: Stored>(
    file: &F,
    log: &mut ReadLog,
    place: u64,
    bytes: &[u8],
) -> Result<(), LoadFault>
    requires { place + length bytes.now < 2 ^ 64 }
    ensures there { (told : List ℕ) → IsOf told log.new
        → OnOk result (take (length bytes.now) (drop place told) ≡ bytes.now) }
    ensures within { (told : List ℕ) → IsOf told log.new
        → OnOk result (length bytes.now ≤ length (drop place told)) }
    ensures quiet { OnOk result (log.new.failures ≡ log.old.failures) }
    ensures counted { IfErr result (LoadCounts log.old.failures log.new.failures) }
    ensures changed { (told : List ℕ) → IsOf told log.new
        → IsErrOf result LoadFault.Changed
        → take (length bytes.now) (drop place told) ≡ bytes.now → ⊥ }
    ensures follows { Follows log.old log.new }
{
    let mut room = [0; 2880];
    let mut rest = bytes;
    let mut place = place;
    while !rest.is_empty() {
        let most = rest.len().min(room.len());
        let (piece, more) = rest.split_at(most);
        same_there(file, log, place, piece, &mut room)?;
        place += most as u64;
        rest = more;
    }
    Ok(())
}

// Whether it has these there, of which no more are than the room holds.
fn same_there<F: Stored>(
    file: &F,
    log: &mut ReadLog,
    place: u64,
    bytes: &[u8],
    room: &mut [u8; 2880],
) -> Result<(), LoadFault>
    requires { length bytes.now ≤ 2880 }
    ensures are { OnOk result (ReadsOn place log.old log.new bytes.now) }
    ensures quiet { OnOk result (log.new.failures ≡ log.old.failures) }
    ensures counted { IfErr result (LoadCounts log.old.failures log.new.failures) }
    ensures changed { (told : List ℕ) → IsOf told log.new
        → IsErrOf result LoadFault.Changed
        → take (length bytes.now) (drop place told) ≡ bytes.now → ⊥ }
    ensures follows { Follows log.old log.new }
{
    let (held, _) = room.split_at_mut(bytes.len());
    read_there(file, log, place, held)?;
    if &*held != bytes {
        return Err(LoadFault::Changed);
    }
    Ok(())
}
