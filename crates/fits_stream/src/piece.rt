ghost use Rattle.std.specs.Prelude.{◌≡◌, ◌+◌, ◌-◌, ◌<◌, ◌≤◌, length, take, drop, IfOk, IfErr, OnOk, OnErr};
ghost use Rattle.fits_stream.specs.Intake.{ReadsAfter, TakingStops};
ghost use Rattle.fits_stream.specs.Stream.{FailsOnce, Reads, IsDry};

use crate::reading::{PIECE_LEN, ReadFault, buffer_of};
use crate::source::Source;
use std::alloc::{AllocError, Global};
use std::io;
use std::marker::Model;

/// Room that a source is read into. Contracts see the bytes that it holds.
#[derive(Drop)]
pub(crate) struct Piece {
    room: Vec<u8>,
    // Where the bytes that it holds begin and end.
    begin: usize,
    end: usize,
}

impl Model for Piece {
    ghost use Rattle.std.specs.Prelude.{◌≡◌, ◌≤◌, ℕ, List, drop, take, vec_len};
    ghost use Rattle.fits_stream.specs.declared.reading.TheConstants.{PIECE_LEN};

    ghost Value = { List ℕ };

    ghost view = { λ piece. drop piece.begin (take piece.end piece.room.items) };

    ghost invariant = { λ piece. record {
      size : vec_len piece.room ≡ PIECE_LEN;
      within : piece.end ≤ PIECE_LEN;
      ordered : piece.begin ≤ piece.end;
    } };
}

impl Piece {
    ghost use Rattle.std.specs.Prelude.{◌≡◌, ◌+◌, ◌<◌, ◌≤◌, [], length, drop, IfOk, IfErr, OnOk, OnErr};
    ghost use Rattle.fits_stream.specs.declared.reading.TheConstants.{PIECE_LEN};
    ghost use Rattle.fits_stream.specs.Intake.{ReadsAfter, Skips, TakingStops};
    ghost use Rattle.fits_stream.specs.Stream.{FailsOnce, IsDry};

    pub(crate) fn new(alloc: Global) -> Result<Piece, AllocError>
        ensures { IfOk result (λ piece. piece ≡ []) }
    {
        Ok(Piece {
            room: buffer_of(alloc, PIECE_LEN)?,
            begin: 0,
            end: 0,
        })
    }

    pub(crate) fn bytes(&self) -> &[u8]
        ensures { result.now ≡ self.now }
    {
        let (begun, _) = self.room.split_at(self.end);
        let (_, held) = begun.split_at(self.begin);
        held
    }

    /// Lets the first bytes go.
    pub(crate) fn pass(&mut self, len: usize)
        requires { len ≤ length self.old }
        ensures { self.new ≡ drop len self.old }
    {
        self.begin += len;
    }

    /// Reads at least so many bytes more, or as many as there are, and no more than `most`.
    pub(crate) fn fill<R: Source>(
        &mut self,
        source: &mut R,
        least: usize,
        most: usize,
    ) -> io::Result<usize>
        requires ordered { least ≤ most }
        requires room { length self.old + most ≤ PIECE_LEN }
        ensures ok { OnOk result (ReadsAfter self.old
            (R.state source.old) (R.state source.new) self.new) }
        ensures count { IfOk result (λ count. length self.new ≡ length self.old + count) }
        ensures within { IfOk result (λ count. count ≤ most) }
        ensures ends { IfOk result (λ count. count < least
            → IsDry (R.state source.new)) }
        ensures size { OnErr result (length self.new ≡ length self.old) }
        ensures err { OnErr result (FailsOnce (R.state source.old) (R.state source.new)) }
    {
        drop_front(self.room.as_mut_slice(), self.begin, self.end);
        self.end -= self.begin;
        self.begin = 0;
        let count = fill_after(source, self.room.as_mut_slice(), self.end, least, most)?;
        self.end += count;
        Ok(count)
    }

    /// Bytes and those that follow them, so many in all, or as many as there are. They are read
    /// through the piece, which holds none then.
    pub(crate) fn take<R: Source>(
        &mut self,
        source: &mut R,
        before: Vec<u8>,
        len: usize,
    ) -> Result<Vec<u8>, ReadFault>
        requires { length before.items ≤ len }
        ensures ok { IfOk result (λ bytes. ReadsAfter before.items
            (R.state source.old) (R.state source.new) bytes.items) }
        ensures within { IfOk result (λ bytes. length bytes.items ≤ len) }
        ensures ends { IfOk result (λ bytes. length bytes.items < len
            → IsDry (R.state source.new)) }
        ensures none { self.new ≡ [] }
        ensures err { IfErr result (TakingStops (R.state source.old) (R.state source.new)) }
    {
        self.begin = 0;
        self.end = 0;
        take_after(before, source, self.room.as_mut_slice(), len)
    }

    /// Goes past the next bytes of the source, so many or as many as there are, and says how many.
    /// It holds none then.
    pub(crate) fn skip<R: Source>(&mut self, source: &mut R, len: usize) -> io::Result<usize>
        ensures ok { IfOk result (Skips (R.state source.old) (R.state source.new)) }
        ensures within { IfOk result (λ count. count ≤ len) }
        ensures ends { IfOk result (λ count. count < len
            → IsDry (R.state source.new)) }
        ensures none { self.new ≡ [] }
        ensures err { OnErr result (FailsOnce (R.state source.old) (R.state source.new)) }
    {
        self.begin = 0;
        self.end = 0;
        source.skip(self.room.as_mut_slice(), len)
    }
}

// Moves the bytes of a front that follow so many of it to the beginning.
fn drop_front(room: &mut [u8], len: usize, end: usize)
    requires within { len ≤ end }
    requires room { end ≤ length room.old }
    ensures value { take (end - len) room.new ≡ drop len (take end room.old) }
    ensures size { length room.new ≡ length room.old }
{
    room.copy_within(len..end, 0);
}

// Fills at least so many bytes after the first ones, or as far as the source ends, and says how
// many; no more than `most`.
#[tactic(auto, using(crate::proofs::IntakeLemmas::filling_steps))]
fn fill_after<R: Source>(
    source: &mut R,
    room: &mut [u8],
    held: usize,
    least: usize,
    most: usize,
) -> io::Result<usize>
    requires ordered { least ≤ most }
    requires room { held + most ≤ length room.old }
    ensures ok { IfOk result (λ count. ReadsAfter (take held room.old)
        (R.state source.old) (R.state source.new) (take (held + count) room.new)) }
    ensures within { IfOk result (λ count. count ≤ most) }
    ensures ends { IfOk result (λ count. count < least → IsDry (R.state source.new)) }
    ensures size { length room.new ≡ length room.old }
    ensures err { OnErr result (FailsOnce (R.state source.old) (R.state source.new)) }
{
    let (_, rest) = room.split_at_mut(held);
    let (rest, _) = rest.split_at_mut(most);
    fill(source, rest, least)
}

/// Fills at least so many bytes of the room by as many reads as it takes, or as far as the source
/// ends, and says how many it has.
#[tactic(auto, using(crate::proofs::IntakeLemmas::filling_steps))]
pub fn fill<R: Source>(source: &mut R, room: &mut [u8], least: usize) -> io::Result<usize>
    requires { least ≤ length room.old }
    ensures ok { IfOk result (λ count. Reads (take count room.new)
        (R.state source.old) (R.state source.new)) }
    ensures within { IfOk result (λ count. count ≤ length room.new) }
    ensures ends { IfOk result (λ count. count < least → IsDry (R.state source.new)) }
    ensures size { length room.new ≡ length room.old }
    ensures err { OnErr result (FailsOnce (R.state source.old) (R.state source.new)) }
{
    let mut count = 0;
    while count < least {
        let (_, rest) = room.split_at_mut(count);
        let n = source.read(rest)?;
        if n == 0 {
            return Ok(count);
        }
        count += n;
    }
    Ok(count)
}

// These bytes and those that follow, so many in all, or as many as there are. No call asks for
// more.
#[tactic(auto, using(crate::proofs::IntakeLemmas::taking_steps))]
fn take_after<R: Source>(
    before: Vec<u8>,
    source: &mut R,
    room: &mut [u8],
    len: usize,
) -> Result<Vec<u8>, ReadFault>
    requires wide { 0 < length room.old }
    requires within { length before.items ≤ len }
    ensures ok { IfOk result (λ bytes. ReadsAfter before.items
        (R.state source.old) (R.state source.new) bytes.items) }
    ensures within { IfOk result (λ bytes. length bytes.items ≤ len) }
    ensures ends { IfOk result (λ bytes. length bytes.items < len
        → IsDry (R.state source.new)) }
    ensures size { length room.new ≡ length room.old }
    ensures err { IfErr result (TakingStops (R.state source.old) (R.state source.new)) }
{
    let mut bytes = before;
    while bytes.len() < len {
        let most = room.len().min(len - bytes.len());
        let (next, _) = room.split_at_mut(most);
        let Ok(n) = source.read(next) else {
            return Err(ReadFault::Failed);
        };
        if n == 0 {
            return Ok(bytes);
        }
        let Ok(()) = bytes.extend_from_slice(&next[..n]) else {
            return Err(ReadFault::Memory);
        };
    }
    Ok(bytes)
}
