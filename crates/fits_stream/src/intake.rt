ghost use Rattle.std.specs.Prelude.{◌≡◌, ◌<◌, ◌↔◌, length, IfOk, IfSome, OnOk, OnErr, IsTrue, false};
ghost use Rattle.fits_stream.specs.Gave.{Overruns};
ghost use Rattle.fits_stream.specs.Stream.{FailsOnce, IsDry, StaysQuiet};

use crate::ahead::Ahead;
use crate::piece::Piece;
use crate::reach::Reach;
use crate::reading::{PIECE_LEN, ReadFault};
use crate::source::Source;
use std::alloc::{AllocError, Global};
use std::io;
use std::marker::Model;

/// How the bytes of a source are taken, piece by piece, up to a limit.
///
/// Bytes may be held ahead of their taking. Contracts see those, and how many more may be taken
/// after them.
#[derive(Drop)]
pub struct Intake<'a> {
    ahead: Ahead<'a>,
    left: usize,
    reach: Reach,
}

impl<'a> Model for Intake<'a> {
    ghost use Rattle.std.specs.Prelude.{◌≡◌, ◌+◌, ◌^◌, ◌<◌, true, length};
    ghost use Rattle.fits_stream.specs.Ahead.{ahead_bytes, is_lent};
    ghost use Rattle.fits_stream.specs.Intake.{IntakeState};

    ghost Value = { IntakeState };

    ghost view = { λ intake. record {
      ahead = ahead_bytes intake.ahead;
      left = intake.left;
    } };

    ghost invariant = { λ intake. record {
      lent : is_lent intake.ahead ≡ true → intake.left ≡ 0;
      whole : length (ahead_bytes intake.ahead) + intake.left < 2 ^ 64;
    } };
}

impl<'a> Intake<'a> {
    ghost use Rattle.std.specs.Prelude.{◌≡◌, ◌+◌, ◌<◌, ◌≤◌, ◌↔◌, ◌^◌, [], length, drop, IfOk, IfErr, IfSome, OnOk, OnErr, IsTrue, false};
    ghost use Rattle.fits_stream.specs.declared.reading.TheConstants.{PIECE_LEN};
    ghost use Rattle.fits_stream.specs.Gave.{Overruns};
    ghost use Rattle.fits_stream.specs.Intake.{supply, IsOver, IsSpent, Passes, Takes, TakingStops};
    ghost use Rattle.fits_stream.specs.Stream.{FailsOnce, IsDry, StaysQuiet};

    /// An intake of so many bytes, of which none is ahead yet. It takes room for a piece.
    pub fn new(alloc: Global, limit: usize, reach: Reach) -> Result<Intake<'a>, AllocError>
        ensures { IfOk result (λ intake. intake ≡ record { ahead = []; left = limit }) }
    {
        Ok(Intake {
            ahead: Ahead::Read(Piece::new(alloc)?),
            left: limit,
            reach,
        })
    }

    /// An intake of these bytes alone, which are all ahead. It takes no memory.
    pub fn of(bytes: &'a [u8]) -> Intake<'a>
        ensures { result ≡ record { ahead = bytes.now; left = 0 } }
    {
        Intake {
            ahead: Ahead::Lent(bytes),
            left: 0,
            reach: Reach::Wanted,
        }
    }

    /// How many more bytes may be taken.
    pub fn left(&self) -> usize
        ensures { result ≡ length self.now.ahead + self.now.left }
    {
        self.ahead.bytes().len() + self.left
    }

    /// The bytes ahead.
    pub fn ahead(&self) -> &[u8]
        ensures { result.now ≡ self.now.ahead }
    {
        self.ahead.bytes()
    }

    /// Holds at least so many bytes ahead, or as many as there are. It takes no memory.
    pub fn hold<R: Source>(&mut self, source: &mut R, len: usize) -> io::Result<()>
        requires { len ≤ PIECE_LEN }
        ensures ok { OnOk result (Takes
            (supply (R.state source.old) self.old) (supply (R.state source.new) self.new) []) }
        ensures ends { OnOk result (length self.new.ahead < len
            → IsSpent (supply (R.state source.new) self.new)) }
        ensures err { OnErr result (FailsOnce (R.state source.old) (R.state source.new)) }
    {
        let held = self.ahead.bytes().len();
        if held < len {
            let least = (len - held).min(self.left);
            let most = match self.reach {
                Reach::Wanted => least,
                Reach::Piece => (PIECE_LEN - held).min(self.left),
            };
            let count = self.ahead.fill(source, least, most)?;
            self.left -= count;
        }
        Ok(())
    }

    /// Takes so many of the bytes ahead, which are dropped.
    pub fn pass(&mut self, len: usize)
        requires { len ≤ length self.old.ahead }
        ensures ahead { self.new.ahead ≡ drop len self.old.ahead }
        ensures left { self.new.left ≡ self.old.left }
    {
        self.ahead.pass(len);
    }

    /// The next bytes, so many or as many as there are. Memory is asked for as they come.
    #[tactic(auto, using(crate::proofs::IntakeLemmas::intake_steps))]
    pub fn take<R: Source>(
        &mut self,
        alloc: Global,
        source: &mut R,
        len: usize,
    ) -> Result<Vec<u8>, ReadFault>
        ensures ok { IfOk result (λ bytes. Takes
            (supply (R.state source.old) self.old) (supply (R.state source.new) self.new)
            bytes.items) }
        ensures within { IfOk result (λ bytes. length bytes.items ≤ len) }
        ensures ends { IfOk result (λ bytes. length bytes.items < len
            → IsOver (supply (R.state source.new) self.new)) }
        ensures err { IfErr result (TakingStops (R.state source.old) (R.state source.new)) }
    {
        let ahead = self.ahead.bytes();
        if len <= ahead.len() {
            let (bytes, _) = ahead.split_at(len);
            let bytes = bytes.to_vec(alloc)?;
            self.ahead.pass(len);
            return Ok(bytes);
        }
        let held = ahead.len();
        let before = ahead.to_vec(alloc)?;
        self.ahead.pass(held);
        let most = held + (len - held).min(self.left);
        let bytes = self.ahead.take(source, before, most)?;
        self.left -= bytes.len() - held;
        Ok(bytes)
    }

    /// Drops the next bytes, so many or as many as there are, and says how many.
    #[tactic(auto, using(crate::proofs::IntakeLemmas::intake_steps))]
    pub fn skip<R: Source>(&mut self, source: &mut R, len: usize) -> io::Result<usize>
        ensures ok { IfOk result (Passes
            (supply (R.state source.old) self.old) (supply (R.state source.new) self.new)) }
        ensures within { IfOk result (λ count. count ≤ len) }
        ensures ends { IfOk result (λ count. count < len
            → IsOver (supply (R.state source.new) self.new)) }
        ensures err { OnErr result (FailsOnce (R.state source.old) (R.state source.new)) }
    {
        let held = self.ahead.bytes().len();
        if len <= held {
            self.ahead.pass(len);
            return Ok(len);
        }
        self.ahead.pass(held);
        let most = (len - held).min(self.left);
        let count = self.ahead.skip(source, most)?;
        self.left -= count;
        Ok(held + count)
    }

    /// Drops what may still be taken, and says whether the source has more than that.
    #[tactic(auto, using(crate::proofs::IntakeLemmas::intake_steps))]
    pub fn overruns<R: Source>(mut self, source: &mut R) -> io::Result<bool>
        ensures more { IfOk result (λ more. IfSome (R.state source.old).remaining
            (λ bytes. IsTrue more ↔ (self.entry.left < length bytes))) }
        ensures came { IfOk result (λ more. Overruns self.entry.left more
            (R.state source.old) (R.state source.new)) }
        ensures over { IfOk result (λ more. more ≡ false → IsDry (R.state source.new)) }
        ensures quiet { OnOk result (StaysQuiet (R.state source.old) (R.state source.new)) }
        ensures err { OnErr result (FailsOnce (R.state source.old) (R.state source.new)) }
    {
        let held = self.ahead.bytes().len();
        self.ahead.pass(held);
        let left = self.left;
        let count = self.ahead.skip(source, left)?;
        if count < left {
            return Ok(false);
        }
        has_more(source)
    }
}

// Whether another byte is left. It is dropped.
#[tactic(auto, using(crate::proofs::IntakeLemmas::intake_steps))]
fn has_more<R: Source>(source: &mut R) -> io::Result<bool>
    ensures ok { IfOk result (λ more. IfSome (R.state source.old).remaining
        (λ bytes. IsTrue more ↔ (0 < length bytes))) }
    ensures came { IfOk result (λ more. Overruns 0 more
        (R.state source.old) (R.state source.new)) }
    ensures over { IfOk result (λ more. more ≡ false → IsDry (R.state source.new)) }
    ensures quiet { OnOk result (StaysQuiet (R.state source.old) (R.state source.new)) }
    ensures err { OnErr result (FailsOnce (R.state source.old) (R.state source.new)) }
{
    let mut next = [0u8; 1];
    let n = source.read(&mut next)?;
    Ok(n > 0)
}
