ghost use Rattle.fits_stream.specs.Ahead.{ahead_bytes, is_lent};

use crate::piece::Piece;
use crate::reading::ReadFault;
use crate::source::Source;
use std::io;

/// The bytes that lie ahead of their taking.
#[derive(Drop)]
pub(crate) enum Ahead<'a> {
    /// They were read into a piece.
    Read(Piece),
    /// They are all there are, and lie in memory: none is read.
    Lent(&'a [u8]),
}

impl<'a> Ahead<'a> {
    ghost use Rattle.std.specs.Prelude.{◌≡◌, ◌+◌, ◌<◌, ◌≤◌, true, [], length, drop, IfOk, IfErr, OnOk, OnErr};
    ghost use Rattle.fits_stream.specs.Ahead.{ahead_bytes, is_lent};
    ghost use Rattle.fits_stream.specs.declared.reading.TheConstants.{PIECE_LEN};
    ghost use Rattle.fits_stream.specs.Intake.{ReadsAfter, Skips, TakingStops};
    ghost use Rattle.fits_stream.specs.Stream.{FailsOnce, IsDry};

    pub(crate) fn bytes(&self) -> &[u8]
        ensures { result.now ≡ ahead_bytes self.now }
    {
        match self {
            Ahead::Read(piece) => piece.bytes(),
            Ahead::Lent(bytes) => bytes,
        }
    }

    /// Lets the first bytes go.
    pub(crate) fn pass(&mut self, len: usize)
        requires { len ≤ length (ahead_bytes self.old) }
        ensures value { ahead_bytes self.new ≡ drop len (ahead_bytes self.old) }
        ensures lent { is_lent self.new ≡ is_lent self.old }
    {
        match self {
            Ahead::Read(piece) => piece.pass(len),
            Ahead::Lent(bytes) => {
                let (_, rest) = bytes.split_at(len);
                *bytes = rest;
            }
        }
    }

    /// Reads at least so many bytes more, or as many as there are, and no more than `most`.
    pub(crate) fn fill<R: Source>(
        &mut self,
        source: &mut R,
        least: usize,
        most: usize,
    ) -> io::Result<usize>
        requires read { is_lent self.old ≡ true → most ≡ 0 }
        requires ordered { least ≤ most }
        requires room { length (ahead_bytes self.old) + most ≤ PIECE_LEN }
        ensures ok { OnOk result (ReadsAfter (ahead_bytes self.old)
            (R.state source.old) (R.state source.new) (ahead_bytes self.new)) }
        ensures count { IfOk result (λ count. length (ahead_bytes self.new)
            ≡ length (ahead_bytes self.old) + count) }
        ensures within { IfOk result (λ count. count ≤ most) }
        ensures ends { IfOk result (λ count. count < least
            → IsDry (R.state source.new)) }
        ensures lent { is_lent self.new ≡ is_lent self.old }
        ensures size { OnErr result (length (ahead_bytes self.new) ≡ length (ahead_bytes self.old)) }
        ensures err { OnErr result (FailsOnce (R.state source.old) (R.state source.new)) }
    {
        match self {
            Ahead::Read(piece) => piece.fill(source, least, most),
            Ahead::Lent(_) => Ok(0),
        }
    }

    /// Bytes and those that follow them, so many in all, or as many as there are. No bytes are ahead
    /// then.
    pub(crate) fn take<R: Source>(
        &mut self,
        source: &mut R,
        before: Vec<u8>,
        len: usize,
    ) -> Result<Vec<u8>, ReadFault>
        requires none { ahead_bytes self.old ≡ [] }
        requires read { is_lent self.old ≡ true → len ≡ length before.items }
        requires within { length before.items ≤ len }
        ensures ok { IfOk result (λ bytes. ReadsAfter before.items
            (R.state source.old) (R.state source.new) bytes.items) }
        ensures within { IfOk result (λ bytes. length bytes.items ≤ len) }
        ensures ends { IfOk result (λ bytes. length bytes.items < len
            → IsDry (R.state source.new)) }
        ensures none { ahead_bytes self.new ≡ [] }
        ensures lent { is_lent self.new ≡ is_lent self.old }
        ensures err { IfErr result (TakingStops (R.state source.old) (R.state source.new)) }
    {
        match self {
            Ahead::Read(piece) => piece.take(source, before, len),
            Ahead::Lent(_) => Ok(before),
        }
    }

    /// Goes past the next bytes of the source, so many or as many as there are, and says how many.
    /// No bytes are ahead then.
    pub(crate) fn skip<R: Source>(&mut self, source: &mut R, len: usize) -> io::Result<usize>
        requires none { ahead_bytes self.old ≡ [] }
        requires read { is_lent self.old ≡ true → len ≡ 0 }
        ensures ok { IfOk result (Skips (R.state source.old) (R.state source.new)) }
        ensures within { IfOk result (λ count. count ≤ len) }
        ensures ends { IfOk result (λ count. count < len
            → IsDry (R.state source.new)) }
        ensures none { ahead_bytes self.new ≡ [] }
        ensures lent { is_lent self.new ≡ is_lent self.old }
        ensures err { OnErr result (FailsOnce (R.state source.old) (R.state source.new)) }
    {
        match self {
            Ahead::Read(piece) => piece.skip(source, len),
            Ahead::Lent(_) => Ok(0),
        }
    }
}
