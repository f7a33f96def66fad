ghost use Rattle.std.specs.Prelude.{IfOk, OnOk, OnErr};
ghost use Rattle.std.specs.Io.{WritesAtMost};
ghost use Rattle.fits_stream.specs.Stream.{SinkState, FailsToFlush, FailsToWrite, Flushes, Writes};

use std::io;

/// What bytes go to. As std's `Write`, with a count of its failed calls.
///
/// A write that takes nothing of a piece that isn't empty is a failed call too.
pub trait Sink {
    /// What it holds, its failed calls, and its writes that aren't passed on.
    ghost state: { Self → SinkState };

    /// Takes a prefix of the piece, and says how many bytes it has.
    fn write(&mut self, piece: &[u8]) -> io::Result<usize>
        ensures bound { WritesAtMost result piece.now }
        ensures ok { IfOk result (λ count. Writes count piece.now
            (state self.old) (state self.new)) }
        ensures err { OnErr result (FailsToWrite (state self.old) (state self.new)) };

    /// Passes on what it still holds back. Dropped instead of this, a buffered writer loses its
    /// error.
    fn flush(&mut self) -> io::Result<()>
        ensures ok { OnOk result (Flushes (state self.old) (state self.new)) }
        ensures err { OnErr result (FailsToFlush (state self.old) (state self.new)) };
}
