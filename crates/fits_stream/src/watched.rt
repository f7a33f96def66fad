ghost use Rattle.std.specs.Prelude.{◌≡◌, [], Some};
ghost use Rattle.fits_stream.specs.Log.{unbegun, unskipped};

use crate::came::Came;
use crate::count::Count;
use crate::giver::Giver;
use crate::gone_bytes::GoneBytes;
use crate::sink::Sink;
use crate::skipping::skip_by_reading;
use crate::source::Source;
use std::io;
use std::io::{Read, Write};
use std::marker::Model;

/// A reader or a writer of std, with the bytes that its calls took or gave, which contracts alone
/// see, a count of its failed calls, and one of its writes since the last flush that succeeded.
///
/// Every kind of error is a failed call. That no call is tried again, and that a flush reaches the
/// writer below is tested: std's `Write` doesn't say what has arrived.
#[derive(Drop)]
pub struct Watched<S> {
    stream: Logged<S>,
    failed: Count,
    unflushed: Count,
}

// A reader or a writer, and the bytes that its calls took or gave.
#[derive(Drop)]
struct Logged<S> {
    stream: S,
    taken: GoneBytes,
    came: Came,
}

impl<S> Model for Watched<S> {
    ghost use Rattle.fits_stream.specs.Stream.{Watch};

    ghost Value = { Watch S };

    ghost view = { λ it. record {
      stream = it.stream.stream;
      taken = it.stream.taken.bytes;
      log = it.stream.came.log;
      failures = it.failed.total;
      unflushed = it.unflushed.total;
    } };
}

impl<S> Watched<S> {
    pub fn new(stream: S) -> Watched<S>
        ensures { result ≡ record {
          stream = stream;
          taken = [];
          log = unbegun;
          failures = 0;
          unflushed = 0;
        } }
    {
        Watched {
            stream: Logged {
                stream,
                taken: GoneBytes::none(),
                came: Came::none(),
            },
            failed: Count::new(),
            unflushed: Count::new(),
        }
    }

    /// The reader or writer again.
    pub fn into_inner(self) -> S
        ensures { result ≡ self.stream }
    {
        let Watched { stream, .. } = self;
        stream.stream
    }
}

impl<R: Read> Source for Watched<R> {
    ghost state = { λ it. record {
      remaining = R.remaining it.stream;
      log = Some (unskipped it.log);
      failures = it.failures;
    } };

    fn read(&mut self, buffer: &mut [u8]) -> io::Result<usize> {
        match self.stream.give(buffer) {
            Ok(n) => Ok(n),
            Err(error) => {
                self.failed.tick();
                Err(error)
            }
        }
    }

    #[tactic(auto, using(crate::proofs::IntakeLemmas::skip_steps))]
    fn skip(&mut self, buffer: &mut [u8], len: usize) -> io::Result<usize> {
        match skip_by_reading(&mut self.stream, buffer, len) {
            Ok(count) => Ok(count),
            Err(error) => {
                self.failed.tick();
                Err(error)
            }
        }
    }
}

impl<R: Read> Giver for Logged<R> {
    ghost stock = { λ it. record {
      left = R.remaining it.stream;
      log = Some (unskipped it.came.log);
    } };

    fn give(&mut self, buffer: &mut [u8]) -> io::Result<usize> {
        let n = self.stream.read(buffer)?;
        self.came.give(buffer, n);
        Ok(n)
    }
}

impl<W: Write> Logged<W> {
    ghost use Rattle.std.specs.Prelude.{◌≡◌, ◌++◌, take, IfOk, OnErr};
    ghost use Rattle.std.specs.Io.{WritesAtMost};
    ghost use Rattle.std.specs.Io.KnownBytes.{Appends, Keeps};

    // Writes a prefix of the piece, and logs it.
    fn put(&mut self, piece: &[u8]) -> io::Result<usize>
        ensures bound { WritesAtMost result piece.now }
        ensures told { IfOk result (λ count. Appends (W.contents self.old.stream)
            (W.contents self.new.stream) (take count piece.now)) }
        ensures taken { IfOk result (λ count. self.new.taken.bytes
            ≡ self.old.taken.bytes ++ take count piece.now) }
        ensures kept { OnErr result (Keeps (W.contents self.old.stream)
            (W.contents self.new.stream)) }
        ensures same { OnErr result (self.new.taken.bytes ≡ self.old.taken.bytes) }
    {
        let n = self.stream.write(piece)?;
        self.taken.add(&piece[..n]);
        Ok(n)
    }
}

impl<W: Write> Sink for Watched<W> {
    ghost state = { λ it. record {
      contents = record { told = W.contents it.stream; taken = Some it.taken };
      failures = it.failures;
      unflushed = it.unflushed;
    } };

    fn write(&mut self, piece: &[u8]) -> io::Result<usize> {
        self.unflushed.tick();
        match self.stream.put(piece) {
            Ok(n) => {
                if n == 0 && !piece.is_empty() {
                    self.failed.tick();
                }
                Ok(n)
            }
            Err(error) => {
                self.failed.tick();
                Err(error)
            }
        }
    }

    fn flush(&mut self) -> io::Result<()> {
        match self.stream.stream.flush() {
            Ok(()) => {
                self.unflushed = Count::new();
                Ok(())
            }
            Err(error) => {
                self.failed.tick();
                Err(error)
            }
        }
    }
}
