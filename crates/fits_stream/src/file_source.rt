ghost use Rattle.std.specs.Prelude.{◌≡◌, ◌≤◌, ℕ, [], None, Some, IfOk};
ghost use Rattle.fits_stream.specs.Stored.{left_at};
ghost use Rattle.fits_stream.specs.Log.{unbegun};

use crate::came::Came;
use crate::count::Count;
use crate::giver::Giver;
use crate::skipping::skip_by_reading;
use crate::source::Source;
use crate::stored::Stored;
use std::io;
use std::io::Read;
use std::marker::Model;

/// A file, with a count of its failed calls.
///
/// It is read at places, so that bytes that nobody asks for are gone past unread; or as a stream.
#[derive(Drop)]
pub struct FileSource<F> {
    file: PlacedFile<F>,
    failed: Count,
}

impl<F> Model for FileSource<F> {
    ghost use Rattle.fits_stream.specs.Stored.{Placed};

    ghost Value = { Placed F };

    ghost view = { λ it. record {
      file = it.file.file;
      place = it.file.place;
      log = it.file.came.log;
      failures = it.failed.total;
    } };
}

// A file, the place of its next byte, and what came of it. One that is read as a stream has no place.
#[derive(Drop)]
struct PlacedFile<F> {
    file: F,
    place: Option<u64>,
    came: Came,
}

impl<F> FileSource<F> {
    /// A file whose bytes have places, from its first byte on.
    pub fn stored(file: F) -> FileSource<F>
        ensures { result ≡ record { file = file; place = Some 0; log = unbegun; failures = 0 } }
    {
        FileSource {
            file: PlacedFile {
                file,
                place: Some(0),
                came: Came::none(),
            },
            failed: Count::new(),
        }
    }

    /// A file that is read as a stream: a pipe, a device.
    pub fn stream(file: F) -> FileSource<F>
        ensures { result ≡ record { file = file; place = None; log = unbegun; failures = 0 } }
    {
        FileSource {
            file: PlacedFile {
                file,
                place: None,
                came: Came::none(),
            },
            failed: Count::new(),
        }
    }
}

impl<F: Read + Stored> Source for FileSource<F> {
    ghost state = { λ it. record {
      remaining = left_at it.place (F.bytes it.file) (F.remaining it.file);
      log = Some it.log;
      failures = it.failures;
    } };

    fn read(&mut self, buffer: &mut [u8]) -> io::Result<usize> {
        match self.file.give(buffer) {
            Ok(n) => Ok(n),
            Err(error) => {
                self.failed.tick();
                Err(error)
            }
        }
    }

    #[tactic(auto, using(crate::proofs::IntakeLemmas::skip_steps))]
    fn skip(&mut self, buffer: &mut [u8], len: usize) -> io::Result<usize> {
        match self.file.skip(buffer, len) {
            Ok(count) => Ok(count),
            Err(error) => {
                self.failed.tick();
                Err(error)
            }
        }
    }
}

impl<F: Read + Stored> Giver for PlacedFile<F> {
    ghost stock = { λ it. record {
      left = left_at it.place (F.bytes it.file) (F.remaining it.file);
      log = Some it.came.log;
    } };

    fn give(&mut self, buffer: &mut [u8]) -> io::Result<usize> {
        let Some(place) = self.place else {
            let n = self.file.read(buffer)?;
            self.came.give(buffer, n);
            return Ok(n);
        };
        let n = self.file.read_from(buffer, place)?;
        let Some(next) = place.checked_add(n as u64) else {
            return Err(io::Error::from(io::ErrorKind::FileTooLarge));
        };
        self.place = Some(next);
        self.came.give(buffer, n);
        Ok(n)
    }
}

impl<F: Read + Stored> PlacedFile<F> {
    ghost use Rattle.std.specs.Prelude.{◌≡◌, ◌<◌, ◌≤◌, false, length, nat_lt, IfOk, OnErr, Some};
    ghost use Rattle.fits_stream.specs.Log.{Grows, IsDone, NotesEnd};
    ghost use Rattle.fits_stream.specs.Stored.{left_at, GoesPast};

    // Goes past the next bytes, so many or as many as there are, and says how many. Those that it
    // isn't known to have are read.
    #[tactic(auto, using(crate::proofs::StoredLemmas::past_grows, crate::proofs::StoredLemmas::past_more))]
    fn skip(&mut self, buffer: &mut [u8], len: usize) -> io::Result<usize>
        requires { 0 < length buffer.old }
        ensures ok { IfOk result (GoesPast
            (record { left = left_at self.old.place (F.bytes self.old.file) (F.remaining self.old.file); log = Some self.old.came.log })
            (record { left = left_at self.new.place (F.bytes self.new.file) (F.remaining self.new.file); log = Some self.new.came.log })) }
        ensures within { IfOk result (λ count. count ≤ len) }
        ensures ends { IfOk result (λ count. count < len → IsDone
            (left_at self.new.place (F.bytes self.new.file) (F.remaining self.new.file))
            (Some self.new.came.log)) }
        ensures noted { IfOk result (λ count. NotesEnd (nat_lt count len)
            (Some self.old.came.log) (Some self.new.came.log)) }
        ensures size { length buffer.new ≡ length buffer.old }
        ensures err { OnErr result (Grows (Some self.old.came.log) (Some self.new.came.log)) }
        ensures unended { OnErr result (NotesEnd false
            (Some self.old.came.log) (Some self.new.came.log)) }
    {
        let past = self.go_past(len);
        match skip_by_reading(self, buffer, len - past) {
            Ok(more) => Ok(past + more),
            Err(error) => Err(error),
        }
    }

    // Goes past so many bytes, or as many as it is known to have, and says how many.
    fn go_past(&mut self, len: usize) -> usize
        ensures ok { GoesPast
            (record { left = left_at self.old.place (F.bytes self.old.file) (F.remaining self.old.file); log = Some self.old.came.log })
            (record { left = left_at self.new.place (F.bytes self.new.file) (F.remaining self.new.file); log = Some self.new.came.log }) result }
        ensures within { result ≤ len }
        ensures unended { self.new.came.log.ends ≡ self.old.came.log.ends }
    {
        let Some(place) = self.place else {
            return 0;
        };
        let Some(left) = self.file.known_len().checked_sub(place) else {
            return 0;
        };
        let count = left.min(len as u64);
        self.place = Some(place + count);
        self.came.pass(count);
        count as usize
    }
}
