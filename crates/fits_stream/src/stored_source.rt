ghost use Rattle.std.specs.Prelude.{◌≡◌, Some};
ghost use Rattle.fits_stream.specs.Log.{unskipped};

use crate::came::Came;
use crate::count::Count;
use crate::giver::Giver;
use crate::read_log::ReadLog;
use crate::skipping::skip_by_reading;
use crate::source::Source;
use crate::stored::Stored;
use std::io;
use std::marker::Model;

/// The bytes of a stored file that is lent, from a place on. Each of them is read.
#[derive(Drop)]
pub struct StoredSource<'f, F> {
    at: AtPlace<'f, F>,
    failed: Count,
}

impl<'f, F> Model for StoredSource<'f, F> {
    ghost use Rattle.fits_stream.specs.Stored.{Lent};

    ghost Value = { Lent F };

    ghost view = { λ it. record {
      file = it.at.file;
      log = it.at.log;
      failures = it.failed.total;
    } };
}

/// A stored file, the place of its next byte, and what came of it.
#[derive(Drop)]
pub(crate) struct AtPlace<'f, F> {
    file: &'f F,
    place: u64,
    came: Came,
}

impl<'f, F> Model for AtPlace<'f, F> {
    ghost use Rattle.std.specs.Prelude.{◌≡◌};
    ghost use Rattle.fits_stream.specs.Stored.{LentAt};

    ghost Value = { LentAt F };

    ghost view = { λ it. record { file = it.file.now; log = it.came.log } };

    ghost invariant = { λ it. it.place ≡ it.came.log.at };
}

impl<'f, F> StoredSource<'f, F> {
    ghost use Rattle.std.specs.Prelude.{◌≡◌};

    /// The bytes from this place on. It goes on with the log.
    pub fn new(file: &'f F, place: u64, log: ReadLog) -> StoredSource<'f, F>
        requires { log.looked ≡ 0 }
        ensures file { result.file ≡ file.now }
        ensures place { result.log.at ≡ place }
        ensures came { result.log.came ≡ log.came }
        ensures ends { result.log.ends ≡ log.ends }
        ensures failures { result.failures ≡ log.failures }
    {
        let ReadLog { came, failed, .. } = log;
        StoredSource {
            at: AtPlace::new(file, place, came),
            failed,
        }
    }

    /// The log, with its own reads.
    pub fn into_log(self) -> ReadLog
        ensures { result ≡ record { came = self.entry.log.came; ends = self.entry.log.ends; failures = self.entry.failures; looked = 0 } }
    {
        let StoredSource { at, failed } = self;
        ReadLog {
            came: at.into_came(),
            failed,
            looked: Count::new(),
        }
    }
}

impl<'f, F> AtPlace<'f, F> {
    ghost use Rattle.std.specs.Prelude.{◌≡◌};
    ghost use Rattle.fits_stream.specs.Log.{turned};

    fn new(file: &'f F, place: u64, came: Came) -> AtPlace<'f, F>
        ensures { result ≡ record { file = file.now; log = turned came.log place } }
    {
        let mut came = came;
        came.turn(place);
        AtPlace { file, place, came }
    }

    fn into_came(self) -> Came
        ensures { result.log ≡ self.entry.log }
    {
        let AtPlace { came, .. } = self;
        came
    }
}

impl<'f, F: Stored> Source for StoredSource<'f, F> {
    ghost use Rattle.fits_stream.specs.Stored.{bytes_from};

    ghost state = { λ it. record {
      remaining = bytes_from it.log.at (F.bytes it.file);
      log = Some (unskipped it.log);
      failures = it.failures;
    } };

    fn read(&mut self, buffer: &mut [u8]) -> io::Result<usize> {
        match self.at.give(buffer) {
            Ok(n) => Ok(n),
            Err(error) => {
                self.failed.tick();
                Err(error)
            }
        }
    }

    #[tactic(auto, using(crate::proofs::IntakeLemmas::skip_steps))]
    fn skip(&mut self, buffer: &mut [u8], len: usize) -> io::Result<usize> {
        match skip_by_reading(&mut self.at, buffer, len) {
            Ok(count) => Ok(count),
            Err(error) => {
                self.failed.tick();
                Err(error)
            }
        }
    }
}

impl<'f, F: Stored> Giver for AtPlace<'f, F> {
    ghost use Rattle.fits_stream.specs.Stored.{bytes_from};

    ghost stock = { λ it. record {
      left = bytes_from it.log.at (F.bytes it.file);
      log = Some (unskipped it.log);
    } };

    fn give(&mut self, buffer: &mut [u8]) -> io::Result<usize> {
        let n = self.file.read_from(buffer, self.place)?;
        let Some(next) = self.place.checked_add(n as u64) else {
            return Err(io::Error::from(io::ErrorKind::FileTooLarge));
        };
        self.place = next;
        self.came.give(buffer, n);
        Ok(n)
    }
}
