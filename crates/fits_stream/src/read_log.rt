ghost use Rattle.std.specs.Prelude.{◌≡◌, []};

use crate::came::Came;
use crate::count::Count;
use std::marker::Model;
use std::mem;

/// The reads of a stored file: the bytes that came, each with its place, the places at which none did,
/// how many reads failed, and how many blocks of what came were looked at as it was copied. It takes
/// no bytes, and only contracts see it.
///
/// Outside this crate nothing can be added to its reads: a `StoredSource` goes on with them, and they
/// are put back.
#[derive(Drop)]
pub struct ReadLog {
    pub(crate) came: Came,
    pub(crate) failed: Count,
    pub(crate) looked: Count,
}

impl Model for ReadLog {
    ghost use Rattle.fits_stream.specs.Stored.{ReadLogState};

    ghost Value = { ReadLogState };

    ghost view = { λ it. record { came = it.came.log.came; ends = it.came.log.ends; failures = it.failed.total; looked = it.looked.total } };
}

impl ReadLog {
    /// None so far.
    pub fn none() -> ReadLog
        ensures { result ≡ record { came = []; ends = []; failures = 0; looked = 0 } }
    {
        ReadLog {
            came: Came::none(),
            failed: Count::new(),
            looked: Count::new(),
        }
    }

    /// Those that it has, to be gone on with elsewhere. It is begun anew.
    pub fn take(&mut self) -> ReadLog
        ensures value { result ≡ self.old }
        ensures left { self.new ≡ record { came = []; ends = []; failures = 0; looked = 0 } }
    {
        mem::replace(self, ReadLog::none())
    }

    /// Its reads, to be gone on with by a source. They are begun anew; what was looked at is counted on.
    pub fn take_reads(&mut self) -> ReadLog
        ensures value { result ≡ record self.old { looked = 0 } }
        ensures left { self.new ≡ record {
          came = [];
          ends = [];
          failures = 0;
          looked = self.old.looked;
        } }
    {
        ReadLog {
            came: mem::replace(&mut self.came, Came::none()),
            failed: mem::replace(&mut self.failed, Count::new()),
            looked: Count::new(),
        }
    }

    /// The reads that a source went on with are its own again.
    pub fn put_reads(&mut self, reads: ReadLog)
        ensures { self.new ≡ record reads { looked = self.old.looked } }
    {
        let ReadLog { came, failed, .. } = reads;
        self.came = came;
        self.failed = failed;
    }

    /// How many blocks of what came were looked at, to be counted on beside it.
    pub fn take_looked(&mut self) -> Count
        ensures value { result.total ≡ self.old.looked }
        ensures left { self.new ≡ record self.old { looked = 0 } }
    {
        mem::replace(&mut self.looked, Count::new())
    }

    /// So many were looked at.
    pub fn put_looked(&mut self, looked: Count)
        requires { self.old.looked ≡ 0 }
        ensures { self.new ≡ record self.old { looked = looked.total } }
    {
        self.looked = looked;
    }
}
