ghost use Rattle.std.specs.Prelude.{◌≤◌, ℕ, List, Option, length, None, IfSome};
ghost use Rattle.std.specs.Io.{ReadsAtMost};
ghost use Rattle.fits_stream.specs.Stored.{ReadsFrom};

use std::fs::File;
use std::io;
use std::os::unix::fs::FileExt;

/// What has bytes at places, as a regular file has.
pub trait Stored {
    /// All its bytes, where it tells them.
    ghost bytes: { Self → Option (List ℕ) };

    /// How many bytes it is known to have: it may have more.
    fn known_len(&self) -> u64
        ensures { IfSome (bytes self.now) (λ xs. result ≤ length xs) };

    /// Fills a prefix of the buffer with the bytes from a place on, and says how many it has. 0 is
    /// the end.
    fn read_from(&self, buffer: &mut [u8], place: u64) -> io::Result<usize>
        ensures bound { ReadsAtMost result buffer.new }
        ensures bytes { ReadsFrom place (bytes self.now) result buffer.new };
}

/// A file of the system tells no bytes.
impl Stored for File {
    ghost bytes = { λ _. None };

    fn known_len(&self) -> u64 {
        match self.metadata() {
            Ok(about) => about.len(),
            Err(_) => 0,
        }
    }

    fn read_from(&self, buffer: &mut [u8], place: u64) -> io::Result<usize> {
        self.read_at(buffer, place)
    }
}
