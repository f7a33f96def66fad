ghost use Rattle.std.specs.Prelude.{◌≡◌, ◌<◌, length, take, IfOk, OnErr};
ghost use Rattle.std.specs.Io.{ReadsAtMost};
ghost use Rattle.fits_stream.specs.Log.{met_end, IsDone, NotesEnd};
ghost use Rattle.fits_stream.specs.Stored.{Comes, Stock, Waits};

use std::io;

/// What gives bytes, and keeps a log of them.
pub(crate) trait Giver {
    /// What it has left, and what came.
    ghost stock: { Self → Stock };

    /// Fills a prefix of the buffer, and says how many bytes it has. 0 is the end.
    fn give(&mut self, buffer: &mut [u8]) -> io::Result<usize>
        ensures bound { ReadsAtMost result buffer.new }
        ensures ok { IfOk result (λ count. Comes (take count buffer.new)
            (stock self.old) (stock self.new)) }
        ensures ends { IfOk result (λ count. count ≡ 0 → 0 < length buffer.new
            → IsDone (stock self.new).left (stock self.new).log) }
        ensures noted { IfOk result (λ count. NotesEnd (met_end count (length buffer.new))
            (stock self.old).log (stock self.new).log) }
        ensures size { length buffer.new ≡ length buffer.old }
        ensures err { OnErr result (Waits (stock self.old) (stock self.new)) };
}
