ghost use Rattle.std.specs.Prelude.{◌≡◌, ◌<◌, ◌≤◌, false, length, nat_lt, take, IfOk, OnErr};
ghost use Rattle.std.specs.Io.{ReadsAtMost};
ghost use Rattle.fits_stream.specs.Intake.{Skips};
ghost use Rattle.fits_stream.specs.Log.{met_end, NotesEnd};
ghost use Rattle.fits_stream.specs.Stream.{SourceState, FailsOnce, FailsToRead, Reads, IsDry};

use std::io;

/// What bytes come from. As std's `Read`, with a count of its failed calls.
pub trait Source {
    /// What it has left, and its failed calls.
    ghost state: { Self → SourceState };

    /// Fills a prefix of the buffer, and says how many bytes it has. 0 is the end.
    fn read(&mut self, buffer: &mut [u8]) -> io::Result<usize>
        ensures bound { ReadsAtMost result buffer.new }
        ensures ok { IfOk result (λ count. Reads (take count buffer.new)
            (state self.old) (state self.new)) }
        ensures ends { IfOk result (λ count. count ≡ 0 → 0 < length buffer.new
            → IsDry (state self.new)) }
        ensures noted { IfOk result (λ count. NotesEnd (met_end count (length buffer.new))
            (state self.old).log (state self.new).log) }
        ensures err { OnErr result (FailsToRead (state self.old) (state self.new)) };

    /// Goes past the next bytes, so many or as many as there are, and says how many. The buffer may
    /// be written over.
    fn skip(&mut self, buffer: &mut [u8], len: usize) -> io::Result<usize>
        requires { 0 < length buffer.old }
        ensures ok { IfOk result (Skips (state self.old) (state self.new)) }
        ensures within { IfOk result (λ count. count ≤ len) }
        ensures ends { IfOk result (λ count. count < len → IsDry (state self.new)) }
        ensures noted { IfOk result (λ count. NotesEnd (nat_lt count len)
            (state self.old).log (state self.new).log) }
        ensures size { length buffer.new ≡ length buffer.old }
        ensures err { OnErr result (FailsOnce (state self.old) (state self.new)) }
        ensures unended { OnErr result (NotesEnd false (state self.old).log (state self.new).log) };
}
