//! Writing and flushing, where a call that fails ends the run.
ghost use Rattle.std.specs.Prelude.{◌≡◌, OnOk, IfErr};
ghost use Rattle.fits_stream.specs.Stream.{Flushes, Prints};
ghost use Rattle.fits_tell.specs.Faults.{FlushFails, PrintFails};

use crate::fault::Fault;
use fits_stream::{Sink, write_all};

/// Writes a text.
pub fn print<O: Sink>(out: &mut O, text: &[u8]) -> Result<(), Fault>
    ensures ok { OnOk result (Prints text.now (O.state out.old) (O.state out.new)) }
    ensures err { IfErr result (PrintFails text.now (O.state out.old) (O.state out.new)) }
{
    match write_all(out, text) {
        Ok(()) => Ok(()),
        Err(_) => Err(Fault::WriteFailed),
    }
}

/// Passes on what was written.
pub fn flush<O: Sink>(out: &mut O) -> Result<(), Fault>
    ensures ok { OnOk result (Flushes (O.state out.old) (O.state out.new)) }
    ensures err { IfErr result (FlushFails (O.state out.old) (O.state out.new)) }
{
    match out.flush() {
        Ok(()) => Ok(()),
        Err(_) => Err(Fault::WriteFailed),
    }
}

/// Writes a text, and passes it on.
#[tactic(auto, using(fits_stream::proofs::StreamLemmas::flush_steps))]
pub fn print_at_once<O: Sink>(out: &mut O, text: &[u8]) -> Result<(), Fault>
    ensures ok { OnOk result (Prints text.now (O.state out.old) (O.state out.new)) }
    ensures flushed { OnOk result ((O.state out.new).unflushed ≡ 0) }
    ensures err { IfErr result (PrintFails text.now (O.state out.old) (O.state out.new)) }
{
    print(out, text)?;
    flush(out)
}
