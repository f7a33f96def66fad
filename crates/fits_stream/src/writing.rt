//! Writing all of a piece.
ghost use Rattle.std.specs.Prelude.{OnOk, OnErr};
ghost use Rattle.fits_stream.specs.Stream.{Prints, PrintsFront};

use crate::sink::Sink;
use std::io;
use std::io::ErrorKind;

/// Writes all the bytes, in as many calls as it takes. No failed call is tried again.
#[tactic(auto, using(crate::proofs::StreamLemmas::writing_steps))]
pub fn write_all<W: Sink>(sink: &mut W, bytes: &[u8]) -> io::Result<()>
    ensures ok { OnOk result (Prints bytes.now (W.state sink.old) (W.state sink.new)) }
    ensures err { OnErr result (PrintsFront bytes.now (W.state sink.old) (W.state sink.new)) }
{
    let mut at = 0;
    while at < bytes.len() {
        let n = sink.write(&bytes[at..])?;
        if n == 0 {
            return Err(io::Error::from(ErrorKind::WriteZero));
        }
        at += n;
    }
    Ok(())
}
