//! Lines that say why a line of a script wasn't done. Printing them takes no memory.
ghost use Rattle.std.specs.Prelude.{OnOk, IfErr};
ghost use Rattle.std.specs.Fmt.{decimal};
ghost use Rattle.fits_stream.specs.Stream.{Prints};
ghost use Rattle.fits_cli.specs.Answer.{complaint};
ghost use Rattle.fits_tell.specs.Faults.{PrintFails};

use fits_stream::Sink;
use fits_tell::{Fault, print};
use itoa::Buffer;

/// `line N: WHY`
#[tactic(auto, using(fits_stream::proofs::StreamLemmas::printing_steps))]
pub(crate) fn print_complaint<O: Sink>(out: &mut O, line: u64, why: &str) -> Result<(), Fault>
    ensures ok { OnOk result (Prints (complaint line why.now) (O.state out.old) (O.state out.new)) }
    ensures err { IfErr result (PrintFails (complaint line why.now)
        (O.state out.old) (O.state out.new)) }
{
    print(out, b"line ")?;
    print_number(out, line)?;
    print(out, b": ")?;
    print(out, why.as_bytes())?;
    print(out, b"\n")
}

// A number in decimal digits.
fn print_number<O: Sink>(out: &mut O, number: u64) -> Result<(), Fault>
    ensures ok { OnOk result (Prints (decimal number) (O.state out.old) (O.state out.new)) }
    ensures err { IfErr result (PrintFails (decimal number) (O.state out.old) (O.state out.new)) }
{
    let mut digits = Buffer::new();
    print(out, digits.format(number).as_bytes())
}
