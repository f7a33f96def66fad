//! What is said of wrong sums before a run that keeps right ones right: it doesn't touch them.
ghost use Rattle.std.specs.Prelude.{◌≡◌, ◌++◌, IfOk, IfErr, OnOk};
ghost use Rattle.fits_tell.specs.Telling.{TextIsTold, TextStopsBy};
ghost use Rattle.fits_tell.specs.Untouched.{untouched_by, untouched_line, untouched_lines};

use crate::fault::Fault;
use crate::printing::print;
use crate::pushing::push_number;
use crate::summing::is_wrong;
use crate::telling::Telling;
use fits_passing::{HduSums, Verdict, Verdicts, read_sums};
use fits_stream::{Sink, Source};
use std::alloc::{AllocError, Global};

/// Reads a file, and prints a line for each card of a sum that is wrong. The status is 0.
pub(crate) fn untouched_sums<F: Source, O: Sink>(
    alloc: Global,
    file: &mut F,
    out: &mut O,
) -> Result<u8, Fault>
    ensures ok { IfOk result (λ status. TextIsTold Telling.Untouched
        (F.state file.old) (F.state file.new) (O.state out.old) (O.state out.new) status) }
    ensures err { IfErr result (TextStopsBy Telling.Untouched (F.state file.old) (F.state file.new)
        (O.state out.old) (O.state out.new)) }
{
    let sums = read_sums(alloc, file)?;
    let text = untouched_text(alloc, &sums)?;
    print(out, &text)?;
    Ok(0)
}

// The lines of all HDUs.
#[tactic(auto, using(crate::proofs::NumberedLemmas::numbered_steps))]
fn untouched_text(alloc: Global, sums: &[HduSums]) -> Result<Vec<u8>, AllocError>
    ensures { IfOk result (λ text. text.items ≡ untouched_by sums.now) }
{
    let mut text = Vec::new(alloc);
    for (i, it) in sums.iter().enumerate() {
        push_hdu(&mut text, i + 1, it.verdicts)?;
    }
    Ok(text)
}

// Those of an HDU.
fn push_hdu(text: &mut Vec<u8>, number: usize, verdicts: Verdicts) -> Result<(), AllocError>
    ensures { OnOk result (text.new.items ≡ text.old.items ++ untouched_lines number verdicts) }
{
    push_card(text, number, b"DATASUM", verdicts.datasum)?;
    push_card(text, number, b"CHECKSUM", verdicts.checksum)
}

// The line on a card, where its sum is wrong.
fn push_card(
    text: &mut Vec<u8>,
    number: usize,
    name: &[u8],
    verdict: Verdict,
) -> Result<(), AllocError>
    ensures { OnOk result (text.new.items
        ≡ text.old.items ++ untouched_line number name.now verdict) }
{
    if is_wrong(verdict) {
        push_number(text, b"hdu ", number as u64)?;
        text.extend_from_slice(b": ")?;
        text.extend_from_slice(name)?;
        text.extend_from_slice(b" was wrong before, and isn't touched\n")?;
    }
    Ok(())
}
