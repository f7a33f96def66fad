//! The run of `stat`: the statistics of each HDU of a file.
ghost use Rattle.std.specs.Prelude.{◌≡◌, ◌++◌, IfOk, IfErr, OnOk};
ghost use Rattle.fits_tell.specs.Stating.{stat_line, stat_lines, stats_text};
ghost use Rattle.fits_tell.specs.Telling.{TextIsTold, TextStopsBy};
ghost use Rattle.fits_tell.specs.declared.telling.Telling.{Telling};

use crate::fault::Fault;
use crate::pixel_lines::push_statistics;
use crate::printing::print;
use crate::pushing::push_number;
use fits_passing::{HduStats, Stats, read_statistics};
use fits_stream::{Sink, Source};
use std::alloc::{AllocError, Global};

/// Reads a file, and prints the statistics of each of its HDUs. No data unit is kept. The status is
/// 0.
pub(crate) fn statistics<F: Source, O: Sink>(
    alloc: Global,
    file: &mut F,
    out: &mut O,
) -> Result<u8, Fault>
    ensures ok { IfOk result (λ status. TextIsTold Telling.Statistics
        (F.state file.old) (F.state file.new) (O.state out.old) (O.state out.new) status) }
    ensures err { IfErr result (TextStopsBy Telling.Statistics (F.state file.old) (F.state file.new)
        (O.state out.old) (O.state out.new)) }
{
    let stats = read_statistics(alloc, file)?;
    let text = text_of(alloc, &stats)?;
    print(out, &text)?;
    Ok(0)
}

// A line for each HDU.
#[tactic(auto, using(crate::proofs::NumberedLemmas::numbered_steps))]
fn text_of(alloc: Global, stats: &[HduStats]) -> Result<Vec<u8>, AllocError>
    ensures { IfOk result (λ text. text.items ≡ stat_lines stats.now) }
{
    let mut text = Vec::new(alloc);
    for (i, it) in stats.iter().enumerate() {
        push_line(&mut text, i + 1, &it.stats)?;
    }
    Ok(text)
}

// `N defined D blank B min X max Y sum S`, or `N -` where it is no image of integers.
#[tactic(auto, unfolding(crate::specs::Stating::stat_line))]
fn push_line(text: &mut Vec<u8>, number: usize, stats: &Option<Stats>) -> Result<(), AllocError>
    ensures { OnOk result (text.new.items ≡ text.old.items ++ stat_line number stats.now) }
{
    push_number(text, b"", number as u64)?;
    text.extend_from_slice(b" ")?;
    push_stats(text, stats)
}

// Statistics, or a hyphen where there are none.
fn push_stats(text: &mut Vec<u8>, stats: &Option<Stats>) -> Result<(), AllocError>
    ensures { OnOk result (text.new.items ≡ text.old.items ++ stats_text stats.now) }
{
    match stats {
        Some(stats) => push_statistics(text, stats),
        None => text.extend_from_slice(b"-\n"),
    }
}
