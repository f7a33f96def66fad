//! The run of `list`: a line for each HDU of a file.
ghost use Rattle.std.specs.Prelude.{◌≡◌, ◌++◌, ◌≤◌, ◌+◌, IfOk, IfErr, OnOk};
ghost use Rattle.fits_stream.specs.Stream.{Prints};
ghost use Rattle.fits_passing.specs.declared.limits.TheConstants.{FILE_LIMIT};
ghost use Rattle.fits_tell.specs.Listing.{axes_text, class_text, hdu_line, line_back, line_front, more_axes_text, outlined_len, outlined_line, plain_line};
ghost use Rattle.fits_tell.specs.Placed.{placed_len, placed_lines};
ghost use Rattle.fits_tell.specs.Telling.{PrintingStops, TextEndsAs, TextIsTold, TextStopsBy};

use crate::end::End;
use crate::fault::Fault;
use crate::printing::print;
use crate::pushing::{push_both, push_number, push_offsets, push_signed};
use crate::telling::{Telling, run_telling};
use fits_passing::{HduOffsets, Outline, read_outlines};
use fits_rules::{Class, Shape};
use fits_stream::{Sink, Source};
use std::alloc::{AllocError, Global};

/// Reads a file, and prints a line for each of its HDUs. No data unit is kept.
pub fn run_list<F: Source, O: Sink>(alloc: Global, file: &mut F, out: &mut O) -> End
    ensures { TextEndsAs Telling.List (F.state file.old) (F.state file.new)
        (O.state out.old) (O.state out.new) result }
{
    run_telling(alloc, Telling::List, file, out)
}

/// Reads a file, and prints a line for each of its HDUs. The status is 0.
pub(crate) fn list<F: Source, O: Sink>(
    alloc: Global,
    file: &mut F,
    out: &mut O,
) -> Result<u8, Fault>
    ensures ok { IfOk result (λ status. TextIsTold Telling.List
        (F.state file.old) (F.state file.new) (O.state out.old) (O.state out.new) status) }
    ensures err { IfErr result (TextStopsBy Telling.List (F.state file.old) (F.state file.new)
        (O.state out.old) (O.state out.new)) }
{
    let outlines = read_outlines(alloc, file)?;
    print_outlines(alloc, &outlines, out)?;
    Ok(0)
}

// Prints a line for each outline, of HDUs that stand one after another.
fn print_outlines<O: Sink>(alloc: Global, outlines: &[Outline], out: &mut O) -> Result<(), Fault>
    requires { placed_len outlined_len outlines.now ≤ FILE_LIMIT }
    ensures ok { OnOk result (Prints (placed_lines plain_line outlined_len 1 0 outlines.now)
        (O.state out.old) (O.state out.new)) }
    ensures err { IfErr result (PrintingStops (placed_lines plain_line outlined_len 1 0 outlines.now)
        (O.state out.old) (O.state out.new)) }
{
    let mut line = Vec::new(alloc);
    let mut start = 0u64;
    for (i, it) in outlines.iter().enumerate() {
        start = print_line(i + 1, start, it, b"", &mut line, out)?;
    }
    Ok(())
}

/// Prints the line of an HDU that begins here, by its outline and with these words, and says where
/// the HDU ends. `line` is room for it.
pub(crate) fn print_line<O: Sink>(
    number: usize,
    start: u64,
    it: &Outline,
    words: &[u8],
    line: &mut Vec<u8>,
    out: &mut O,
) -> Result<u64, Fault>
    requires { start + outlined_len it.now ≤ FILE_LIMIT }
    ensures ok { OnOk result (Prints (outlined_line words.now number start it.now)
        (O.state out.old) (O.state out.new)) }
    ensures end { IfOk result (λ end. end ≡ start + outlined_len it.now) }
    ensures err { IfErr result (PrintingStops (outlined_line words.now number start it.now)
        (O.state out.old) (O.state out.new)) }
{
    let data_start = start + it.header_len as u64;
    let at = HduOffsets {
        header_start: start,
        data_start,
        hdu_end: data_start + it.data_len as u64,
    };
    line.clear();
    push_line(line, number, it.card_count, words, at, &it.shape)?;
    print(out, line.as_slice())?;
    Ok(at.hdu_end)
}

// `hdu N CLASS bitpix B axes A cards C at HEADER DATA END`, with these words before ` at`
#[tactic(auto, using(crate::proofs::ListingLemmas::whole_steps))]
fn push_line(
    line: &mut Vec<u8>,
    number: usize,
    cards: usize,
    words: &[u8],
    at: HduOffsets,
    shape: &Shape,
) -> Result<(), AllocError>
    ensures { OnOk result (line.new.items
        ≡ line.old.items ++ hdu_line number cards words.now at shape.now) }
{
    push_front(line, number, shape.class, shape.bitpix)?;
    push_axes(line, shape.axes.as_slice())?;
    push_back(line, cards, words, at)
}

// `hdu N CLASS bitpix B axes `
fn push_front(
    line: &mut Vec<u8>,
    number: usize,
    class: Class,
    bitpix: i64,
) -> Result<(), AllocError>
    ensures { OnOk result (line.new.items ≡ line.old.items ++ line_front number class bitpix) }
{
    push_number(line, b"hdu ", number as u64)?;
    push_both(line, b" ", class_text(class).as_bytes())?;
    push_signed(line, b" bitpix ", bitpix as i128)?;
    line.extend_from_slice(b" axes ")
}

// ` cards C at HEADER DATA END`, with these words before ` at`
fn push_back(
    line: &mut Vec<u8>,
    cards: usize,
    words: &[u8],
    at: HduOffsets,
) -> Result<(), AllocError>
    ensures { OnOk result (line.new.items ≡ line.old.items ++ line_back cards words.now at) }
{
    push_number(line, b" cards ", cards as u64)?;
    push_both(line, words, b" at ")?;
    push_offsets(line, at)?;
    line.extend_from_slice(b"\n")
}

// Axes, separated by x, or - for none.
fn push_axes(line: &mut Vec<u8>, axes: &[u64]) -> Result<(), AllocError>
    ensures { OnOk result (line.new.items ≡ line.old.items ++ axes_text axes.now) }
{
    match axes {
        [] => {
            line.push(b'-')?;
            Ok(())
        }
        [first, more @ ..] => {
            push_number(line, b"", *first)?;
            push_more_axes(line, more)
        }
    }
}

// Further axes, each after an x.
fn push_more_axes(line: &mut Vec<u8>, axes: &[u64]) -> Result<(), AllocError>
    ensures { OnOk result (line.new.items ≡ line.old.items ++ more_axes_text axes.now) }
{
    for axis in axes {
        push_number(line, b"x", *axis)?;
    }
    Ok(())
}

fn class_text(class: Class) -> &'static str
    ensures { result.now ≡ class_text class }
{
    match class {
        Class::Primary => "PRIMARY",
        Class::Groups => "GROUPS",
        Class::Image => "IMAGE",
        Class::Table => "TABLE",
        Class::Other => "OTHER",
    }
}
