//! The run of `keys`: a line of values of keywords of a file.
ghost use Rattle.std.specs.Prelude.{◌≡◌, ◌++◌, IfOk, IfErr, OnOk};
ghost use Rattle.fits_passing.specs.Headers.{read_cards};
ghost use Rattle.fits_keys.specs.Keys.{cards_asked, fields_line, fields_of, KeysArePrinted, KeysEndAs, KeysStop};

use crate::fields::{push_empty, push_fields};
use crate::key_choice::KeyChoice;
use fits_card::CardList;
use fits_passing::{Headers, read_headers};
use fits_stream::{Sink, Source};
use fits_tell::{End, Fault, number_asked, print_at_once};
use std::alloc::{AllocError, Global};

/// Reads the headers of a file, and prints the fields of the keywords that are asked for, each after a
/// tab: the value of the first card of that name that has one, by its characters alone (FITS Standard
/// 4.0, section 4.1.2). A field is empty where there is no such card, its value doesn't read or is
/// undefined, or the file has no such HDU.
///
/// The status is 0, or that of the fault. Of a file that doesn't open nothing is printed.
pub fn run_keys<F: Source, O: Sink>(
    alloc: Global,
    choice: &KeyChoice,
    file: &mut F,
    out: &mut O,
) -> End
    ensures { KeysEndAs choice.now (F.state file.old) (F.state file.new)
        (O.state out.old) (O.state out.new) result }
{
    match print_keys(alloc, choice, file, out) {
        Ok(end) => end,
        Err(fault) => End::from(fault),
    }
}

// The run as a result: how it ended, or the fault that kept it from its end.
fn print_keys<F: Source, O: Sink>(
    alloc: Global,
    choice: &KeyChoice,
    file: &mut F,
    out: &mut O,
) -> Result<End, Fault>
    ensures ok { IfOk result (λ end. KeysArePrinted choice.now (F.state file.old) (F.state file.new)
        (O.state out.old) (O.state out.new) end) }
    ensures whole { IfOk result (λ end. end.fault ≡ None) }
    ensures err { IfErr result (KeysStop choice.now (F.state file.old) (F.state file.new)
        (O.state out.old) (O.state out.new)) }
{
    let Headers { mut headers, fault } = match read_headers(alloc, file) {
        Ok(headers) => headers,
        Err(why) => return Err(Fault::from(why)),
    };
    match fault {
        Some(why) => return Err(Fault::Refused(why)),
        None => {}
    }
    let line = line_of(alloc, choice, &mut headers)?;
    print_at_once(out, &line)?;
    Ok(End {
        status: 0,
        fault: None,
    })
}

// The line of a file of these headers, but for its name.
fn line_of(
    alloc: Global,
    choice: &KeyChoice,
    headers: &mut Vec<CardList>,
) -> Result<Vec<u8>, AllocError>
    ensures { IfOk result (λ line. line.items
        ≡ fields_line choice.now (read_cards headers.old.items)) }
{
    let mut line = Vec::new(alloc);
    push_header(alloc, &mut line, choice, headers)?;
    line.push(b'\n')?;
    Ok(line)
}

// Adds the fields of the header that is asked for; they are empty where it isn't there.
#[tactic(auto, using(crate::proofs::FieldLemmas::cards_past, crate::proofs::FieldLemmas::cards_there))]
fn push_header(
    alloc: Global,
    line: &mut Vec<u8>,
    choice: &KeyChoice,
    headers: &mut Vec<CardList>,
) -> Result<(), AllocError>
    ensures { OnOk result (line.new.items ≡ line.old.items
        ++ fields_of (cards_asked choice.now (read_cards headers.old.items)) choice.now.names.items) }
{
    let number = number_asked(alloc, &choice.hdu, headers)?;
    if number == 0 {
        return push_empty(line, &choice.names);
    }
    if number > headers.len() as u64 {
        return push_empty(line, &choice.names);
    }
    push_fields(
        alloc,
        line,
        &mut headers[number as usize - 1],
        &choice.names,
    )
}
