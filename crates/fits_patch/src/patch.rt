//! The run of `diff -s`.
ghost use Rattle.std.specs.Prelude.{◌≡◌, IfOk, IfErr};
ghost use Rattle.fits_passing.specs.File.{IsFile};
ghost use Rattle.fits_passing.specs.Headers.{read_cards};
ghost use Rattle.fits_session.specs.Marked.{unmarked};
ghost use Rattle.fits_session.specs.Session.{file_of, marked_of};
ghost use Rattle.fits_patch.specs.Ends.{IsPatch, PatchEndsAs, PatchIsPrinted, PatchLacks, PatchStops, ReadsCards};
ghost use Rattle.fits_patch.specs.Steps.{SecondLacks};

use crate::headers::{are_cards, patch_text};
use crate::making::make_script;
use crate::patch_end::PatchEnd;
use crate::patch_fault::PatchFault;
use fits_card::CardList;
use fits_passing::{Headers, ReadFileFault, read_headers};
use fits_session::{Holder, Session};
use fits_stream::{ReadFault, Sink, Source};
use fits_tell::{one_if, print_at_once};
use std::alloc::Global;

/// Prints the script that makes the cards of a file that was opened those of another. Its lines are
/// edits of cards, by how they are matched; before any is printed each was made of the file in its
/// turn, and the cards were those of the other then.
///
/// The status is 0 where no line is wanted, 1 where some are, 2 where there is no script, or that of
/// the fault. Nothing is printed where there is no script. Data aren't looked at.
pub fn run_patch<H: Holder + Drop, B: Source, O: Sink>(
    alloc: Global,
    session: Session<H>,
    b: &mut B,
    out: &mut O,
) -> PatchEnd
    requires whole { IsFile (file_of session) }
    requires unmarked { marked_of session ≡ unmarked (file_of session) }
    ensures { PatchEndsAs (file_of session) (B.state b.old) (B.state b.new)
        (O.state out.old) (O.state out.new) result }
{
    let mut session = session;
    match print_patch(alloc, &mut session, b, out) {
        Ok(status) => PatchEnd {
            status,
            fault: None,
        },
        Err(why) => PatchEnd {
            status: why.status(),
            fault: Some(why),
        },
    }
}

// The run as a result: its status, or the fault that ended it.
fn print_patch<H: Holder + Drop, B: Source, O: Sink>(
    alloc: Global,
    session: &mut Session<H>,
    b: &mut B,
    out: &mut O,
) -> Result<u8, PatchFault>
    requires whole { IsFile (file_of session.old) }
    requires unmarked { marked_of session.old ≡ unmarked (file_of session.old) }
    ensures ok { IfOk result (PatchIsPrinted (file_of session.old) (B.state b.old) (B.state b.new)
        (O.state out.old) (O.state out.new)) }
    ensures err { IfErr result (PatchStops (file_of session.old) (B.state b.old) (B.state b.new)
        (O.state out.old) (O.state out.new)) }
{
    let text = match patch(alloc, session, b) {
        Ok(text) => text,
        Err(why) => return Err(why),
    };
    match print_at_once(out, &text) {
        Ok(()) => Ok(one_if(!text.is_empty())),
        Err(_) => Err(PatchFault::WriteFailed),
    }
}

// The script, which makes the cards of a file those of another.
fn patch<H: Holder + Drop, B: Source>(
    alloc: Global,
    session: &mut Session<H>,
    b: &mut B,
) -> Result<Vec<u8>, PatchFault>
    requires whole { IsFile (file_of session.old) }
    requires unmarked { marked_of session.old ≡ unmarked (file_of session.old) }
    ensures ok { IfOk result (λ text. IsPatch (file_of session.old)
        (B.state b.old) (B.state b.new) text.items) }
    ensures err { IfErr result (PatchLacks (file_of session.old) (B.state b.old) (B.state b.new)) }
{
    let mut headers = match headers_of(alloc, b) {
        Ok(headers) => headers,
        Err(why) => return Err(why),
    };
    if session.hdus() != headers.len() {
        return Err(PatchFault::OtherCount);
    }
    let text = patch_text(alloc, session, &mut headers)?;
    match make_script(alloc, session, &text) {
        Ok(()) => {}
        Err(why) => return Err(why),
    }
    if !are_cards(alloc, session, &mut headers)? {
        return Err(PatchFault::Unlike);
    }
    Ok(text)
}

// The headers of the second file.
fn headers_of<B: Source>(alloc: Global, b: &mut B) -> Result<Vec<CardList>, PatchFault>
    ensures ok { IfOk result (λ headers. ReadsCards (B.state b.old) (B.state b.new)
        (read_cards headers.items)) }
    ensures err { IfErr result (SecondLacks (B.state b.old) (B.state b.new)) }
{
    let Headers { headers, fault } = match read_headers(alloc, b) {
        Ok(headers) => headers,
        Err(ReadFault::Memory) => return Err(PatchFault::Memory),
        Err(ReadFault::Failed) => return Err(PatchFault::Second(ReadFileFault::Failed)),
    };
    match fault {
        Some(why) => Err(PatchFault::Second(ReadFileFault::Open(why))),
        None => Ok(headers),
    }
}
