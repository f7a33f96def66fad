//! What a line comes to, and what is printed of it.
ghost use Rattle.std.specs.Prelude.{◌≡◌, ◌++◌, not, IfOk, OnOk, IfErr};
ghost use Rattle.fits_stream.specs.Stream.{Prints};
ghost use Rattle.fits_tell.specs.Faults.{PrintFails};
ghost use Rattle.fits_cli.specs.Reply.{counts_as_refused, numbered_reply, reply_text, settled};

use crate::clues::Clues;
use crate::complaint::print_complaint;
use fits_extended::Unmet;
use fits_script::Misfit;
use fits_session::Refusal;
use fits_stream::Sink;
use fits_tell::{Fault, print, push_both, push_number};
use std::alloc::AllocError;

/// What a line comes to.
#[derive(Drop)]
pub(crate) enum Reply<'a> {
    /// Its command was done, and prints this text.
    Done(Vec<u8>),
    /// Its command was refused, and tells so much of why.
    Refused(Refusal, Clues),
    /// It is past the limit.
    TooLong,
    /// It says no command, and this is why.
    NoCommand(Misfit<'a>),
    /// It stands for no plain line, since what it wants isn't so.
    Unmet(Unmet),
}

/// What the outcome of a command with these clues is to its line: out of memory alone ends the run.
pub(crate) fn settled<'a>(
    clues: Clues,
    outcome: Result<Vec<u8>, Refusal>,
) -> Result<Reply<'a>, AllocError>
    ensures { result ≡ settled clues outcome }
{
    match outcome {
        Ok(text) => Ok(Reply::Done(text)),
        Err(Refusal::Memory) => Err(AllocError),
        Err(why) => Ok(Reply::Refused(why, clues)),
    }
}

/// Whether a line that comes to this was refused or bad.
pub(crate) fn counts_as_refused(reply: &Reply<'_>) -> bool
    ensures { result ≡ counts_as_refused reply.now }
{
    match reply {
        Reply::Done(_) => false,
        Reply::Refused(_, _) | Reply::TooLong | Reply::NoCommand(_) | Reply::Unmet(_) => true,
    }
}

/// Prints what a line comes to. It takes no memory.
pub(crate) fn print_reply<O: Sink>(out: &mut O, line: u64, reply: &Reply<'_>) -> Result<(), Fault>
    ensures ok { OnOk result (Prints (reply_text line reply.now)
        (O.state out.old) (O.state out.new)) }
    ensures err { IfErr result (PrintFails (reply_text line reply.now)
        (O.state out.old) (O.state out.new)) }
{
    match reply {
        Reply::Done(text) => print(out, text),
        Reply::Refused(why, _) => print_complaint(out, line, why.text()),
        Reply::TooLong => print_complaint(out, line, "too long"),
        Reply::NoCommand(_) => print_complaint(out, line, "not a command"),
        Reply::Unmet(why) => print_complaint(out, line, why.text()),
    }
}

/// Adds what a query of one of several HDUs comes to, if it was done: the number of the HDU before
/// its answer. Says whether it was.
pub(crate) fn push_numbered(
    text: &mut Vec<u8>,
    hdu: usize,
    reply: &Reply<'_>,
) -> Result<bool, AllocError>
    ensures text { OnOk result (text.new.items ≡ text.old.items ++ numbered_reply hdu reply.now) }
    ensures done { IfOk result (λ done. done ≡ not (counts_as_refused reply.now)) }
{
    match reply {
        Reply::Done(said) => {
            push_number(text, b"", hdu as u64)?;
            push_both(text, b" ", said)?;
            Ok(true)
        }
        Reply::Refused(_, _) | Reply::TooLong | Reply::NoCommand(_) | Reply::Unmet(_) => Ok(false),
    }
}
