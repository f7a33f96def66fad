//! Remarks on the lines of a script that weren't done: which, and how they are said.
ghost use Rattle.std.specs.Prelude.{◌≡◌, OnErr, OnOk};
ghost use Rattle.std.specs.Option.{option_map};
ghost use Rattle.fits_stream.specs.Stream.{Prints, PrintsFront};
ghost use Rattle.fits_cli.specs.Answer.{complaint};
ghost use Rattle.fits_cli.specs.Remark.{plain_text, reason_text, refused_text, remark_by, remark_line, unmet_remark, unmet_words, words_of, IsSaid, Remarks};

use crate::reason::Reason;
use crate::reasons::reason_of;
use crate::reply::{Reply, counts_as_refused};
use fits_extended::Unmet;
use fits_script::{write_misfit, write_unwritable};
use fits_session::Refusal;
use fits_stream::{Sink, Watched, write_all};
use itoa::Buffer;
use std::io;

/// No sink of remarks: none are wanted.
pub(crate) type Silence = Option<Watched<io::Sink>>;

/// Says what is to be said of line `number`, which came to this, and passes it on, where somebody
/// hears it. Where that fails the remark is lost, and nothing else: there is nobody left to tell.
pub(crate) fn say<E: Sink>(told: &mut Option<E>, number: u64, line: &[u8], reply: &Reply<'_>)
    ensures { Remarks (remark_line number (remark_by line.now reply.now))
        (option_map E.state told.old) (option_map E.state told.new) }
{
    match told {
        Some(sink) => say_if(sink, number, line, reply),
        None => {}
    }
}

// The same to who hears it.
fn say_if<E: Sink>(sink: &mut E, number: u64, line: &[u8], reply: &Reply<'_>)
    ensures { IsSaid (remark_line number (remark_by line.now reply.now))
        (E.state sink.old) (E.state sink.new) }
{
    if counts_as_refused(reply) {
        say_to(sink, number, line, reply);
    }
}

// Says a remark, and passes it on.
fn say_to<E: Sink>(sink: &mut E, number: u64, line: &[u8], reply: &Reply<'_>)
    ensures { IsSaid (complaint number (words_of (remark_by line.now reply.now)))
        (E.state sink.old) (E.state sink.new) }
{
    let _ = write_line(sink, number, line, reply);
    let _ = sink.flush();
}

// `line N: WHY`
#[tactic(auto, using(fits_stream::proofs::StreamLemmas::printing_steps))]
fn write_line<E: Sink>(sink: &mut E, number: u64, line: &[u8], reply: &Reply<'_>) -> io::Result<()>
    ensures ok { OnOk result (Prints (complaint number (words_of (remark_by line.now reply.now)))
        (E.state sink.old) (E.state sink.new)) }
    ensures err { OnErr result
        (PrintsFront (complaint number (words_of (remark_by line.now reply.now)))
        (E.state sink.old) (E.state sink.new)) }
{
    let mut digits = Buffer::new();
    write_all(sink, b"line ")?;
    write_all(sink, digits.format(number).as_bytes())?;
    write_all(sink, b": ")?;
    write_remark(sink, line, reply)?;
    write_all(sink, b"\n")
}

// Writes what is said of a line that came to this.
#[tactic(auto, unfolding(crate::specs::Remark::remark_by))]
fn write_remark<E: Sink>(sink: &mut E, line: &[u8], reply: &Reply<'_>) -> io::Result<()>
    ensures ok { OnOk result (Prints (words_of (remark_by line.now reply.now))
        (E.state sink.old) (E.state sink.new)) }
    ensures err { OnErr result (PrintsFront (words_of (remark_by line.now reply.now))
        (E.state sink.old) (E.state sink.new)) }
{
    match reply {
        Reply::Done(_) => Ok(()),
        Reply::Refused(why, clues) => write_refused(sink, *why, reason_of(line, *clues, *why)),
        Reply::TooLong => write_all(sink, b"a line has at most 100000 bytes"),
        Reply::NoCommand(misfit) => write_misfit(sink, misfit),
        Reply::Unmet(why) => write_unmet(sink, *why),
    }
}

// Writes why a line stands for no plain line.
#[tactic(auto, using(fits_stream::proofs::StreamLemmas::printing_steps))]
fn write_unmet<E: Sink>(sink: &mut E, why: Unmet) -> io::Result<()>
    ensures ok { OnOk result (Prints (unmet_remark why) (E.state sink.old) (E.state sink.new)) }
    ensures err { OnErr result
        (PrintsFront (unmet_remark why) (E.state sink.old) (E.state sink.new)) }
{
    write_all(sink, why.text().as_bytes())?;
    write_all(sink, b": ")?;
    write_words(sink, why)
}

// Writes the same in words.
fn write_words<E: Sink>(sink: &mut E, why: Unmet) -> io::Result<()>
    ensures ok { OnOk result (Prints (unmet_words why) (E.state sink.old) (E.state sink.new)) }
    ensures err { OnErr result
        (PrintsFront (unmet_words why) (E.state sink.old) (E.state sink.new)) }
{
    write_all(sink, unmet_words(why).as_bytes())
}

// What that is in words.
fn unmet_words(why: Unmet) -> &'static str
    ensures { result.now ≡ unmet_words why }
{
    match why {
        Unmet::Exists => "a keyword of the new name has a value",
        Unmet::Other => "the file isn't as the line wants it",
    }
}

// Writes a refusal, and what it comes from.
#[tactic(auto, using(fits_stream::proofs::StreamLemmas::printing_steps))]
fn write_refused<E: Sink>(sink: &mut E, why: Refusal, reason: Reason) -> io::Result<()>
    ensures ok { OnOk result (Prints (refused_text why reason)
        (E.state sink.old) (E.state sink.new)) }
    ensures err { OnErr result (PrintsFront (refused_text why reason)
        (E.state sink.old) (E.state sink.new)) }
{
    write_all(sink, why.text().as_bytes())?;
    write_all(sink, b": ")?;
    write_reason(sink, why, reason)
}

// Writes what a refusal comes from.
fn write_reason<E: Sink>(sink: &mut E, why: Refusal, reason: Reason) -> io::Result<()>
    ensures ok { OnOk result (Prints (reason_text why reason)
        (E.state sink.old) (E.state sink.new)) }
    ensures err { OnErr result (PrintsFront (reason_text why reason)
        (E.state sink.old) (E.state sink.new)) }
{
    match reason {
        Reason::CarriageReturn => write_all(sink, b"a carriage return at the end"),
        Reason::SmallLetters => write_all(sink, b"keyword names have capital letters"),
        Reason::Unwritten(why) => write_unwritable(sink, &why),
        Reason::Plain => write_all(sink, plain_text(why).as_bytes()),
    }
}

// What a refusal says in words.
fn plain_text(why: Refusal) -> &'static str
    ensures { result.now ≡ plain_text why }
{
    match why {
        Refusal::NoHdu => "the number of the HDU is 0 or too great",
        Refusal::NoCard => "a place is 0 or too great",
        Refusal::NoKey => "no card of this name has a value",
        Refusal::BadText => "a byte of the card is no character of text",
        Refusal::EndCard => "the card is named END",
        Refusal::Shape => "the cards wouldn't describe the data",
        Refusal::BadName => "not the name of a keyword with a value",
        Refusal::BadValue => "its card can't be read",
        Refusal::NotImage => "the HDU is no image of integers",
        Refusal::BadRect => "the rectangle isn't lo:hi in each axis",
        Refusal::WrongCount => "more or fewer values than pixels",
        Refusal::Range => "a value that no pixel of this kind can have",
        Refusal::PrimaryStays => "the primary HDU stays where it is",
        Refusal::TooLarge => "the file would pass a limit",
        Refusal::Memory => "out of memory",
    }
}
