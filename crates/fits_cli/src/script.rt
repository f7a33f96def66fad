//! A script, answered line by line as it comes.
ghost use Rattle.std.specs.Prelude.{◌≡◌, ◌<◌, ◌≤◌, ◌+◌, ◌^◌, ◌++◌, ◌==◌, ◌||◌, ℕ, List, true, nat_lt, [], ◌∷◌, IfNone, IfSome, length, take, IfErr, IfOk, OnErr, OnOk};
ghost use Rattle.std.specs.Prelude.{vec_capacity, vec_len};
ghost use Rattle.std.specs.Option.{option_map};
ghost use Rattle.std.specs.Io.{ReadsAtMost};
ghost use Rattle.fits_stream.specs.Stream.{FailsToRead, IsDry, Prints, Reads};
ghost use Rattle.fits_script.specs.Line.{reading_of};
ghost use Rattle.fits_cli.specs.Faults.{FaultCounts, IsOnce, ScriptCounts};
ghost use Rattle.fits_tell.specs.Faults.{PrintFails};
ghost use Rattle.fits_cli.specs.Frame.{IsUnanswered, LinesLeave, PrintsSome, ScriptAnswers, ScriptLeaves};
ghost use Rattle.fits_cli.specs.Reply.{reply_text};
ghost use Rattle.fits_unit.specs.Again.{Follows};
ghost use Rattle.fits_cli.specs.Answer.{done_last, each_answer, each_left, first_line, in_turn, of_each, of_none, plain_answer, plain_left, AtOne};
ghost use Rattle.fits_extended.specs.Stands.{lines_in};
ghost use Rattle.fits_cli.specs.Remark.{each_remark, plain_remark, remark_by, remark_line};
ghost use Rattle.fits_cli.specs.Running.{heard, kept_of, standing_at, AnswersLine, AnswersMeant, AnswersPlain, AnswersScript, Continues, IsToldBy, LacksEach, LacksOne};
ghost use Rattle.fits_cli.specs.Running.{EndsScript, EndStops, LineStops, MeantStops, PieceStops, PlainStops, ScriptStops};

use crate::limits::SCRIPT_LIMIT;
use crate::remarking::say;
use crate::reply::{Reply, counts_as_refused, print_reply, push_numbered};
use crate::runner::Runner;
use fits_extended::{Stands, Unmet};
use fits_script::{LINE_LIMIT, split_far};
use fits_session::Holder;
use fits_stream::{PIECE_LEN, Sink, Source, buffer_of};
use fits_tell::{Fault, flush};
use std::alloc::Global;
use std::io;

/// How many bytes of a line are kept until it ends. More aren't needed: it is too long.
const LINE_ROOM: usize = LINE_LIMIT + 1;

// Answers one line, whatever it stands for.
fn answer_line<H: Holder + Drop, O: Sink, E: Sink>(
    alloc: Global,
    runner: &mut Runner<H>,
    line: &[u8],
    out: &mut O,
    told: &mut Option<E>,
) -> Result<(), Fault>
    requires { runner.old.line + 1 < 2 ^ 64 }
    ensures ok { (bytes : List ℕ) → IsToldBy H.whole bytes runner.new.log → OnOk result (AnswersLine line.now (standing_at bytes runner.old) (standing_at bytes runner.new)
        (heard (O.state out.old) (option_map E.state told.old))
        (heard (O.state out.new) (option_map E.state told.new))) }
    ensures err { (bytes : List ℕ) → IsToldBy H.whole bytes runner.new.log → IfErr result (LineStops line.now (standing_at bytes runner.old)
        (heard (O.state out.old) (option_map E.state told.old))
        (heard (O.state out.new) (option_map E.state told.new))) }
    ensures quiet { OnOk result (runner.new.log.failures ≡ runner.old.log.failures) }
    ensures counted { IfErr result (FaultCounts runner.old.log.failures runner.new.log.failures) }
    ensures said { OnOk result (PrintsSome (O.state out.old) (O.state out.new)) }
    ensures leaves { IfErr result (LinesLeave (O.state out.old) (O.state out.new)) }
    ensures once { H.whole ≡ true → IfErr result IsOnce }
    ensures follows { Follows runner.old.log runner.new.log }
    ensures look { runner.new.look ≡ runner.old.look }
    ensures line { OnOk result (runner.new.line ≡ runner.old.line + 1) }
{
    if let Some(queries) = runner.queries(alloc, line)? {
        return answer_each(alloc, runner, &queries, out, told);
    }
    match runner.stands_for(alloc, line)? {
        Stands::Itself => answer_plain(alloc, runner, line, out, told),
        Stands::Line(plain) => answer_plain(alloc, runner, &plain, out, told),
        Stands::Lines(plains) => answer_plains(alloc, runner, &plains, out, told),
        Stands::Unmet(why) => answer_unmet(runner, why, line, out, told),
    }
}

// Answers a line that stands for no plain line.
fn answer_unmet<H: Holder + Drop, O: Sink, E: Sink>(
    runner: &mut Runner<H>,
    why: Unmet,
    line: &[u8],
    out: &mut O,
    told: &mut Option<E>,
) -> Result<(), Fault>
    requires { runner.old.line + 1 < 2 ^ 64 }
    ensures ok { (bytes : List ℕ) → OnOk result (AnswersMeant (of_none why)
        (standing_at bytes runner.old) (standing_at bytes runner.new)
        (heard (O.state out.old) (option_map E.state told.old))
        (heard (O.state out.new) (option_map E.state told.new))) }
    ensures err { (bytes : List ℕ) → IfErr result (MeantStops (of_none why) (standing_at bytes runner.old)
        (heard (O.state out.old) (option_map E.state told.old))
        (heard (O.state out.new) (option_map E.state told.new))) }
    ensures said { OnOk result (PrintsSome (O.state out.old) (O.state out.new)) }
    ensures leaves { IfErr result (LinesLeave (O.state out.old) (O.state out.new)) }
    ensures once { IfErr result IsOnce }
    ensures counted { IfErr result (FaultCounts runner.old.log.failures runner.new.log.failures) }
    ensures log { runner.new.log ≡ runner.old.log }
    ensures look { runner.new.look ≡ runner.old.look }
    ensures line { runner.new.line ≡ runner.old.line + 1 }
{
    let number = runner.line();
    let reply = runner.refuse(why);
    print_answer(out, number, &reply, told.is_some())?;
    say(told, number, line, &reply);
    Ok(())
}

// Answers one plain line.
fn answer_plain<H: Holder + Drop, O: Sink, E: Sink>(
    alloc: Global,
    runner: &mut Runner<H>,
    line: &[u8],
    out: &mut O,
    told: &mut Option<E>,
) -> Result<(), Fault>
    requires { runner.old.line + 1 < 2 ^ 64 }
    ensures ok { (bytes : List ℕ) → IsToldBy H.whole bytes runner.new.log → OnOk result (AnswersPlain line.now (standing_at bytes runner.old) (standing_at bytes runner.new)
        (heard (O.state out.old) (option_map E.state told.old))
        (heard (O.state out.new) (option_map E.state told.new))) }
    ensures err { (bytes : List ℕ) → IsToldBy H.whole bytes runner.new.log → IfErr result (PlainStops line.now (standing_at bytes runner.old)
        (heard (O.state out.old) (option_map E.state told.old))
        (heard (O.state out.new) (option_map E.state told.new))) }
    ensures quiet { OnOk result (runner.new.log.failures ≡ runner.old.log.failures) }
    ensures counted { IfErr result (FaultCounts runner.old.log.failures runner.new.log.failures) }
    ensures said { OnOk result (PrintsSome (O.state out.old) (O.state out.new)) }
    ensures leaves { IfErr result (LinesLeave (O.state out.old) (O.state out.new)) }
    ensures once { H.whole ≡ true → IfErr result IsOnce }
    ensures follows { Follows runner.old.log runner.new.log }
    ensures look { runner.new.look ≡ runner.old.look }
    ensures line { OnOk result (runner.new.line ≡ runner.old.line + 1) }
{
    let number = runner.line();
    let wanted = told.is_some();
    let reply = runner.reply(alloc, wanted, line)?;
    print_answer(out, number, &reply, wanted && counts_as_refused(&reply))?;
    say(told, number, line, &reply);
    Ok(())
}

// Answers plain lines that one line stands for.
fn answer_plains<H: Holder + Drop, O: Sink, E: Sink>(
    alloc: Global,
    runner: &mut Runner<H>,
    plains: &[Vec<u8>],
    out: &mut O,
    told: &mut Option<E>,
) -> Result<(), Fault>
    requires { runner.old.line + 1 < 2 ^ 64 }
    ensures ok { (bytes : List ℕ) → IsToldBy H.whole bytes runner.new.log
        → OnOk result (AnswersMeant (in_turn (lines_in plains.now))
        (standing_at bytes runner.old) (standing_at bytes runner.new)
        (heard (O.state out.old) (option_map E.state told.old))
        (heard (O.state out.new) (option_map E.state told.new))) }
    ensures err { (bytes : List ℕ) → IsToldBy H.whole bytes runner.new.log
        → IfErr result (MeantStops (in_turn (lines_in plains.now)) (standing_at bytes runner.old)
        (heard (O.state out.old) (option_map E.state told.old))
        (heard (O.state out.new) (option_map E.state told.new))) }
    ensures quiet { OnOk result (runner.new.log.failures ≡ runner.old.log.failures) }
    ensures counted { IfErr result (FaultCounts runner.old.log.failures runner.new.log.failures) }
    ensures said { OnOk result (PrintsSome (O.state out.old) (O.state out.new)) }
    ensures leaves { IfErr result (LinesLeave (O.state out.old) (O.state out.new)) }
    ensures once { H.whole ≡ true → IfErr result IsOnce }
    ensures follows { Follows runner.old.log runner.new.log }
    ensures look { runner.new.look ≡ runner.old.look }
    ensures line { OnOk result (runner.new.line ≡ runner.old.line + 1) }
{
    let number = runner.line();
    let wanted = told.is_some();
    let (reply, line) = reply_to_last(alloc, runner, wanted, plains)?;
    print_answer(out, number, &reply, wanted && counts_as_refused(&reply))?;
    say(told, number, line, &reply);
    Ok(())
}

// Answers plain queries of each HDU that one line stands for.
fn answer_each<H: Holder + Drop, O: Sink, E: Sink>(
    alloc: Global,
    runner: &mut Runner<H>,
    plains: &[Vec<u8>],
    out: &mut O,
    told: &mut Option<E>,
) -> Result<(), Fault>
    requires { runner.old.line + 1 < 2 ^ 64 }
    ensures ok { (bytes : List ℕ) → IsToldBy H.whole bytes runner.new.log
        → OnOk result (AnswersMeant (of_each (lines_in plains.now))
        (standing_at bytes runner.old) (standing_at bytes runner.new)
        (heard (O.state out.old) (option_map E.state told.old))
        (heard (O.state out.new) (option_map E.state told.new))) }
    ensures err { (bytes : List ℕ) → IsToldBy H.whole bytes runner.new.log
        → IfErr result (MeantStops (of_each (lines_in plains.now)) (standing_at bytes runner.old)
        (heard (O.state out.old) (option_map E.state told.old))
        (heard (O.state out.new) (option_map E.state told.new))) }
    ensures quiet { OnOk result (runner.new.log.failures ≡ runner.old.log.failures) }
    ensures counted { IfErr result (FaultCounts runner.old.log.failures runner.new.log.failures) }
    ensures said { OnOk result (PrintsSome (O.state out.old) (O.state out.new)) }
    ensures leaves { IfErr result (LinesLeave (O.state out.old) (O.state out.new)) }
    ensures once { H.whole ≡ true → IfErr result IsOnce }
    ensures follows { Follows runner.old.log runner.new.log }
    ensures look { runner.new.look ≡ runner.old.look }
    ensures line { OnOk result (runner.new.line ≡ runner.old.line + 1) }
{
    let number = runner.line();
    let wanted = told.is_some();
    let (reply, line) = reply_of_each(alloc, runner, wanted, plains)?;
    print_answer(out, number, &reply, wanted && counts_as_refused(&reply))?;
    say(told, number, line, &reply);
    Ok(())
}

// Asks the plain queries of each HDU that one line stands for, and goes on to the next line. The
// reply has the answers of those that are done, the number of its HDU before each; where each is
// refused it is that to the first, which stands beside it then.
fn reply_of_each<'a, H: Holder + Drop>(
    alloc: Global,
    runner: &mut Runner<H>,
    wanted: bool,
    plains: &'a [Vec<u8>],
) -> Result<(Reply<'a>, &'a [u8]), Fault>
    requires { runner.old.line + 1 < 2 ^ 64 }
    ensures text { (bytes : List ℕ) → IsToldBy H.whole bytes runner.new.log
        → IfOk result (λ it. reply_text runner.old.line it.0
        ≡ each_answer (standing_at bytes runner.old) (lines_in plains.now)) }
    ensures remark { (bytes : List ℕ) → IsToldBy H.whole bytes runner.new.log
        → IfOk result (λ it. wanted ≡ true → remark_line runner.old.line (remark_by it.1.now it.0)
        ≡ each_remark (standing_at bytes runner.old) (lines_in plains.now)) }
    ensures left { (bytes : List ℕ) → IsToldBy H.whole bytes runner.new.log → OnOk result
        (standing_at bytes runner.new ≡ each_left (standing_at bytes runner.old) (lines_in plains.now)) }
    ensures err { (bytes : List ℕ) → IsToldBy H.whole bytes runner.new.log → IfErr result
        (LacksEach (standing_at bytes runner.old) (lines_in plains.now)) }
    ensures quiet { OnOk result (runner.new.log.failures ≡ runner.old.log.failures) }
    ensures counted { IfErr result (FaultCounts runner.old.log.failures runner.new.log.failures) }
    ensures unanswered { IfErr result IsUnanswered }
    ensures once { H.whole ≡ true → IfErr result IsOnce }
    ensures line { OnOk result (runner.new.line ≡ runner.old.line + 1) }
    ensures look { runner.new.look ≡ runner.old.look }
    ensures follows { Follows runner.old.log runner.new.log }
{
    let number = runner.line();
    let refused = runner.refused();
    let mut text = Vec::new(alloc);
    let mut hdu = 0;
    let mut any = false;
    let mut rest = plains;
    'plains: while let Some((plain, others)) = first_of(rest) {
        hdu += 1;
        let reply = runner.reply(alloc, wanted, plain)?;
        let done = push_numbered(&mut text, hdu, &reply)?;
        any = any | done;
        runner.hold(number, refused);
        rest = others;
    }
    if any {
        return Ok((runner.go_on(text), b""));
    }
    let first = first_line(plains);
    Ok((runner.reply(alloc, wanted, first)?, first))
}

// The first of plain lines; where there is none it is empty.
fn first_line(plains: &[Vec<u8>]) -> &[u8]
    ensures { result.now ≡ first_line (lines_in plains.now) }
{
    match plains {
        [plain, ..] => plain,
        [] => b"",
    }
}

// Does what plain lines say that one line stands for, each in its turn and as far as the first that
// is refused, and goes on to the next line. The reply is that to the last of them that is done,
// which stands beside it.
fn reply_to_last<'a, H: Holder + Drop>(
    alloc: Global,
    runner: &mut Runner<H>,
    wanted: bool,
    plains: &'a [Vec<u8>],
) -> Result<(Reply<'a>, &'a [u8]), Fault>
    requires { runner.old.line + 1 < 2 ^ 64 }
    ensures text { (bytes : List ℕ) → IsToldBy H.whole bytes runner.new.log → IfOk result (λ it. reply_text runner.old.line it.0
        ≡ plain_answer (done_last (standing_at bytes runner.old) (lines_in plains.now))) }
    ensures remark { (bytes : List ℕ) → IsToldBy H.whole bytes runner.new.log → IfOk result (λ it. wanted ≡ true
        → remark_line runner.old.line (remark_by it.1.now it.0)
        ≡ plain_remark (done_last (standing_at bytes runner.old) (lines_in plains.now))) }
    ensures left { (bytes : List ℕ) → IsToldBy H.whole bytes runner.new.log → OnOk result
        ((standing_at bytes runner.new) ≡ plain_left (done_last (standing_at bytes runner.old) (lines_in plains.now))) }
    ensures err { (bytes : List ℕ) → IsToldBy H.whole bytes runner.new.log → IfErr result (λ fault.
        AtOne (LacksOne fault) (standing_at bytes runner.old) (lines_in plains.now)) }
    ensures quiet { OnOk result (runner.new.log.failures ≡ runner.old.log.failures) }
    ensures counted { IfErr result (FaultCounts runner.old.log.failures runner.new.log.failures) }
    ensures unanswered { IfErr result IsUnanswered }
    ensures once { H.whole ≡ true → IfErr result IsOnce }
    ensures line { OnOk result (runner.new.line ≡ runner.old.line + 1) }
    ensures look { runner.new.look ≡ runner.old.look }
    ensures follows { Follows runner.old.log runner.new.log }
{
    let number = runner.line();
    let mut rest = plains;
    'plains: while let Some((plain, others)) = first_of(rest) {
        let refused = runner.refused();
        let reply = runner.reply(alloc, wanted, plain)?;
        if is_last_done(others, refused, runner.refused()) {
            return Ok((reply, plain));
        }
        runner.stay(number);
        rest = others;
    }
    Ok((runner.reply(alloc, wanted, b"")?, b""))
}

// The first of plain lines, and the others.
fn first_of(plains: &[Vec<u8>]) -> Option<(&[u8], &[Vec<u8>])>
    ensures some { IfSome result (λ cut. lines_in plains.now ≡ cut.0.now ∷ lines_in cut.1.now) }
    ensures shorter { IfSome result (λ cut. length plains.now ≡ length cut.1.now + 1) }
    ensures none { IfNone result (lines_in plains.now ≡ []) }
{
    match plains {
        [plain, others @ ..] => Some((plain.as_slice(), others)),
        [] => None,
    }
}

// Whether plain lines aren't gone on with, of which these are left, after one that made so many
// refused ones of so many.
fn is_last_done(others: &[Vec<u8>], before: u64, after: u64) -> bool
    ensures { result ≡ ((length others.now == 0) || nat_lt before after) }
{
    others.is_empty() || before < after
}

// Prints what a line comes to, and passes it on at once where a remark on it follows, so that who
// reads both has the answer first.
#[tactic(auto, using(fits_stream::proofs::StreamLemmas::flush_steps))]
fn print_answer<O: Sink>(
    out: &mut O,
    number: u64,
    reply: &Reply<'_>,
    at_once: bool,
) -> Result<(), Fault>
    ensures ok { OnOk result (Prints (reply_text number reply.now)
        (O.state out.old) (O.state out.new)) }
    ensures err { IfErr result (PrintFails (reply_text number reply.now)
        (O.state out.old) (O.state out.new)) }
    ensures flushed { at_once ≡ true → OnOk result ((O.state out.new).unflushed ≡ 0) }
{
    print_reply(out, number, reply)?;
    if at_once { flush(out) } else { Ok(()) }
}

// Keeps more of a line, as far as it decides what the line comes to.
#[tactic(auto, unfolding(crate::specs::Running::kept_of))]
fn keep(line: &mut Vec<u8>, more: &[u8])
    requires room { LINE_LIMIT + 1 ≤ vec_capacity line.old }
    requires within { vec_len line.old ≤ LINE_LIMIT + 1 }
    ensures kept { line.new.items ≡ kept_of (line.old.items ++ more.now) }
    ensures room { LINE_LIMIT + 1 ≤ vec_capacity line.new }
    ensures within { vec_len line.new ≤ LINE_LIMIT + 1 }
{
    let room = LINE_ROOM - line.len();
    let (front, _) = more.split_at(room.min(more.len()));
    let Ok(()) = line.extend_from_slice(front) else {
        unreachable!();
    };
}

// Answers each line that ends in this piece. `line` holds what came of a line that hasn't ended.
fn answer_piece<H: Holder + Drop, O: Sink, E: Sink>(
    alloc: Global,
    runner: &mut Runner<H>,
    line: &mut Vec<u8>,
    piece: &[u8],
    out: &mut O,
    told: &mut Option<E>,
) -> Result<(), Fault>
    requires numbers { runner.old.line + length piece.now + 1 < 2 ^ 64 }
    requires room { LINE_LIMIT + 1 ≤ vec_capacity line.old }
    requires within { vec_len line.old ≤ LINE_LIMIT + 1 }
    ensures ok { (bytes : List ℕ) → IsToldBy H.whole bytes runner.new.log → OnOk result (Continues piece.now line.old.items line.new.items (standing_at bytes runner.old)
        (standing_at bytes runner.new)
        (heard (O.state out.old) (option_map E.state told.old))
        (heard (O.state out.new) (option_map E.state told.new))) }
    ensures err { (bytes : List ℕ) → IsToldBy H.whole bytes runner.new.log → IfErr result (PieceStops piece.now line.old.items (standing_at bytes runner.old)
        (heard (O.state out.old) (option_map E.state told.old))
        (heard (O.state out.new) (option_map E.state told.new))) }
    ensures quiet { OnOk result (runner.new.log.failures ≡ runner.old.log.failures) }
    ensures counted { IfErr result (FaultCounts runner.old.log.failures runner.new.log.failures) }
    ensures said { OnOk result (PrintsSome (O.state out.old) (O.state out.new)) }
    ensures leaves { IfErr result (LinesLeave (O.state out.old) (O.state out.new)) }
    ensures once { H.whole ≡ true → IfErr result IsOnce }
    ensures follows { Follows runner.old.log runner.new.log }
    ensures look { runner.new.look ≡ runner.old.look }
    ensures line { OnOk result (runner.new.line ≤ runner.old.line + length piece.now) }
    ensures room { OnOk result (LINE_LIMIT + 1 ≤ vec_capacity line.new) }
    ensures within { OnOk result (vec_len line.new ≤ LINE_LIMIT + 1) }
{
    let mut rest = piece;
    loop {
        let Some((front, next)) = split_far(rest, b'\n') else {
            keep(line, rest);
            return Ok(());
        };
        keep(line, front);
        answer_line(alloc, runner, line, out, told)?;
        line.clear();
        rest = next;
    }
}

// The same, and passes the answers on, so that what asks by a pipe has them before it says more.
fn answer_at_once<H: Holder + Drop, O: Sink, E: Sink>(
    alloc: Global,
    runner: &mut Runner<H>,
    line: &mut Vec<u8>,
    piece: &[u8],
    out: &mut O,
    told: &mut Option<E>,
) -> Result<(), Fault>
    requires numbers { runner.old.line + length piece.now + 1 < 2 ^ 64 }
    requires room { LINE_LIMIT + 1 ≤ vec_capacity line.old }
    requires within { vec_len line.old ≤ LINE_LIMIT + 1 }
    ensures ok { (bytes : List ℕ) → IsToldBy H.whole bytes runner.new.log → OnOk result (Continues piece.now line.old.items line.new.items (standing_at bytes runner.old)
        (standing_at bytes runner.new)
        (heard (O.state out.old) (option_map E.state told.old))
        (heard (O.state out.new) (option_map E.state told.new))) }
    ensures err { (bytes : List ℕ) → IsToldBy H.whole bytes runner.new.log → IfErr result (PieceStops piece.now line.old.items (standing_at bytes runner.old)
        (heard (O.state out.old) (option_map E.state told.old))
        (heard (O.state out.new) (option_map E.state told.new))) }
    ensures quiet { OnOk result (runner.new.log.failures ≡ runner.old.log.failures) }
    ensures counted { IfErr result (FaultCounts runner.old.log.failures runner.new.log.failures) }
    ensures said { OnOk result (PrintsSome (O.state out.old) (O.state out.new)) }
    ensures leaves { IfErr result (LinesLeave (O.state out.old) (O.state out.new)) }
    ensures once { H.whole ≡ true → IfErr result IsOnce }
    ensures follows { Follows runner.old.log runner.new.log }
    ensures look { runner.new.look ≡ runner.old.look }
    ensures flushed { OnOk result ((O.state out.new).unflushed ≡ 0) }
    ensures line { OnOk result (runner.new.line ≤ runner.old.line + length piece.now) }
    ensures room { OnOk result (LINE_LIMIT + 1 ≤ vec_capacity line.new) }
    ensures within { OnOk result (vec_len line.new ≤ LINE_LIMIT + 1) }
{
    answer_piece(alloc, runner, line, piece, out, told)?;
    flush(out)
}

// Answers what came after the last line feed, unless it is nothing.
fn answer_last_line<H: Holder + Drop, O: Sink, E: Sink>(
    alloc: Global,
    runner: &mut Runner<H>,
    line: &[u8],
    out: &mut O,
    told: &mut Option<E>,
) -> Result<(), Fault>
    requires { runner.old.line + 1 < 2 ^ 64 }
    ensures ok { (bytes : List ℕ) → IsToldBy H.whole bytes runner.new.log → OnOk result (EndsScript line.now (standing_at bytes runner.old) (standing_at bytes runner.new)
        (heard (O.state out.old) (option_map E.state told.old))
        (heard (O.state out.new) (option_map E.state told.new))) }
    ensures err { (bytes : List ℕ) → IsToldBy H.whole bytes runner.new.log → IfErr result (EndStops line.now (standing_at bytes runner.old)
        (heard (O.state out.old) (option_map E.state told.old))
        (heard (O.state out.new) (option_map E.state told.new))) }
    ensures quiet { OnOk result (runner.new.log.failures ≡ runner.old.log.failures) }
    ensures counted { IfErr result (FaultCounts runner.old.log.failures runner.new.log.failures) }
    ensures said { OnOk result (PrintsSome (O.state out.old) (O.state out.new)) }
    ensures leaves { IfErr result (LinesLeave (O.state out.old) (O.state out.new)) }
    ensures once { H.whole ≡ true → IfErr result IsOnce }
    ensures follows { Follows runner.old.log runner.new.log }
    ensures look { runner.new.look ≡ runner.old.look }
{
    if line.is_empty() {
        return Ok(());
    }
    answer_line(alloc, runner, line, out, told)?;
    Ok(())
}

/// Answers a script to its end, or as far as its limit.
pub(crate) fn answer_script<H: Holder + Drop, S: Source, O: Sink, E: Sink>(
    alloc: Global,
    runner: &mut Runner<H>,
    script: &mut S,
    out: &mut O,
    told: &mut Option<E>,
) -> Result<(), Fault>
    requires { runner.old.line ≡ 1 }
    ensures ok { (bytes : List ℕ) → IsToldBy H.whole bytes runner.new.log → OnOk result (AnswersScript (S.state script.old) (S.state script.new) (standing_at bytes runner.old)
        (standing_at bytes runner.new)
        (heard (O.state out.old) (option_map E.state told.old))
        (heard (O.state out.new) (option_map E.state told.new))) }
    ensures err { (bytes : List ℕ) → IsToldBy H.whole bytes runner.new.log → IfErr result (ScriptStops (S.state script.old) (S.state script.new) (standing_at bytes runner.old)
        (heard (O.state out.old) (option_map E.state told.old))
        (heard (O.state out.new) (option_map E.state told.new))) }
    ensures quiet { OnOk result (runner.new.log.failures ≡ runner.old.log.failures) }
    ensures counted { IfErr result (ScriptCounts runner.old.log.failures runner.new.log.failures
        (S.state script.old) (S.state script.new)) }
    ensures said { OnOk result (ScriptAnswers (S.state script.old) (S.state script.new)
        (O.state out.old) (O.state out.new)) }
    ensures leaves { IfErr result (ScriptLeaves (S.state script.old) (S.state script.new)
        (O.state out.old) (O.state out.new)) }
    ensures once { H.whole ≡ true → IfErr result IsOnce }
    ensures follows { Follows runner.old.log runner.new.log }
    ensures look { runner.new.look ≡ runner.old.look }
{
    let mut buffer = buffer_of(alloc, PIECE_LEN)?;
    let mut line = Vec::with_capacity(alloc, LINE_ROOM)?;
    answer_pieces(
        alloc,
        runner,
        script,
        out,
        told,
        buffer.as_mut_slice(),
        &mut line,
    )
}

// Reads on in a script, of which so many bytes were taken. What these were answered is passed on by
// then: who asks by a pipe has it before more is waited for.
fn read_on<S: Source, O: Sink>(
    script: &mut S,
    _out: &O,
    _taken: usize,
    piece: &mut [u8],
) -> io::Result<usize>
    requires passed_on { 0 < _taken → (O.state _out.now).unflushed ≡ 0 }
    ensures bound { ReadsAtMost result piece.new }
    ensures ok { IfOk result (λ count. Reads (take count piece.new)
        (S.state script.old) (S.state script.new)) }
    ensures ends { IfOk result (λ count. count ≡ 0 → 0 < length piece.new
        → IsDry (S.state script.new)) }
    ensures size { length piece.new ≡ length piece.old }
    ensures err { OnErr result (FailsToRead (S.state script.old) (S.state script.new)) }
{
    script.read(piece)
}

// Answers a script piece by piece. `piece` and `line` are room for a piece and for a line.
fn answer_pieces<H: Holder + Drop, S: Source, O: Sink, E: Sink>(
    alloc: Global,
    runner: &mut Runner<H>,
    script: &mut S,
    out: &mut O,
    told: &mut Option<E>,
    piece: &mut [u8],
    line: &mut Vec<u8>,
) -> Result<(), Fault>
    requires first { runner.old.line ≡ 1 }
    requires wide { 0 < length piece.old }
    requires empty { line.old.items ≡ [] }
    requires room { LINE_LIMIT + 1 ≤ vec_capacity line.old }
    ensures ok { (bytes : List ℕ) → IsToldBy H.whole bytes runner.new.log → OnOk result (AnswersScript (S.state script.old) (S.state script.new) (standing_at bytes runner.old)
        (standing_at bytes runner.new)
        (heard (O.state out.old) (option_map E.state told.old))
        (heard (O.state out.new) (option_map E.state told.new))) }
    ensures err { (bytes : List ℕ) → IsToldBy H.whole bytes runner.new.log → IfErr result (ScriptStops (S.state script.old) (S.state script.new) (standing_at bytes runner.old)
        (heard (O.state out.old) (option_map E.state told.old))
        (heard (O.state out.new) (option_map E.state told.new))) }
    ensures quiet { OnOk result (runner.new.log.failures ≡ runner.old.log.failures) }
    ensures counted { IfErr result (ScriptCounts runner.old.log.failures runner.new.log.failures
        (S.state script.old) (S.state script.new)) }
    ensures said { OnOk result (ScriptAnswers (S.state script.old) (S.state script.new)
        (O.state out.old) (O.state out.new)) }
    ensures leaves { IfErr result (ScriptLeaves (S.state script.old) (S.state script.new)
        (O.state out.old) (O.state out.new)) }
    ensures once { H.whole ≡ true → IfErr result IsOnce }
    ensures follows { Follows runner.old.log runner.new.log }
    ensures look { runner.new.look ≡ runner.old.look }
{
    let mut taken = 0usize;
    loop {
        let Ok(n) = read_on(script, out, taken, piece) else {
            return Err(Fault::ReadFailed);
        };
        if n == 0 {
            return answer_last_line(alloc, runner, line, out, told);
        }
        let room = SCRIPT_LIMIT - taken;
        if n > room {
            let (front, _) = piece.split_at(room);
            answer_piece(alloc, runner, line, front, out, told)?;
            return Err(Fault::ScriptTooLong);
        }
        let (front, _) = piece.split_at(n);
        answer_at_once(alloc, runner, line, front, out, told)?;
        taken += n;
    }
}
