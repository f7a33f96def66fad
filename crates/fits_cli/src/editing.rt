//! The run of a script over a file: a file, a script, answers, and what the script made of the file.
ghost use Rattle.std.specs.Prelude.{◌≡◌, ℕ, List, false, true, not, All, AllPairs, IfOk, IfErr, OnErr, OnOk};
ghost use Rattle.std.specs.Option.{option_map};
ghost use Rattle.fits_stream.specs.Agree.{IsOf};
ghost use Rattle.fits_unit.specs.Again.{Follows};
ghost use Rattle.fits_session.specs.Away.{AllLie};
ghost use Rattle.fits_session.specs.Marked.{unmarked};
ghost use Rattle.fits_passing.specs.Report.{IsListedBefore};
ghost use Rattle.fits_session.specs.Session.{file_of, marked_of, session_at, IsSeen};
ghost use Rattle.fits_passing.specs.declared.look.Look.TheVariants.{All as LookAll};
ghost use Rattle.fits_cli.specs.Terms.{look_of};
ghost use Rattle.fits_cli.specs.Faults.{FaultCounts, RunCounts};
ghost use Rattle.fits_cli.specs.Frame.{AnswersLeave, EndLeaves, LeavesAs, PrintsSome, ResultLeaves, ScriptAnswers};
ghost use Rattle.fits_cli.specs.Output.{saved_bytes};
ghost use Rattle.fits_cli.specs.Ends.{run, run_by, AreToldOf, EndsAs, EndsBy, OverFile, OverReads, RemarksBy, StopsBy};
ghost use Rattle.fits_cli.specs.Reports.{read_reports};
ghost use Rattle.fits_cli.specs.Running.{guarded_by, standing_at, standing_over, FlushesAnswers, IsAnsweredRun, IsToldBy, OverAnswered, OverFirst};

use crate::edited::{Edited, end_of};
use crate::holding::held_back;
use crate::remarking::Silence;
use crate::reports::Reports;
use crate::runner::Runner;
use crate::script::answer_script;
use crate::terms::{PLAIN, Terms};
use fits_session::{Holder, Session};
use fits_stream::{ReadLog, Sink, Source, Stored};
use fits_tell::{End, Fault, flush};
use std::alloc::Global;

/// Reads a file and opens it, answers a script, and saves what the script made of the file.
///
/// The file is read to its end before the script. The answers go to `out`, and are flushed before
/// the first byte is saved. Refused lines don't keep the file from being saved; a fault before does.
pub fn run_edit<F: Source, S: Source, P: Sink, O: Sink>(
    alloc: Global,
    file: &mut F,
    script: &mut S,
    saved: &mut P,
    out: &mut O,
) -> End
    ensures { EndsAs
        (run (F.state file.old) (S.state script.old) (O.state out.old))
        (run (F.state file.new) (S.state script.new) (O.state out.new))
        (P.state saved.old) (P.state saved.new) result }
{
    let mut told: Silence = None;
    end_of(run_edit_told(alloc, PLAIN, file, script, saved, out, &mut told))
}

/// The same on any terms. The lines of problems that keep the result from being saved go to `out`,
/// after the answers; remarks on the lines that aren't done go to `told`, if they are wanted.
pub fn run_edit_told<F: Source, S: Source, P: Sink, O: Sink, E: Sink>(
    alloc: Global,
    terms: Terms,
    file: &mut F,
    script: &mut S,
    saved: &mut P,
    out: &mut O,
    told: &mut Option<E>,
) -> Result<Edited, Fault>
    ensures ends { EndsBy
        (run_by terms false (F.state file.old) (S.state script.old) (O.state out.old))
        (run_by terms false (F.state file.new) (S.state script.new) (O.state out.new))
        (P.state saved.old) (P.state saved.new) result }
    ensures told { RemarksBy terms (F.state file.old) (F.state file.new) (S.state script.old) (S.state script.new)
        (option_map E.state told.old) (option_map E.state told.new) result }
{
    match Session::read(alloc, file) {
        Ok(session) => {
            session.is_sound();
            edit(
                alloc,
                terms,
                session,
                &mut ReadLog::none(),
                script,
                saved,
                out,
                told,
            )
        }
        Err(why) => Err(Fault::from(why)),
    }
}

/// The same of a stored file, in which its data stay until a line wants them. They are read
/// then, or where they are copied as it is saved: where they aren't had, or what was known of them has
/// changed meanwhile, the run ends by `Fault::Reread`, and nothing more is saved. Data units larger
/// than a piece aren't looked at before, unless the terms want it.
///
/// What it ends with goes by what the reads of the file gave, which the log has: where they may have
/// been of some bytes the run is that of these bytes, whatever the file was before, between and after
/// them.
pub fn run_edit_stored<F: Stored, S: Source, P: Sink, O: Sink, E: Sink>(
    alloc: Global,
    terms: Terms,
    file: &F,
    log: &mut ReadLog,
    script: &mut S,
    saved: &mut P,
    out: &mut O,
    told: &mut Option<E>,
) -> Result<Edited, Fault>
    ensures ends { OverReads log.old log.new (λ file after. EndsBy
        (run_by terms true file (S.state script.old) (O.state out.old))
        (run_by terms true after (S.state script.new) (O.state out.new))
        (P.state saved.old) (P.state saved.new) result) }
    ensures told { OverReads log.old log.new (λ file after. RemarksBy terms file after
        (S.state script.old) (S.state script.new)
        (option_map E.state told.old) (option_map E.state told.new) result) }
    ensures quiet { OnOk result (log.new.failures ≡ log.old.failures) }
    ensures counted { IfErr result (RunCounts log.old.failures log.new.failures
        (S.state script.old) (S.state script.new)) }
    ensures leaves { LeavesAs terms (S.state script.old) (S.state script.new)
        (O.state out.old) (O.state out.new) (P.state saved.old) (P.state saved.new) result }
    ensures follows { Follows log.old log.new }
{
    match Session::read_stored(alloc, terms.look(), file, log) {
        Ok(session) => edit(alloc, terms, session, log, script, saved, out, told),
        Err(why) => Err(Fault::from(why)),
    }
}

// The run over a file that was opened by these reads.
fn edit<H: Holder + Drop, S: Source, P: Sink, O: Sink, E: Sink>(
    alloc: Global,
    terms: Terms,
    session: Session<H>,
    log: &mut ReadLog,
    script: &mut S,
    saved: &mut P,
    out: &mut O,
    told: &mut Option<E>,
) -> Result<Edited, Fault>
    requires unmarked { marked_of session ≡ unmarked (file_of session) }
    requires lie { (bytes : List ℕ) → IsOf bytes log.old → AllLie bytes session.hdus }
    requires seen { look_of terms ≡ LookAll → All IsSeen session.hdus }
    ensures ends { (bytes : List ℕ) → IsToldBy H.whole bytes log.new
        → OverFile (not H.whole) (file_of (session_at bytes session)) (λ file after. EndsBy
        (run_by terms (not H.whole) file (S.state script.old) (O.state out.old))
        (run_by terms (not H.whole) after (S.state script.new) (O.state out.new))
        (P.state saved.old) (P.state saved.new) result) }
    ensures told { (bytes : List ℕ) → IsToldBy H.whole bytes log.new
        → OverFile (not H.whole) (file_of (session_at bytes session)) (λ file after. RemarksBy terms file after
        (S.state script.old) (S.state script.new)
        (option_map E.state told.old) (option_map E.state told.new) result) }
    ensures quiet { OnOk result (log.new.failures ≡ log.old.failures) }
    ensures counted { IfErr result (RunCounts log.old.failures log.new.failures
        (S.state script.old) (S.state script.new)) }
    ensures leaves { LeavesAs terms (S.state script.old) (S.state script.new)
        (O.state out.old) (O.state out.new) (P.state saved.old) (P.state saved.new) result }
    ensures follows { Follows log.old log.new }
{
    let mut runner = Runner::new(session, terms, log.take());
    let ended = run(alloc, terms, &mut runner, script, saved, out, told);
    *log = runner.into_log();
    ended
}

// The same from the first line on.
fn run<H: Holder + Drop, S: Source, P: Sink, O: Sink, E: Sink>(
    alloc: Global,
    terms: Terms,
    runner: &mut Runner<H>,
    script: &mut S,
    saved: &mut P,
    out: &mut O,
    told: &mut Option<E>,
) -> Result<Edited, Fault>
    requires line { runner.old.line ≡ 1 }
    requires look { runner.old.look ≡ look_of terms }
    ensures ends { (bytes : List ℕ) → IsToldBy H.whole bytes runner.new.log → OverFirst (not H.whole) terms (standing_at bytes runner.old) (λ file after. EndsBy
        (run_by terms (not H.whole) file (S.state script.old) (O.state out.old))
        (run_by terms (not H.whole) after (S.state script.new) (O.state out.new))
        (P.state saved.old) (P.state saved.new) result) }
    ensures told { (bytes : List ℕ) → IsToldBy H.whole bytes runner.new.log → OverFirst (not H.whole) terms (standing_at bytes runner.old) (λ file after. RemarksBy
        terms file after (S.state script.old) (S.state script.new)
        (option_map E.state told.old) (option_map E.state told.new) result) }
    ensures quiet { OnOk result (runner.new.log.failures ≡ runner.old.log.failures) }
    ensures counted { IfErr result (RunCounts runner.old.log.failures runner.new.log.failures
        (S.state script.old) (S.state script.new)) }
    ensures leaves { LeavesAs terms (S.state script.old) (S.state script.new)
        (O.state out.old) (O.state out.new) (P.state saved.old) (P.state saved.new) result }
    ensures follows { Follows runner.old.log runner.new.log }
{
    let before = answered(alloc, terms, runner, script, out, told)?;
    save_result(alloc, terms, runner, &before, saved, out)
}

/// Answers a script over a file, and flushes the answers. Before the first line it asks for the report
/// of the file, where that is wanted, and answers it.
pub(crate) fn answered<H: Holder + Drop, S: Source, O: Sink, E: Sink>(
    alloc: Global,
    terms: Terms,
    runner: &mut Runner<H>,
    script: &mut S,
    out: &mut O,
    told: &mut Option<E>,
) -> Result<Reports, Fault>
    requires line { runner.old.line ≡ 1 }
    requires look { runner.old.look ≡ look_of terms }
    ensures ok { (bytes : List ℕ) → IsToldBy H.whole bytes runner.new.log → IfOk result (λ before. OverFirst (not H.whole) terms (standing_at bytes runner.old)
        (λ file after. IsAnsweredRun
        (run_by terms (not H.whole) file (S.state script.old) (O.state out.old))
        (run_by terms (not H.whole) after (S.state script.new) (O.state out.new))
        (option_map E.state told.old) (option_map E.state told.new)
        (standing_at bytes runner.new) (read_reports before))) }
    ensures ordered { IfOk result (λ before. AllPairs IsListedBefore before.problems.items) }
    ensures err { (bytes : List ℕ) → IsToldBy H.whole bytes runner.new.log → IfErr result (λ fault. OverFirst (not H.whole) terms (standing_at bytes runner.old)
        (λ file after. StopsBy
        (run_by terms (not H.whole) file (S.state script.old) (O.state out.old))
        (run_by terms (not H.whole) after (S.state script.new) (O.state out.new)) fault)) }
    ensures told { (bytes : List ℕ) → IsToldBy H.whole bytes runner.new.log → OnErr result (OverFirst (not H.whole) terms (standing_at bytes runner.old)
        (λ file after. AreToldOf terms file after (S.state script.old) (S.state script.new)
        (option_map E.state told.old) (option_map E.state told.new))) }
    ensures quiet { OnOk result (runner.new.log.failures ≡ runner.old.log.failures) }
    ensures counted { IfErr result (RunCounts runner.old.log.failures runner.new.log.failures
        (S.state script.old) (S.state script.new)) }
    ensures said { OnOk result (ScriptAnswers (S.state script.old) (S.state script.new)
        (O.state out.old) (O.state out.new)) }
    ensures flushed { OnOk result ((O.state out.new).unflushed ≡ 0) }
    ensures leaves { IfErr result (AnswersLeave (S.state script.old) (S.state script.new)
        (O.state out.old) (O.state out.new)) }
    ensures follows { Follows runner.old.log runner.new.log }
    ensures look { runner.new.look ≡ runner.old.look }
{
    let before = runner.report_for(alloc, terms.saves.check(), terms.tables)?;
    let answered = answer_script(alloc, runner, script, out, told);
    flush_answers(answered, out)?;
    Ok(before)
}

// Flushes the answers to a script, which are of use whatever ended it.
fn flush_answers<O: Sink>(answered: Result<(), Fault>, out: &mut O) -> Result<(), Fault>
    ensures { FlushesAnswers answered result (O.state out.old) (O.state out.new) }
{
    match answered {
        // A sink that failed is left alone.
        Err(Fault::WriteFailed) => answered,
        // The fault is the script's, also where this call fails too.
        Err(Fault::ReadFailed) => {
            let _ = out.flush();
            answered
        }
        _ => {
            flush(out)?;
            answered
        }
    }
}

// Saves what a script made of a file that had this report, unless something keeps it from being
// saved: a line that wasn't done, or a problem that is new.
fn save_result<H: Holder + Drop, P: Sink, O: Sink>(
    alloc: Global,
    terms: Terms,
    runner: &mut Runner<H>,
    before: &Reports,
    saved: &mut P,
    out: &mut O,
) -> Result<Edited, Fault>
    requires ordered { AllPairs IsListedBefore before.now.problems.items }
    requires look { runner.old.look ≡ look_of terms }
    ensures ends { (bytes : List ℕ) → IsToldBy H.whole bytes runner.new.log → OverAnswered terms (not H.whole)
        (standing_at bytes runner.old) (read_reports before.now) (O.state out.old) (O.state out.new)
        (λ old new. EndsBy old new (P.state saved.old) (P.state saved.new) result) }
    ensures quiet { OnOk result (runner.new.log.failures ≡ runner.old.log.failures) }
    ensures counted { IfErr result (FaultCounts runner.old.log.failures runner.new.log.failures) }
    ensures said { OnOk result (PrintsSome (O.state out.old) (O.state out.new)) }
    ensures flushed { OnOk result ((O.state out.old).unflushed ≡ 0
        → (O.state out.new).unflushed ≡ 0) }
    ensures like { IfOk result (EndLeaves (look_of terms) terms.saves
        (saved_bytes terms (standing_over runner.old (guarded_by runner.old runner.old.session)))
        (P.state saved.old) (P.state saved.new)) }
    ensures leaves { IfErr result (ResultLeaves terms.saves (O.state out.old) (O.state out.new)
        (P.state saved.old) (P.state saved.new)) }
    ensures follows { Follows runner.old.log runner.new.log }
{
    match held_back(alloc, terms, runner, before, out)? {
        Some(edited) => Ok(edited),
        None => {
            runner.save(terms, saved)?;
            Ok(Edited::Done(runner.status()))
        }
    }
}
