//! The run of a script over a file that is to be changed in its place.
ghost use Rattle.std.specs.Prelude.{◌≡◌, ℕ, List, true, All, AllPairs, IfErr, IfOk, OnOk};
ghost use Rattle.std.specs.Option.{option_map};
ghost use Rattle.fits_stream.specs.Agree.{IsOf};
ghost use Rattle.fits_unit.specs.Again.{Follows};
ghost use Rattle.fits_session.specs.Away.{AllLie};
ghost use Rattle.fits_session.specs.Marked.{unmarked};
ghost use Rattle.fits_session.specs.Session.{file_of, marked_of, session_at, IsSeen};
ghost use Rattle.fits_passing.specs.Report.{IsListedBefore};
ghost use Rattle.fits_passing.specs.declared.look.Look.TheVariants.{All as LookAll};
ghost use Rattle.fits_cli.specs.Ends.{run_by, stored_file, OverFile, OverReads, RemarksBy};
ghost use Rattle.fits_cli.specs.Faults.{FaultCounts, RunCounts};
ghost use Rattle.fits_cli.specs.Frame.{PrintsSome, ResultLeaves};
ghost use Rattle.fits_cli.specs.Output.{saved_bytes};
ghost use Rattle.fits_cli.specs.Planned.{edited_of, EndsOver, LeavesOver, OverLeaves};
ghost use Rattle.fits_cli.specs.Reports.{read_reports};
ghost use Rattle.fits_cli.specs.Running.{guarded_by, standing_at, standing_over, OverAnswered, OverFirst};
ghost use Rattle.fits_cli.specs.Terms.{look_of};

use crate::edited::Edited;
use crate::editing::answered;
use crate::holding::held_back;
use crate::planned::Planned;
use crate::reports::Reports;
use crate::runner::Runner;
use crate::terms::Terms;
use fits_session::{InFile, Session};
use fits_stream::{ReadLog, Sink, Source, Stored};
use fits_tell::Fault;
use std::alloc::Global;

/// The run of `run_edit_stored` over a file of so many bytes: where its length and the places of its
/// data units stay, nothing is saved, and the blocks that the result changes in it are a plan. Where
/// memory is refused for that, or the file isn't as it was opened, the result is saved.
pub fn run_edit_over<F: Stored, S: Source, P: Sink, O: Sink, E: Sink>(
    alloc: Global,
    terms: Terms,
    file: &F,
    len: u64,
    log: &mut ReadLog,
    script: &mut S,
    saved: &mut P,
    out: &mut O,
    told: &mut Option<E>,
) -> Result<Planned, Fault>
    ensures ends { (bytes : List ℕ) → IsOf bytes log.new → EndsOver len bytes
        (run_by terms true (stored_file bytes log.old) (S.state script.old) (O.state out.old))
        (run_by terms true (stored_file bytes log.new) (S.state script.new) (O.state out.new))
        (P.state saved.old) (P.state saved.new) result }
    ensures told { OverReads log.old log.new (λ file after. RemarksBy terms file after
        (S.state script.old) (S.state script.new)
        (option_map E.state told.old) (option_map E.state told.new) (edited_of result)) }
    ensures quiet { OnOk result (log.new.failures ≡ log.old.failures) }
    ensures counted { IfErr result (RunCounts log.old.failures log.new.failures
        (S.state script.old) (S.state script.new)) }
    ensures leaves { LeavesOver terms (S.state script.old) (S.state script.new)
        (O.state out.old) (O.state out.new) (P.state saved.old) (P.state saved.new) result }
    ensures follows { Follows log.old log.new }
{
    match Session::read_stored(alloc, terms.look(), file, log) {
        Ok(session) => edit_over(alloc, terms, session, len, log, script, saved, out, told),
        Err(why) => Err(Fault::from(why)),
    }
}

// The run over a file that was opened by these reads.
fn edit_over<F: Stored, S: Source, P: Sink, O: Sink, E: Sink>(
    alloc: Global,
    terms: Terms,
    session: Session<InFile<'_, F>>,
    len: u64,
    log: &mut ReadLog,
    script: &mut S,
    saved: &mut P,
    out: &mut O,
    told: &mut Option<E>,
) -> Result<Planned, Fault>
    requires unmarked { marked_of session ≡ unmarked (file_of session) }
    requires lie { (bytes : List ℕ) → IsOf bytes log.old → AllLie bytes session.hdus }
    requires seen { look_of terms ≡ LookAll → All IsSeen session.hdus }
    ensures ends { (bytes : List ℕ) → IsOf bytes log.new
        → OverFile true (file_of (session_at bytes session.entry)) (λ file after. EndsOver len bytes
        (run_by terms true file (S.state script.old) (O.state out.old))
        (run_by terms true after (S.state script.new) (O.state out.new))
        (P.state saved.old) (P.state saved.new) result) }
    ensures told { (bytes : List ℕ) → IsOf bytes log.new
        → OverFile true (file_of (session_at bytes session.entry)) (λ file after. RemarksBy terms file after
        (S.state script.old) (S.state script.new)
        (option_map E.state told.old) (option_map E.state told.new) (edited_of result)) }
    ensures quiet { OnOk result (log.new.failures ≡ log.old.failures) }
    ensures counted { IfErr result (RunCounts log.old.failures log.new.failures
        (S.state script.old) (S.state script.new)) }
    ensures leaves { LeavesOver terms (S.state script.old) (S.state script.new)
        (O.state out.old) (O.state out.new) (P.state saved.old) (P.state saved.new) result }
    ensures follows { Follows log.old log.new }
{
    let mut runner = Runner::new(session, terms, log.take());
    let ended = run_over(alloc, terms, len, &mut runner, script, saved, out, told);
    *log = runner.into_log();
    ended
}

// The same from the first line on.
fn run_over<F: Stored, S: Source, P: Sink, O: Sink, E: Sink>(
    alloc: Global,
    terms: Terms,
    len: u64,
    runner: &mut Runner<InFile<'_, F>>,
    script: &mut S,
    saved: &mut P,
    out: &mut O,
    told: &mut Option<E>,
) -> Result<Planned, Fault>
    requires line { runner.old.line ≡ 1 }
    requires look { runner.old.look ≡ look_of terms }
    ensures ends { (bytes : List ℕ) → IsOf bytes runner.new.log → OverFirst true terms (standing_at bytes runner.old)
        (λ file after. EndsOver len bytes
        (run_by terms true file (S.state script.old) (O.state out.old))
        (run_by terms true after (S.state script.new) (O.state out.new))
        (P.state saved.old) (P.state saved.new) result) }
    ensures told { (bytes : List ℕ) → IsOf bytes runner.new.log → OverFirst true terms (standing_at bytes runner.old)
        (λ file after. RemarksBy terms file after (S.state script.old) (S.state script.new)
        (option_map E.state told.old) (option_map E.state told.new) (edited_of result)) }
    ensures quiet { OnOk result (runner.new.log.failures ≡ runner.old.log.failures) }
    ensures counted { IfErr result (RunCounts runner.old.log.failures runner.new.log.failures
        (S.state script.old) (S.state script.new)) }
    ensures leaves { LeavesOver terms (S.state script.old) (S.state script.new)
        (O.state out.old) (O.state out.new) (P.state saved.old) (P.state saved.new) result }
    ensures follows { Follows runner.old.log runner.new.log }
{
    let before = answered(alloc, terms, runner, script, out, told)?;
    plan_result(alloc, terms, len, runner, &before, saved, out)
}

// Plans or saves what a script made of a file that had this report, unless something keeps it from being
// saved.
fn plan_result<F: Stored, P: Sink, O: Sink>(
    alloc: Global,
    terms: Terms,
    len: u64,
    runner: &mut Runner<InFile<'_, F>>,
    before: &Reports,
    saved: &mut P,
    out: &mut O,
) -> Result<Planned, Fault>
    requires ordered { AllPairs IsListedBefore before.now.problems.items }
    requires look { runner.old.look ≡ look_of terms }
    ensures ends { (bytes : List ℕ) → IsOf bytes runner.new.log → OverAnswered terms true
        (standing_at bytes runner.old) (read_reports before.now) (O.state out.old) (O.state out.new)
        (λ old new. EndsOver len bytes old new (P.state saved.old) (P.state saved.new) result) }
    ensures quiet { OnOk result (runner.new.log.failures ≡ runner.old.log.failures) }
    ensures counted { IfErr result (FaultCounts runner.old.log.failures runner.new.log.failures) }
    ensures said { OnOk result (PrintsSome (O.state out.old) (O.state out.new)) }
    ensures flushed { OnOk result ((O.state out.old).unflushed ≡ 0
        → (O.state out.new).unflushed ≡ 0) }
    ensures like { IfOk result (OverLeaves (look_of terms) terms.saves
        (saved_bytes terms (standing_over runner.old (guarded_by runner.old runner.old.session)))
        (P.state saved.old) (P.state saved.new)) }
    ensures leaves { IfErr result (ResultLeaves terms.saves (O.state out.old) (O.state out.new)
        (P.state saved.old) (P.state saved.new)) }
    ensures follows { Follows runner.old.log runner.new.log }
{
    match held_back(alloc, terms, runner, before, out)? {
        Some(edited) => Ok(Planned { edited, plan: None }),
        None => {
            let plan = runner.plan_or_save(terms, len, saved)?;
            let edited = Edited::Done(runner.status());
            Ok(Planned { edited, plan })
        }
    }
}
