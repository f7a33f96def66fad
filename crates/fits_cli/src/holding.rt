//! What keeps the result of a script from being saved.
ghost use Rattle.std.specs.Prelude.{◌≡◌, ℕ, List, not, AllPairs, IfErr, OnOk};
ghost use Rattle.fits_passing.specs.Report.{IsListedBefore};
ghost use Rattle.fits_cli.specs.Faults.{FaultCounts};
ghost use Rattle.fits_cli.specs.Holding.{HoldingLeaves, HoldsBack};
ghost use Rattle.fits_cli.specs.Output.{saved_bytes, status_of};
ghost use Rattle.fits_cli.specs.Reports.{read_reports};
ghost use Rattle.fits_cli.specs.Running.{guarded_by, standing_at, standing_over, IsToldBy, OverAnswered};
ghost use Rattle.fits_cli.specs.Terms.{look_of};

use crate::edited::Edited;
use crate::reports::Reports;
use crate::runner::Runner;
use crate::saves::Saves;
use crate::terms::Terms;
use fits_session::Holder;
use fits_stream::Sink;
use fits_tell::{Fault, print_at_once};
use std::alloc::Global;

/// What keeps what a script made of a file that had this report from being saved, if something does: it
/// isn't wanted, a line wasn't done that was to be, or a problem is new, whose lines go to `out`.
pub(crate) fn held_back<H: Holder + Drop, O: Sink>(
    alloc: Global,
    terms: Terms,
    runner: &mut Runner<H>,
    before: &Reports,
    out: &mut O,
) -> Result<Option<Edited>, Fault>
    requires ordered { AllPairs IsListedBefore before.now.problems.items }
    requires look { runner.old.look ≡ look_of terms }
    ensures holds { (bytes : List ℕ) → IsToldBy H.whole bytes runner.new.log → OverAnswered terms (not H.whole)
        (standing_at bytes runner.old) (read_reports before.now) (O.state out.old) (O.state out.new)
        (λ old new. HoldsBack old new (saved_bytes terms (standing_at bytes runner.old))
        (status_of (standing_at bytes runner.old)) result) }
    ensures leaves { HoldingLeaves terms.saves (O.state out.old) (O.state out.new) result }
    ensures counted { IfErr result (FaultCounts runner.old.log.failures runner.new.log.failures) }
    ensures standing { (bytes : List ℕ) → standing_at bytes runner.new ≡ standing_at bytes runner.old }
    ensures over { standing_over runner.new (guarded_by runner.new runner.new.session)
        ≡ standing_over runner.old (guarded_by runner.old runner.old.session) }
    ensures look { runner.new.look ≡ runner.old.look }
    ensures log { runner.new.log ≡ runner.old.log }
{
    match terms.saves {
        Saves::Nothing => Ok(Some(Edited::Done(runner.status()))),
        Saves::Made { check, .. } => {
            if runner.is_held_back(terms.saves) {
                return Ok(Some(Edited::KeptBack(runner.refused())));
            }
            let found = runner.errors_since(alloc, check, terms.tables, before)?;
            if found.are_some() {
                print_at_once(out, &found.text)?;
                return Ok(Some(Edited::Unsound {
                    errors: found.errors,
                    warnings: found.warnings,
                }));
            }
            Ok(None)
        }
    }
}
