//! Files whose changed blocks are written into them.
ghost use Rattle.std.specs.Prelude.{◌≡◌, true, None, IfOk, OnErr};
ghost use Rattle.fits_redo.specs.Pair.{Files as PairFiles, Rests};
ghost use Rattle.fits_redo.specs.Plan.{redone};
ghost use Rattle.fits_cli.specs.Planned.{edited_of};
ghost use Rattle.fitsed.specs.Running.{EditsSo};
ghost use Rattle.fitsed.specs.Saving.{is_saved, plan_of, IsWrittenOrFails};

use crate::editing::{FilePair, edited, finished, terms_of, unless_changed};
use crate::files::{Standing, mode_of, standing_at};
use crate::remarks::{before_remarks, remarks_after};
use crate::saved_end::{SavedEnd, Told};
use crate::task::SavingTerms;
use crate::unfinished::{recovered, reported_redo};
use crate::wrong_sums::tell_wrong_sums;
use fits_cli::{Edited, Fault, Planned, Reread, run_edit_over};
use fits_redo::{Pair, Plan, RedoFault, System as Held, overwrite};
use fits_save::{SavedFile, Seen, System};
use fits_stream::{ReadLog, Sink, Source, Watched};
use std::alloc::Global;
use std::fs::File;
use std::io::BufWriter;
use std::rt::Files;

/// Edits a file that is held. Where it can't be changed in its place it's written anew.
pub fn overwritten<R: Files<File = File> + Eprint + AllocGlobal, S: Source, O: Sink>(
    rt: &R,
    mut held: Held<'_, R>,
    at: FilePair<'_>,
    terms: SavingTerms<'_>,
    script: &mut S,
    out: &mut O,
) -> SavedEnd
    ensures { EditsSo terms.entry (S.state script.old) (S.state script.new)
        (O.state out.old) (O.state out.new) result.done }
{
    let told = recovered(rt, at.subject, &mut held);
    if !matches!(told, Told::Nothing) {
        return SavedEnd::told(told);
    }
    let Ok(len) = held.len() else {
        return SavedEnd::from(Fault::ReadFailed);
    };
    let Ok(before) = before_remarks(rt.alloc(), at.subject) else {
        return SavedEnd::from(Fault::Memory);
    };
    let Ok(mut told) = remarks_after(rt.alloc(), at.subject, &before) else {
        return SavedEnd::from(Fault::Memory);
    };
    let seen = Seen::of(held.file());
    let mode = mode_of(held.file());
    let Ok(place) = System::new(rt, at.to, mode, seen, terms.saving) else {
        return SavedEnd::from(Fault::Memory);
    };
    let Ok(mut path) = System::new(rt, at.to, mode, seen, terms.saving) else {
        return SavedEnd::from(Fault::Memory);
    };
    let there = standing_at(rt, at.to, held.file());
    if !matches!(there, Standing::Same) {
        // Another run gave the path to another file since this one was opened.
        return SavedEnd::told(reported_redo(rt, at.subject, held.redo_name(), RedoFault::Changed));
    }
    let mut saved = SavedFile::at(place, terms.saving.safe);
    if !held.has_one_name() || !saved.spares() {
        // It couldn't be written anew while its data lie in it, or another name of it would tell
        // nothing of a run that is broken off.
        drop(held);
        return edited(rt, at, terms, script, out);
    }
    let Ok(saved) = BufWriter::new(rt.alloc(), saved) else {
        return SavedEnd::from(Fault::Memory);
    };
    if terms.sums && at.subject.detail.tells() {
        tell_wrong_sums(rt, at.subject);
    }
    let of_run = terms_of(terms, there);
    let mut saved = Watched::new(saved);
    let mut log = ReadLog::none();
    let ran = run_edit_over(
        rt.alloc(),
        of_run,
        held.file(),
        len,
        &mut log,
        script,
        &mut saved,
        out,
        &mut told,
    );
    let (ran, plan) = parts_of(ran);
    let done = unless_changed(held.file(), seen, ran);
    match plan {
        Some(plan) => match written(rt.alloc(), &mut held, &mut path, &plan, done) {
            Ok(end) => end,
            Err(fault) => SavedEnd::told(reported_redo(rt, at.subject, held.redo_name(), fault)),
        },
        None => {
            drop(held);
            finished(rt, at, there, saved.into_inner(), done)
        }
    }
}

// How a run ended, and its plan, if it has one.
fn parts_of(done: Result<Planned, Fault>) -> (Result<Edited, Fault>, Option<Plan>)
    ensures edited { result.0 ≡ edited_of done }
    ensures plan { result.1 ≡ plan_of done }
{
    match done {
        Ok(Planned { edited, plan }) => (Ok(edited), plan),
        Err(why) => (Err(why), None),
    }
}

// Writes the blocks of a plan, where all went well, and the file still stands there as it was. No other
// run takes its path meanwhile.
fn written<R: Files<File = File>, P: Pair>(
    alloc: Global,
    pair: &mut P,
    path: &mut System<'_, R>,
    plan: &Plan,
    done: Result<Edited, Fault>,
) -> Result<SavedEnd, RedoFault>
    ensures ended { IfOk result (λ end. IsWrittenOrFails done end.done) }

    // Where it is said to be saved the new file stands there, on the disk, and no redo file.
    ensures saved { (f : PairFiles) → P.stands pair.old f → f.redo ≡ None
        → IfOk result (λ end. is_saved end.done ≡ true → Rests P.stands P.may_leave pair.new
        (record { file = redone plan.now.blocks.items f.file; redo = None })) }
    ensures err { OnErr result (is_saved done ≡ true) }
{
    let Ok(Edited::Done(_)) = done else {
        return Ok(SavedEnd::of(done));
    };
    if !path.holds() {
        return Ok(SavedEnd::from(Fault::Reread(Reread::Changed)));
    }
    let made = overwrite(alloc, pair, plan);
    path.let_go();
    made?;
    Ok(SavedEnd::of(done))
}
