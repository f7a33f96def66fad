//! The run of `ask`: a file, a script, and answers; nothing is saved.
ghost use Rattle.std.specs.Prelude.{◌≡◌, false, true, MatchOption};
ghost use Rattle.std.specs.Option.{option_map};
ghost use Rattle.fits_stream.specs.Stream.{SinkState};
ghost use Rattle.fits_unit.specs.Again.{Follows};
ghost use Rattle.fits_cli.specs.Faults.{RunCounts};
ghost use Rattle.fits_cli.specs.Frame.{AsksLeave};
ghost use Rattle.fits_cli.specs.Terms.{asking};
ghost use Rattle.fits_cli.specs.Ends.{run_by, EndsAs, OverReads, RemarksEndAs};

use crate::edited::end_of;
use crate::editing::{run_edit_stored, run_edit_told};
use crate::manner::Manner;
use crate::terms::asking;
use fits_stream::{ReadLog, Sink, Source, Stored, Watched};
use fits_tell::End;
use std::alloc::Global;
use std::io;

/// Reads a file and opens it, and answers a script, as `run_edit` does. Nothing is saved. Remarks on
/// the lines that aren't done go to `told`, if they are wanted.
pub fn run_ask<F: Source, S: Source, O: Sink, E: Sink>(
    alloc: Global,
    manner: Manner,
    file: &mut F,
    script: &mut S,
    out: &mut O,
    told: &mut Option<E>,
) -> End
    ensures ends { (saved : SinkState) → EndsAs
        (run_by (asking manner) false (F.state file.old) (S.state script.old) (O.state out.old))
        (run_by (asking manner) false (F.state file.new) (S.state script.new) (O.state out.new))
        saved saved result }
    ensures told { RemarksEndAs (asking manner) (F.state file.old) (F.state file.new) (S.state script.old) (S.state script.new)
        (option_map E.state told.old) (option_map E.state told.new) result }
{
    let mut nowhere = Watched::new(io::sink());
    let terms = asking(manner);
    end_of(run_edit_told(alloc, terms, file, script, &mut nowhere, out, told))
}

/// The same of a stored file, as `run_edit_stored` reads it.
pub fn run_ask_stored<F: Stored, S: Source, O: Sink, E: Sink>(
    alloc: Global,
    manner: Manner,
    file: &F,
    log: &mut ReadLog,
    script: &mut S,
    out: &mut O,
    told: &mut Option<E>,
) -> End
    ensures ends { OverReads log.old log.new (λ file after. (saved : SinkState) → EndsAs
        (run_by (asking manner) true file (S.state script.old) (O.state out.old))
        (run_by (asking manner) true after (S.state script.new) (O.state out.new))
        saved saved result) }
    ensures told { OverReads log.old log.new (λ file after. RemarksEndAs (asking manner) file after
        (S.state script.old) (S.state script.new)
        (option_map E.state told.old) (option_map E.state told.new) result) }
    ensures counted { MatchOption result.fault (log.new.failures ≡ log.old.failures)
        (RunCounts log.old.failures log.new.failures (S.state script.old) (S.state script.new)) }
    ensures leaves { AsksLeave (S.state script.old) (S.state script.new)
        (O.state out.old) (O.state out.new) result }
    ensures follows { Follows log.old log.new }
{
    let mut nowhere = Watched::new(io::sink());
    let terms = asking(manner);
    end_of(run_edit_stored(alloc, terms, file, log, script, &mut nowhere, out, told))
}
