//! Runs over streams of which a call fails: each call of each stream in turn.

use fits_cli::{End, Fault, Level, run_edit, run_verify};
use fits_fixtures::{
    P0, Plan, PlannedReader, PlannedWriter, SMOOTH, hdu_of, holds, reader, same, writer,
};
use fits_stream::Watched;
use std::alloc::{AllocError, Global};
use std::process::Abort;
use std::test::Fail;

/// A stream of a run.
#[derive(Clone, Copy, PartialEq, Eq, Debug)]
enum Stream {
    File,
    Script,
    Answers,
    Saved,
}

const STREAMS: &[Stream] = &[Stream::File, Stream::Script, Stream::Answers, Stream::Saved];

/// Scripts over the shortest file, and their answers.
const RUNS: &[(&str, &str)] = &[
    (
        "off\nsum 1\nrep\nstat 1",
        "1 0 2880 2880\ndatasum 0 verdicts 0 0\nerrors 0 warnings 0\nline 4: refused 9 NotImage\n",
    ),
    (
        "set 1 KEY 'aaaaaaaaaaaaaaaaaaaaaaaaaaaaaaaaaaaaaaaaaaaaaaaaaaaaaaaaaaaaaaaaaa''\
        bbbbbbbbbbbbbbbbbbbbbbbbbbbbbbbbbbbbbbbbbbbbbbbbbbbbbbbbbbbbbbbbbbbbbbbbb'\n\
        put 1 4 KEY     = 'x'\nrep\n\
        put 1 4 KEY     = 'aaaaaaaaaaaaaaaaaaaaaaaaaaaaaaaaaaaaaaaaaaaaaaaaaaaaaaaaaaaaaaaaaa&'\nrep",
        "W09 1 5 CONTINUE without an open string\nW09 1 6 CONTINUE without an open string\n\
        errors 0 warnings 2\nerrors 0 warnings 0\n",
    ),
    (
        "new 2 u16 3\noff\nstat 2\nwrite 2 1:3 0 65535 1\nstat 2\nrect 2 1:3\nsum 2\nwrite 2 1:3 0 1\nrm 1",
        "1 0 2880 2880\n2 2880 5760 8640\ndefined 3 blank 0 min 32768 max 32768 sum 98304\n\
        defined 3 blank 0 min 0 max 65535 sum 65536\n0 65535 1\ndatasum 98304 verdicts 0 0\n\
        line 8: refused 11 WrongCount\nline 9: refused 13 PrimaryStays\n",
    ),
];

/// What a run came to, and how many calls of its stream there were.
#[derive(Drop)]
struct Ran {
    end: End,
    printed: Vec<u8>,
    saved: Vec<u8>,
    calls: usize,
}

// The plan of a stream, where one of them has this plan and the others run smoothly.
fn plan_of(stream: Stream, planned: Stream, plan: Plan) -> Plan {
    if stream == planned { plan } else { SMOOTH }
}

fn read_calls(stream: Watched<PlannedReader<'_>>) -> usize {
    stream.into_inner().calls
}

fn written(stream: Watched<PlannedWriter>) -> (Vec<u8>, usize) {
    stream.into_inner().into_parts()
}

// Runs a script over the shortest file, with a plan for one of its streams.
fn run_of(alloc: Global, script: &str, planned: Stream, plan: Plan) -> Result<Ran, AllocError> {
    let bytes = hdu_of(alloc, P0, 0)?;
    let mut file = reader(&bytes, plan_of(Stream::File, planned, plan));
    let mut lines = reader(script.as_bytes(), plan_of(Stream::Script, planned, plan));
    let mut saved = writer(alloc, plan_of(Stream::Saved, planned, plan));
    let mut out = writer(alloc, plan_of(Stream::Answers, planned, plan));
    let end = run_edit(alloc, &mut file, &mut lines, &mut saved, &mut out);
    let (of_file, of_script) = (read_calls(file), read_calls(lines));
    let ((saved, of_saved), (printed, of_answers)) = (written(saved), written(out));
    let calls = match planned {
        Stream::File => of_file,
        Stream::Script => of_script,
        Stream::Saved => of_saved,
        Stream::Answers => of_answers,
    };
    Ok(Ran {
        end,
        printed,
        saved,
        calls,
    })
}

// Whether a run ended by the failed call of a stream, with a front of what the whole one prints and saves: nothing was
// saved before all was printed.
fn check_front<R: Abort>(rt: &R, stream: Stream, found: &Ran, whole: &Ran) {
    let is_read = matches!(stream, Stream::File | Stream::Script);
    same!(rt; found.end.status, 3, stream);
    holds!(rt; matches!(found.end.fault, Some(Fault::ReadFailed)) == is_read, stream);
    holds!(rt; matches!(found.end.fault, Some(Fault::WriteFailed)) != is_read, stream);
    holds!(rt; whole.printed.starts_with(&found.printed), stream);
    holds!(rt; whole.saved.starts_with(&found.saved), stream);
    holds!(rt; found.saved.is_empty() || stream == Stream::Saved, stream);
    holds!(rt; stream != Stream::Saved || found.printed == whole.printed, stream);
}

#[test]
fn each_call_of_an_edit_that_fails_ends_it(rt: HostRuntime) -> Result<(), Fail> {
    for (script, answers) in RUNS {
        let whole = run_of(rt.alloc(), script, Stream::File, SMOOTH)?;
        holds!(rt; whole.end.fault.is_none(), script);
        same!(rt; whole.printed.as_slice(), answers.as_bytes(), script);
        for stream in STREAMS {
            for step in [1usize, 100, 1_000_000] {
                check_calls(&rt, script, *stream, step, &whole)?;
            }
        }
    }
    Ok(())
}

// Whether each call of a stream that fails ends a run, up to the first that isn't made.
fn check_calls<R: Abort + AllocGlobal>(
    rt: &R,
    script: &str,
    stream: Stream,
    step: usize,
    whole: &Ran,
) -> Result<(), AllocError> {
    for failing in 1..10_000usize {
        let found = run_of(rt.alloc(), script, stream, Plan { step, failing })?;
        if found.calls < failing {
            same!(rt; found.end.status, whole.end.status, stream);
            holds!(rt; found.printed == whole.printed, stream);
            holds!(rt; found.saved == whole.saved, stream);
            return Ok(());
        }
        check_front(rt, stream, &found, whole);
    }
    Ok(())
}

#[test]
fn a_writer_that_takes_nothing_fails(rt: HostRuntime) -> Result<(), Fail> {
    let plan = Plan {
        step: 0,
        failing: 0,
    };
    for (script, _) in RUNS {
        let whole = run_of(rt.alloc(), script, Stream::File, SMOOTH)?;
        for stream in [Stream::Answers, Stream::Saved] {
            let found = run_of(rt.alloc(), script, stream, plan)?;
            check_front(&rt, stream, &found, &whole);
        }
    }
    Ok(())
}

// The report of the shortest file with bytes after it, with plans for both streams.
fn verified(alloc: Global, of_file: Plan, of_text: Plan) -> Result<(Ran, usize), AllocError> {
    let mut bytes = hdu_of(alloc, P0, 0)?;
    bytes.extend_from_slice(b"trailer")?;
    let mut file = reader(&bytes, of_file);
    let mut out = writer(alloc, of_text);
    let end = run_verify(alloc, Level::All, &mut file, &mut out);
    let reads = read_calls(file);
    let (printed, calls) = written(out);
    let found = Ran {
        end,
        printed,
        saved: Vec::new(alloc),
        calls,
    };
    Ok((found, reads))
}

#[test]
fn each_call_of_a_report_that_fails_ends_it(rt: HostRuntime) -> Result<(), Fail> {
    let (whole, reads) = verified(rt.alloc(), SMOOTH, SMOOTH)?;
    let text = b"W26 2 0 bytes after the last HDU\nerrors 0 warnings 1\n";
    same!(rt; whole.printed.as_slice(), text.as_slice());
    for failing in 1..=reads {
        let (found, _) = verified(rt.alloc(), Plan { failing, ..SMOOTH }, SMOOTH)?;
        check_front(&rt, Stream::File, &found, &whole);
    }
    for step in [1usize, 7] {
        for failing in 1..200usize {
            let (found, _) = verified(rt.alloc(), SMOOTH, Plan { step, failing })?;
            if found.calls < failing {
                holds!(rt; found.printed == whole.printed, failing);
                break;
            }
            check_front(&rt, Stream::Answers, &found, &whole);
        }
    }
    Ok(())
}
