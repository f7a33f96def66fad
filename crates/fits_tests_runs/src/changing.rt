//! Runs over a stored file whose reads agree, disagree, or end early.

use fits_cli::{Edited, Fault, Level, Reread, Saves, Terms, run_edit_stored};
use fits_fixtures::{
    ChangingBytes, P0, PIXEL, PlannedWriter, SMOOTH, holds, reader, same, writer, zeroed_file_of,
};
use fits_stream::{ReadLog, Watched};
use std::alloc::{AllocError, Global};
use std::process::Abort;
use std::test::Fail;

/// Where the first pixel of each file lies.
const PIXEL_AT: usize = 2 * 2880;

/// An image that is longer than what is read of a file at once, and its blocks.
const WIDE: &str =
    "XTENSION= 'IMAGE   '|BITPIX  =                    8|NAXIS   =                    1|\
    NAXIS1  =                66000|PCOUNT  =                    0|GCOUNT  =                    1|END";

const WIDE_BLOCKS: usize = 23;

/// What is saved of each file, whatever it was before.
const TERMS: Terms = Terms {
    sums: false,
    extended: false,
    tables: false,
    spare: false,
    saves: Saves::Made {
        whole: false,
        check: Level::Quiet,
    },
};

/// What becomes of the file once it is opened.
#[derive(Clone, Copy, PartialEq, Eq, Debug)]
enum Change {
    /// It stays.
    None,
    /// A byte of the pixel, which is read again.
    Pixel,
    /// A byte of the primary header, which isn't.
    Header,
    /// It ends within the data unit.
    End,
}

/// A script, a change, what is answered, and whether that is the end of the run.
type Row = (&'static str, Change, &'static str, bool);

/// Runs over an HDU of a pixel, which passes by as the file is opened.
const RUNS: &[Row] = &[
    ("rect 2 1:1", Change::None, "0\n", false),
    ("rect 2 1:1", Change::Header, "0\n", false),
    ("rect 2 1:1", Change::Pixel, "", true),
    ("rect 2 1:1", Change::End, "", true),
    ("sum 2", Change::None, "datasum 0 verdicts 0 0\n", false),
    // The answers stand, and the copy doesn't.
    ("sum 2", Change::Pixel, "datasum 0 verdicts 0 0\n", true),
    ("sum 2", Change::End, "datasum 0 verdicts 0 0\n", true),
    // All that is read again is in memory.
    ("fill 2 1:1 7", Change::None, "", false),
    ("rm 2", Change::Pixel, "", false),
];

/// Runs over one whose data are unread until a line asks for them: they are what they are by then.
const UNREAD: &[Row] = &[
    ("get 2 BITPIX", Change::Pixel, "integer 8\n", false),
    ("rect 2 1:1", Change::Pixel, "1\n", false),
    (
        "sum 2\nrect 2 1:1",
        Change::Pixel,
        "datasum 16777216 verdicts 0 0\n1\n",
        false,
    ),
    // The answer stands, and the copy doesn't.
    ("get 2 BITPIX", Change::End, "integer 8\n", true),
    ("sum 2", Change::End, "", true),
];

fn written(stream: Watched<PlannedWriter>) -> Vec<u8> {
    let (bytes, _) = stream.into_inner().into_parts();
    bytes
}

// Puts a byte at a place that is there.
fn put(bytes: &mut [u8], place: usize, new: u8) {
    if let Some(byte) = bytes.get_mut(place) {
        *byte = new;
    }
}

// The bytes that stand there after a change.
fn changed(alloc: Global, bytes: &[u8], change: Change) -> Result<Vec<u8>, AllocError> {
    let mut then = Vec::from_slice(alloc, bytes)?;
    match change {
        Change::None => {}
        Change::Pixel => put(&mut then, PIXEL_AT, 1),
        Change::Header => put(&mut then, 79, b'x'),
        Change::End => then.truncate(PIXEL_AT + 1),
    }
    Ok(then)
}

// How many reads the opening of a file makes: as many as a run that answers nothing and saves an HDU without data.
fn reads_at_opening(alloc: Global, bytes: &[u8]) -> Result<usize, AllocError> {
    let file = ChangingBytes::new(bytes, bytes, 0);
    let mut script = reader(b"rm 2", SMOOTH);
    let mut saved = writer(alloc, SMOOTH);
    let mut out = writer(alloc, SMOOTH);
    let mut told: Option<Watched<PlannedWriter>> = None;
    let _ = run_edit_stored(
        alloc,
        TERMS,
        &file,
        &mut ReadLog::none(),
        &mut script,
        &mut saved,
        &mut out,
        &mut told,
    );
    Ok(file.reads())
}

#[test]
fn a_file_is_what_its_reads_gave(rt: HostRuntime) -> Result<(), Fail> {
    let small = zeroed_file_of(rt.alloc(), (&[(P0, 0), (PIXEL, 1)], ""))?;
    check_rows(&rt, &small, RUNS)?;
    let large = zeroed_file_of(rt.alloc(), (&[(P0, 0), (WIDE, WIDE_BLOCKS)], ""))?;
    check_rows(&rt, &large, UNREAD)?;
    Ok(())
}

// Whether each of these runs over a file of these bytes comes to what it is to.
fn check_rows<R: Abort + AllocGlobal>(
    rt: &R,
    bytes: &[u8],
    rows: &[Row],
) -> Result<(), AllocError> {
    let opening = reads_at_opening(rt.alloc(), bytes)?;
    for (script, change, answers, stops) in rows {
        let then = changed(rt.alloc(), bytes, *change)?;
        let file = ChangingBytes::new(bytes, &then, opening);
        let mut lines = reader(script.as_bytes(), SMOOTH);
        let mut saved = writer(rt.alloc(), SMOOTH);
        let mut out = writer(rt.alloc(), SMOOTH);
        let mut told: Option<Watched<PlannedWriter>> = None;
        let ended = run_edit_stored(
            rt.alloc(),
            TERMS,
            &file,
            &mut ReadLog::none(),
            &mut lines,
            &mut saved,
            &mut out,
            &mut told,
        );
        same!(rt; written(out).as_slice(), answers.as_bytes(), script);
        match ended {
            Ok(Edited::Done(status)) => {
                same!(rt; status, 0, script);
                holds!(rt; !stops, script);
                let (header, _) = bytes.split_at(bytes.len().min(2880));
                holds!(rt; written(saved).starts_with(header), script);
            }
            Err(Fault::Reread(Reread::Changed)) => {
                holds!(rt; *stops, script);
                holds!(rt; then.starts_with(&written(saved)), script);
            }
            _ => holds!(rt; false, script),
        }
    }
    Ok(())
}
