//! Refused memory: each of these tests is run once for each of its requests, with that one refused.
//!
//! Where the request belongs to what a test sets up, the test gives up quietly. After a refusal the next try finds
//! all as it was.

use crate::comparing::same_answers;
use fits_fixtures::{
    COMMENTS, FileText, P0, PIXEL, add_cards, end_header, file_of, hdu_of, holds, name_of, same,
    zeroed_file_of,
};
use fits_script::{Command, LineFault, parse_line};
use fits_session::{Edit, OpenFault, Refusal, Session};
use std::alloc::{AllocError, Global};
use std::process::Abort;

/// Two HDUs and a tail; the first has 35 cards.
fn full_file(alloc: Global, more: &str) -> Result<Vec<u8>, AllocError> {
    let mut bytes = Vec::new(alloc);
    for text in ["SIMPLE|BITPIX  = 8|NAXIS   = 0", COMMENTS, more] {
        add_cards(&mut bytes, text)?;
    }
    end_header(&mut bytes)?;
    let rest: FileText<'_> = (&[(PIXEL, 1)], "tail");
    bytes.extend_from_slice(&file_of(alloc, rest)?)?;
    Ok(bytes)
}

#[test]
fn refused_memory_at_opening(rt: HostRuntime) {
    let Ok(bytes) = full_file(rt.alloc(), "END") else {
        return;
    };
    for _ in 0..2 {
        match Session::open(rt.alloc(), &bytes) {
            Ok(session) => same!(rt; session.hdus(), 2),
            Err(why) => same!(rt; why, OpenFault::Memory),
        }
        // what begins otherwise is no file, whatever memory there is
        let why = Session::open(rt.alloc(), b"SIMPLE").err();
        same!(rt; why, Some(OpenFault::NotFits));
    }
}

/// A line that edits the second HDU of a file, the cards that this has before and after, and the refusal that stands
/// where memory doesn't.
type EditText<'a> = (&'a str, &'a str, &'a str, Option<Refusal>);

const EDITS: &[EditText<'static>] = &[
    ("ins 2 5 X", "A|B|END", "X|A|B|END", None),
    ("put 2 5 X", "A|B|END", "X|B|END", None),
    ("del 2 5", "A|B|END", "B|END", None),
    ("mov 2 5 6", "A|B|END", "B|A|END", None),
    (
        "set 2 KEY 'it''s' / c",
        "A|KEY     = 'a&'|CONTINUE  'b'|B|END",
        "A|KEY     = 'it''s   '           / c|B|END",
        None,
    ),
    (
        "set 2 NEW 7",
        "A|END",
        "A|NEW     =                    7|END",
        None,
    ),
    // a string over CONTINUE cards
    (
        "set 2 KEY '0123456789012345678901234567890123456789012345678901234567890123456789012345678901234567890123456789' / c",
        "A|END",
        "A|KEY     = '0123456789012345678901234567890123456789012345678901234567890123456&'|\
        CONTINUE  '789012345678901234567890123456789' / c|END",
        None,
    ),
    // an extension that wasn't called anything is, and one is called as another
    (
        "set 2 EXTNAME 'B'",
        "A|END",
        "A|EXTNAME = 'B       '|END",
        None,
    ),
    (
        "set 2 EXTNAME 'LAST'",
        "EXTNAME = 'B'|END",
        "EXTNAME = 'LAST    '|END",
        None,
    ),
    (
        "unset 2 KEY",
        "A|KEY     = 'a&'|CONTINUE  'b'|B|END",
        "A|B|END",
        None,
    ),
    (
        "stamp 2",
        "A|END",
        "A|CHECKSUM= 'RAF9T2D7R9D7R9D7'|DATASUM = '0       '|END",
        None,
    ),
    ("ins 2 2 X", "A|END", "A|END", Some(Refusal::Shape)),
    ("set 2 NAXIS 2", "A|END", "A|END", Some(Refusal::Shape)),
    ("del 2 4", "A|END", "A|END", Some(Refusal::Shape)),
];

// A file of three HDUs, the second with these cards after its mandatory ones, the last with a name, and a tail.
fn edited_file(alloc: Global, cards: &str) -> Result<Vec<u8>, AllocError> {
    let mut bytes = hdu_of(alloc, P0, 0)?;
    add_cards(
        &mut bytes,
        "XTENSION= 'IMAGE   '|BITPIX  = 16|NAXIS   = 1|NAXIS1  = 0",
    )?;
    add_cards(&mut bytes, cards)?;
    end_header(&mut bytes)?;
    add_cards(
        &mut bytes,
        "XTENSION= 'IMAGE   '|BITPIX  = 8|NAXIS   = 0|EXTNAME = 'LAST'|END",
    )?;
    end_header(&mut bytes)?;
    bytes.extend_from_slice(b"tail")?;
    Ok(bytes)
}

// Makes the edit of a line, if there is memory for it. Err: the memory for a comparison was refused.
fn check_edit<R: Abort + AllocGlobal>(rt: &R, text: EditText<'_>) -> Result<(), AllocError> {
    let (line, before, after, refusal) = text;
    let before = edited_file(rt.alloc(), before)?;
    let after = edited_file(rt.alloc(), after)?;
    check_line(rt, line, &before, &after, refusal, true)
}

// Makes the edit of a line in a file, and tells whether it comes to the one that is wanted or is refused so; memory may
// run out in it or not. Err: the memory for a comparison was refused.
fn check_line<R: Abort + AllocGlobal>(
    rt: &R,
    line: &str,
    before: &[u8],
    after: &[u8],
    refusal: Option<Refusal>,
    takes_memory: bool,
) -> Result<(), AllocError> {
    let mut session = opened(rt, before)?;
    let refused = session.edit(edit_said(rt, line)?).err();
    holds!(rt; refused == refusal || (takes_memory && refused == Some(Refusal::Memory)), line);
    // nothing else is refused after a refusal
    let bytes = if refused.is_none() { after } else { before };
    answers_as(rt, &mut session, bytes)
}

/// Whether a file gives the answers of these bytes. Err: the memory for a comparison was refused.
pub fn answers_as<R: Abort + AllocGlobal>(
    rt: &R,
    session: &mut Session,
    bytes: &[u8],
) -> Result<(), AllocError> {
    let mut fresh = opened(rt, bytes)?;
    same_answers(rt, session, &mut fresh)
}

/// A file that opens, if there is memory for it.
pub fn opened<R: Abort + AllocGlobal>(rt: &R, bytes: &[u8]) -> Result<Session, AllocError> {
    match Session::open(rt.alloc(), bytes) {
        Ok(session) => Ok(session),
        Err(why) => {
            same!(rt; why, OpenFault::Memory);
            Err(AllocError)
        }
    }
}

/// The edit that a line says, if there is memory for it.
pub fn edit_said<R: Abort + AllocGlobal>(rt: &R, line: &str) -> Result<Edit, AllocError> {
    match parse_line(rt.alloc(), line.as_bytes()) {
        Ok(Command::Edit(edit)) => Ok(edit),
        said => {
            same!(rt; said.err(), Some(LineFault::Memory), line);
            Err(AllocError)
        }
    }
}

/// A new image of four pixels, and one without.
const NEW_U16: &str =
    "XTENSION= 'IMAGE   '|BITPIX  =                   16|NAXIS   =                    2|\
    NAXIS1  =                    2|NAXIS2  =                    2|PCOUNT  =                    0|\
    GCOUNT  =                    1|BSCALE  =                    1|BZERO   =                32768|END";

const NEW_U8: &str =
    "XTENSION= 'IMAGE   '|BITPIX  =                    8|NAXIS   =                    0|\
    PCOUNT  =                    0|GCOUNT  =                    1|END";

/// The image of one pixel made one of six pixels of 32 bits, and one of none with an offset.
const RESHAPED_I32: &str =
    "XTENSION= 'IMAGE   '|BITPIX  =                   32|NAXIS   =                    2|\
    NAXIS1  =                    2|NAXIS2  =                    3|PCOUNT  =                    0|\
    GCOUNT  =                    1|END";

const RESHAPED_U16: &str =
    "XTENSION= 'IMAGE   '|BITPIX  =                   16|NAXIS   =                    1|\
    NAXIS1  =                    0|PCOUNT  =                    0|GCOUNT  =                    1|\
    BSCALE  =                    1|BZERO   =                32768|END";

/// Real numbers, and numbers that are scaled.
const REALS: &str = "XTENSION= 'IMAGE   '|BITPIX  = -32|NAXIS   = 0|PCOUNT  = 0|GCOUNT  = 1|END";

const SCALED: &str =
    "XTENSION= 'IMAGE   '|BITPIX  = 8|NAXIS   = 0|PCOUNT  = 0|GCOUNT  = 1|BSCALE  = 2|END";

/// Two HDUs whose data are zeros, and a tail.
const TWO: FileText<'static> = (&[(P0, 0), (PIXEL, 1)], "tail");

/// Three, and nothing after them.
const THREE: FileText<'static> = (&[(P0, 0), (PIXEL, 1), (NEW_U8, 0)], "");

/// A line that edits the HDUs of a file, the file before, the one after or the refusal, and whether memory may run out
/// in it.
type HduEditText<'a> = (&'a str, FileText<'a>, Result<FileText<'a>, Refusal>, bool);

const HDU_EDITS: &[HduEditText<'static>] = &[
    (
        "new 2 u16 2,2",
        TWO,
        Ok((&[(P0, 0), (NEW_U16, 1), (PIXEL, 1)], "tail")),
        true,
    ),
    (
        "new 3 u8 -",
        TWO,
        Ok((&[(P0, 0), (PIXEL, 1), (NEW_U8, 0)], "tail")),
        true,
    ),
    (
        "new 2 u64 999999999999999999",
        TWO,
        Err(Refusal::TooLarge),
        true,
    ),
    ("new 4 u8 2", TWO, Err(Refusal::NoHdu), false),
    ("new 1 u8 2", TWO, Err(Refusal::PrimaryStays), false),
    (
        "reshape 2 i32 2,3",
        TWO,
        Ok((&[(P0, 0), (RESHAPED_I32, 1)], "tail")),
        true,
    ),
    (
        "reshape 2 u16 0",
        TWO,
        Ok((&[(P0, 0), (RESHAPED_U16, 0)], "tail")),
        true,
    ),
    (
        "reshape 2 u8 999999999999999999",
        TWO,
        Err(Refusal::TooLarge),
        true,
    ),
    (
        "reshape 2 u8 2,2",
        (&[(P0, 0), (NEW_U16, 1)], ""),
        Err(Refusal::Range),
        true,
    ),
    (
        "reshape 2 i8 1",
        (&[(P0, 0), (SCALED, 0)], ""),
        Err(Refusal::Shape),
        true,
    ),
    ("reshape 3 u8 1", TWO, Err(Refusal::NoHdu), false),
    (
        "reshape 2 u8 1",
        (&[(P0, 0), (REALS, 0)], ""),
        Err(Refusal::NotImage),
        false,
    ),
    // taking an HDU out asks for none
    ("rm 2", TWO, Ok((&[(P0, 0)], "tail")), false),
    ("rm 2", THREE, Ok((&[(P0, 0), (NEW_U8, 0)], "")), false),
    ("rm 1", TWO, Err(Refusal::PrimaryStays), false),
    ("rm 3", TWO, Err(Refusal::NoHdu), false),
    // nor do edits of pixels
    ("fill 2 1:1 0", TWO, Ok(TWO), false),
    ("write 2 1:1 0", TWO, Ok(TWO), false),
    ("write 2 1:1 32768", THREE, Err(Refusal::Range), false),
];

// Makes an edit of HDUs. Err: the memory for a file or a comparison was refused.
fn check_hdu_edit<R: Abort + AllocGlobal>(rt: &R, text: HduEditText<'_>) -> Result<(), AllocError> {
    let (line, before, wanted, takes_memory) = text;
    let after = zeroed_file_of(rt.alloc(), wanted.unwrap_or(before))?;
    let before = zeroed_file_of(rt.alloc(), before)?;
    check_line(rt, line, &before, &after, wanted.err(), takes_memory)
}

#[test]
fn refused_memory_at_an_edit_of_hdus(rt: HostRuntime) {
    for text in HDU_EDITS {
        let _ = check_hdu_edit(&rt, *text);
    }
}

#[test]
fn refused_memory_at_an_edit(rt: HostRuntime) {
    for text in EDITS {
        let _ = check_edit(&rt, *text);
    }
}

/// A line, why it is no command, and whether memory may run out instead: a line without a reading, and one that holds
/// no text and no axes, need none.
const LINES: &[(&str, Option<LineFault>, bool)] = &[
    ("set 1 KEY 'it''s' / c", None, true),
    ("new 2 u16 3,2", None, true),
    ("reshape 2 u16 3,2", None, true),
    ("reshape 2 u16 3,", Some(LineFault::Bad), false),
    ("set 1 KEY 'open", Some(LineFault::Bad), false),
    ("put 1 4 X", None, false),
    ("rm 2", None, false),
    ("new 2 u8 3,", Some(LineFault::Bad), false),
    ("new 2 f32 3", Some(LineFault::Bad), false),
    ("new 2 u8 -", None, false),
    ("fill 2 1:2 7", None, true),
    ("write 2 1:2 7 -7", None, true),
    ("rect 2 1:2", None, true),
    ("fill 2 1:2 x", Some(LineFault::Bad), false),
    ("write 2 1:2 7 x", Some(LineFault::Bad), false),
    ("rect 2 1:2,x", Some(LineFault::Bad), false),
];

#[test]
fn refused_memory_at_a_line(rt: HostRuntime) {
    for (line, fault, takes_memory) in LINES {
        for _ in 0..2 {
            let found = parse_line(rt.alloc(), line.as_bytes()).err();
            holds!(rt; found == *fault || (*takes_memory && found == Some(LineFault::Memory)), line);
        }
    }
}

#[test]
fn refused_memory_at_a_query(rt: HostRuntime) {
    let Ok(bytes) = full_file(rt.alloc(), "END") else {
        return;
    };
    let Ok(mut session) = Session::open(rt.alloc(), &bytes) else {
        return;
    };
    ask(&rt, &mut session);
    let _ = answers_as(&rt, &mut session, &bytes);
}

// Asks for what may want memory, and for a name that isn't there, which wants none.
fn ask<R: Abort>(rt: &R, session: &mut Session) {
    let why = session.value(2, &name_of("XTENSION")).err();
    holds!(rt; matches!(why, None | Some(Refusal::Memory)));
    let why = session.value(2, &name_of("ABSENT")).err();
    same!(rt; why, Some(Refusal::NoKey));
    let why = session.positions(2, &name_of("XTENSION")).err();
    holds!(rt; matches!(why, None | Some(Refusal::Memory)));
    // a name that isn't there has no places, whatever memory there is
    let count = session
        .positions(2, &name_of("ABSENT"))
        .map(|places| places.len());
    same!(rt; count, Ok(0));
    let why = session.names(2).err();
    holds!(rt; matches!(why, None | Some(Refusal::Memory)));
    let why = session.rect(2, &[1], &[1]).err();
    holds!(rt; matches!(why, None | Some(Refusal::Memory)));
    let why = session.rect(2, &[2], &[1]).err();
    same!(rt; why, Some(Refusal::BadRect));
    let _ = session.offsets();
    let _ = session.report();
}
