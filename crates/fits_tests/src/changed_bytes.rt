//! Files with one byte changed: what opens is edited, saved and opened again, and answers as before.

use crate::comparing::same_answers;
use crate::files::saved;
use fits_fixtures::{FileText, P0, change, file_of};
use fits_script::{Command, parse_line};
use fits_session::Session;
use std::alloc::AllocError;
use std::process::Abort;
use std::test::Fail;

/// An image with undefined pixels, of unsigned numbers.
const IMAGE: &str =
    "SIMPLE  =                    T / file does conform to FITS standard|BITPIX  =                   16|\
    NAXIS   =                    2|NAXIS1  =                    3|NAXIS2  =                    2|\
    EXTEND  =                    T|BLANK   =               -32768|BSCALE  =                    1|\
    BZERO   =                32768|OBJECT  = 'M 31    '           / Andromeda|DATE-OBS= '2024-02-29T23:59:60.5'|\
    OBSERVER= 'a name that goes on over another car&'|CONTINUE  'd' / observer|EPOCH   =               2000.0|\
    CHECKSUM= '0000000000000000'|DATASUM = '0       '|COMMENT   as it was taken|END";

/// A table of two rows.
const TABLE: &str =
    "XTENSION= 'TABLE   '|BITPIX  =                    8|NAXIS   =                    2|\
    NAXIS1  =                   10|NAXIS2  =                    2|PCOUNT  =                    0|\
    GCOUNT  =                    1|TFIELDS =                    1|TBCOL1  =                    1|\
    TFORM1  = 'I10     '|TTYPE1  = 'COUNT   '|EXTNAME = 'COUNTS  '|EXTVER  =                    2|END";

/// Random groups: two, of one parameter and three numbers.
const GROUPS: &str =
    "SIMPLE  =                    T|BITPIX  =                   16|NAXIS   =                    2|\
    NAXIS1  =                    0|NAXIS2  =                    3|GROUPS  =                    T|\
    PCOUNT  =                    1|GCOUNT  =                    2|PTYPE1  = 'DATE    '|\
    PSCAL1  =                  1.0|PZERO1  =                  0.0|END";

/// A file, and which of its HDUs has the header whose bytes are changed, and where it begins.
const FILES: &[(FileText<'static>, usize, usize)] = &[
    ((&[(IMAGE, 1)], ""), 1, 0),
    ((&[(P0, 0), (TABLE, 1)], "tail"), 2, 2880),
    ((&[(GROUPS, 1)], ""), 1, 0),
];

/// What a byte becomes: none of text, a space, `&`, a quote, a slash, and others.
const BYTES: &[u8] = &[0, 32, 38, 39, 47, 127, 255];

#[test]
fn a_file_with_a_changed_byte_is_edited_as_any(rt: HostRuntime) -> Result<(), Fail> {
    for (file, h, start) in FILES {
        let line = if *h == 1 {
            "set 1 NEW 'x'"
        } else {
            "set 2 NEW 'x'"
        };
        let mut bytes = file_of(rt.alloc(), *file)?;
        for place in *start..start.wrapping_add(2880) {
            for byte in BYTES {
                let before = change(&mut bytes, place, *byte);
                check_file(&rt, &bytes, line)?;
                change(&mut bytes, place, before);
            }
        }
    }
    Ok(())
}

// Whether a file, if it opens, answers after an edit as what is saved does.
fn check_file<R: Abort + AllocGlobal>(rt: &R, bytes: &[u8], line: &str) -> Result<(), AllocError> {
    let Ok(mut session) = Session::open(rt.alloc(), bytes) else {
        return Ok(());
    };
    if let Ok(Command::Edit(edit)) = parse_line(rt.alloc(), line.as_bytes()) {
        let _ = session.edit(edit);
    }
    let left = saved(rt.alloc(), &mut session)?;
    match Session::open(rt.alloc(), &left) {
        Ok(mut fresh) => same_answers(rt, &mut session, &mut fresh),
        Err(_) => Err(AllocError),
    }
}
