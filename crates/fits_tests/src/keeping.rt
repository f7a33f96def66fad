//! HDUs that are kept stamped: an edit of one and its stamp are made together or not at all, whatever memory there is.

use crate::files::saved;
use crate::memory::{answers_as, edit_said, opened};
use fits_fixtures::{FileText, P0, PIXEL, holds, same, zeroed_file_of};
use fits_hdu::{Verdict, Verdicts};
use fits_session::Refusal;
use std::alloc::AllocError;
use std::process::Abort;

/// A file whose second HDU is kept.
const FILE: FileText<'static> = (&[(P0, 0), (PIXEL, 1)], "tail");

/// Lines that edit that HDU, whose cards at 7 and 8 are CHECKSUM and DATASUM, and the refusal that stands where memory
/// doesn't.
const LINES: &[(&str, Option<Refusal>)] = &[
    ("ins 2 7 COMMENT x", None),
    ("put 2 7 COMMENT x", None),
    ("del 2 8", None),
    ("mov 2 7 8", None),
    ("set 2 KEY 'it''s' / c", None),
    ("set 2 DATASUM '1'", None),
    ("unset 2 CHECKSUM", None),
    ("fill 2 1:1 7", None),
    ("write 2 1:1 -7", None),
    ("reshape 2 i32 2,3", None),
    ("stamp 2", None),
    ("keep 2", None),
    ("ins 2 2 X", Some(Refusal::Shape)),
    ("fill 2 2:2 7", Some(Refusal::BadRect)),
    ("fill 2 1:1 32768", Some(Refusal::Range)),
    ("reshape 2 u8 999999999999999999", Some(Refusal::TooLarge)),
];

/// What is said of sums that are right.
const RIGHT: Verdicts = Verdicts {
    datasum: Verdict::Right,
    checksum: Verdict::Right,
};

// Makes the edit of a line of a kept HDU, and tells whether it comes to the same as the edit and then a stamp. Err: the
// memory for a comparison was refused.
fn check_line<R: Abort + AllocGlobal>(
    rt: &R,
    line: &str,
    refusal: Option<Refusal>,
) -> Result<(), AllocError> {
    let unstamped = zeroed_file_of(rt.alloc(), FILE)?;
    let mut session = opened(rt, &unstamped)?;
    if session.edit(edit_said(rt, "keep 2")?).is_err() {
        same!(rt; session.kept(2), Ok(false));
        return answers_as(rt, &mut session, &unstamped);
    }
    let before = saved(rt.alloc(), &mut session)?;
    let after = stamped_after(rt, &before, line, refusal)?;
    let refused = session.edit(edit_said(rt, line)?).err();
    holds!(rt; refused == refusal || refused == Some(Refusal::Memory), line);
    same!(rt; session.kept(2), Ok(true), line);
    same!(rt; session.verdicts(2), Ok(RIGHT), line);
    let bytes = if refused.is_none() { after } else { before };
    answers_as(rt, &mut session, &bytes)
}

// The bytes of a file after the edit of a line, and a stamp of HDU 2. Err: memory was refused.
fn stamped_after<R: Abort + AllocGlobal>(
    rt: &R,
    before: &[u8],
    line: &str,
    refusal: Option<Refusal>,
) -> Result<Vec<u8>, AllocError> {
    let mut session = opened(rt, before)?;
    for (line, wanted) in [(line, refusal), ("stamp 2", None)] {
        let refused = session.edit(edit_said(rt, line)?).err();
        if refused == Some(Refusal::Memory) {
            return Err(AllocError);
        }
        same!(rt; refused, wanted, line);
    }
    saved(rt.alloc(), &mut session)
}

#[test]
fn refused_memory_at_an_edit_of_a_kept_hdu(rt: HostRuntime) {
    for (line, refusal) in LINES {
        let _ = check_line(&rt, line, *refusal);
    }
}
