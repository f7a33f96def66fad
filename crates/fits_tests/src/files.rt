//! Files: which open, as what, and what they answer.

use fits_fixtures::{FileText, P0, SMOOTH, file_of, same, writer};
use fits_image::Kind;
use fits_rules::{Axes, Class};
use fits_session::{Edit, Refusal, Session, within};
use std::alloc::{AllocError, Global};
use std::process::Abort;
use std::test::Fail;

/// How many bytes and HDUs a file has, and whether it keeps to the limits.
const LIMITS: &[(u64, u64, bool)] = &[
    (11_520_000_000, 10_000, true),
    (11_520_000_001, 1, false),
    (2_880_000_001, 1, true),
    (2_880, 10_001, false),
];

#[test]
fn limits_are_the_last_that_are_kept(rt: HostRuntime) {
    for (bytes, hdus, is_within) in LIMITS {
        same!(rt; within(*bytes, *hdus), *is_within);
    }
}

/// The bytes that are saved, if there is memory for them.
pub fn saved(alloc: Global, session: &mut Session) -> Result<Vec<u8>, AllocError> {
    let mut sink = writer(alloc, SMOOTH);
    if session.save(&mut sink).is_err() {
        return Err(AllocError);
    }
    let (written, _) = sink.into_inner().into_parts();
    Ok(written)
}

/// The HDUs that `HDUS` describes: no image, an image, an image of unsigned pixels, none without axes.
const ASKED: FileText<'static> = (
    &[
        ("SIMPLE|BITPIX  = 8|NAXIS   = 0|END", 0),
        (
            "XTENSION= 'TABLE'|BITPIX  = 8|NAXIS   = 1|NAXIS1  = 4|END",
            1,
        ),
        (
            "XTENSION= 'IMAGE'|BITPIX  = 16|NAXIS   = 1|NAXIS1  = 1|BZERO   = 32768|END",
            1,
        ),
        (
            "XTENSION= 'IMAGE'|BITPIX  = 8|NAXIS   = 0|OBJECT  = 'M&'|CONTINUE  '31' / Andromeda|KEY     = 1e3|END",
            0,
        ),
    ],
    "tail",
);

/// An HDU, its class, how many axes, cards and names of cards it has, and its kind.
type Described = (usize, Class, usize, usize, usize, Option<Kind>);

const HDUS: &[Described] = &[
    (1, Class::Primary, 0, 3, 3, None),
    (2, Class::Table, 1, 4, 4, None),
    (3, Class::Image, 1, 5, 5, Some(Kind::U16)),
    (4, Class::Image, 0, 6, 6, None),
];

#[test]
fn a_file_describes_each_hdu(rt: HostRuntime) -> Result<(), Fail> {
    let bytes = file_of(rt.alloc(), ASKED)?;
    let mut session = Session::open(rt.alloc(), &bytes)?;
    check_file(&rt, &mut session);
    Ok(())
}

// Whether a file describes the HDUs of `HDUS`, and none before and after them.
fn check_file<R: Abort>(rt: &R, session: &mut Session) {
    for row in HDUS {
        check_hdu(rt, session, *row);
    }
    for h in [0usize, 5] {
        same!(rt; session.shape(h).err(), Some(Refusal::NoHdu), h);
        same!(rt; session.card_count(h), Err(Refusal::NoHdu), h);
        same!(rt; session.names(h).err(), Some(Refusal::NoHdu), h);
        same!(rt; session.kind(h), Err(Refusal::NoHdu), h);
    }
}

// Whether a file describes an HDU so.
fn check_hdu<R: Abort>(rt: &R, session: &mut Session, row: Described) {
    let (h, class, axes, cards, names, kind) = row;
    let shape = session
        .shape(h)
        .map(|shape| (shape.class, shape.axes.as_slice().len()));
    same!(rt; shape, Ok((class, axes)), h);
    same!(rt; session.card_count(h), Ok(cards), h);
    same!(rt; session.names(h).map(|names| names.len()), Ok(names), h);
    same!(rt; session.kind(h), kind.ok_or(Refusal::NotImage), h);
}

/// Axes that no line can say, and why a new image can't have them, asked of one file in turn.
const LONG_AXES: &[(usize, &[u64], Option<Refusal>)] = &[
    (2, &[9_223_372_036_854_775_808], Some(Refusal::Shape)),
    (2, &[0, 9_223_372_036_854_775_808], Some(Refusal::Shape)),
    (2, &[9_223_372_036_854_775_807], Some(Refusal::TooLarge)),
    (1, &[9_223_372_036_854_775_808], Some(Refusal::PrimaryStays)),
    (2, &[0, 9_223_372_036_854_775_807], None),
];

#[test]
fn an_axis_has_64_bits_at_most(rt: HostRuntime) -> Result<(), Fail> {
    let file = file_of(rt.alloc(), (&[(P0, 0)], ""))?;
    let mut session = Session::open(rt.alloc(), &file)?;
    for (at, axes, refusal) in LONG_AXES {
        let edit = Edit::NewImage {
            at: *at,
            kind: Kind::U8,
            axes: Axes::new(axes.to_vec(rt.alloc())?),
        };
        same!(rt; session.edit(edit).err(), *refusal, (at, axes));
    }
    Ok(())
}
