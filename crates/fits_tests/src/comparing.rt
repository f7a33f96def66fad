//! Whether two sessions give the same answers to every query.

use crate::files::saved;
use fits_card::Name;
use fits_fixtures::{holds, line_of, name_of, same};
use fits_hdu::{Stats, Verdicts};
use fits_image::Kind;
use fits_rules::{Class, Shape};
use fits_session::{Refusal, Session};
use std::alloc::{AllocError, Global};
use std::process::Abort;

/// The names that are asked for.
const NAMES: &[&str] = &["KEY     ", "NEW     ", "EXTNAME ", "NAXIS   ", "ABSENT  "];

/// Whether two sessions give the same answers. Err: the memory for a comparison was refused.
pub fn same_answers<R: Abort + AllocGlobal>(
    rt: &R,
    one: &mut Session,
    other: &mut Session,
) -> Result<(), AllocError> {
    same!(rt; one.hdus(), other.hdus());
    for h in 0..one.hdus().wrapping_add(2) {
        same_numbers(rt, one, other, h);
        same_lists(rt, one, other, h)?;
        for name in NAMES {
            same_keyword(rt, one, other, h, &name_of(name))?;
        }
    }
    same!(rt; one.counts(), other.counts());
    let offsets = one.offsets()?;
    holds!(rt; offsets == other.offsets()?);
    let report = one.report()?;
    holds!(rt; report == other.report()?);
    let bytes = saved(rt.alloc(), one)?;
    holds!(rt; bytes == saved(rt.alloc(), other)?);
    Ok(())
}

/// How many cards an HDU has, its kind, its statistics, its sum and its verdicts.
type Numbers = (
    Result<usize, Refusal>,
    Result<Kind, Refusal>,
    Result<Stats, Refusal>,
    Result<u32, Refusal>,
    Result<Verdicts, Refusal>,
);

fn numbers_of(session: &Session, h: usize) -> Numbers {
    (
        session.card_count(h),
        session.kind(h),
        session.stats(h),
        session.datasum(h),
        session.verdicts(h),
    )
}

/// A shape: its class, BITPIX, axes, PCOUNT and GCOUNT.
type ShapeText<'a> = (Class, i64, &'a [u64], u64, u64);

fn text_of(shape: &Shape) -> ShapeText<'_> {
    (
        shape.class,
        shape.bitpix,
        shape.axes.as_slice(),
        shape.pcount,
        shape.gcount,
    )
}

// Whether an HDU of both is as long, of one shape and kind, and has the same sums.
fn same_numbers<R: Abort>(rt: &R, one: &Session, other: &Session, h: usize) {
    same!(rt; numbers_of(one, h), numbers_of(other, h), h);
    same!(rt; one.shape(h).map(text_of), other.shape(h).map(text_of), h);
}

// Whether an HDU of both has the same names of cards, and the same first pixel. Err: memory was refused.
fn same_lists<R: Abort>(
    rt: &R,
    one: &mut Session,
    other: &mut Session,
    h: usize,
) -> Result<(), AllocError> {
    let found = given(one.names(h))?;
    holds!(rt; found == given(other.names(h))?, h);
    let found = given(one.rect(h, &[1], &[1]))?;
    holds!(rt; found == given(other.rect(h, &[1], &[1]))?, h);
    Ok(())
}

// Whether a keyword of an HDU stands at the same places in both, and says the same. Err: memory was refused.
fn same_keyword<R: Abort + AllocGlobal>(
    rt: &R,
    one: &mut Session,
    other: &mut Session,
    h: usize,
    name: &Name,
) -> Result<(), AllocError> {
    let found = given(one.positions(h, name))?;
    holds!(rt; found == given(other.positions(h, name))?, h);
    let found = value_line(rt.alloc(), one, h, name)?;
    holds!(rt; found == value_line(rt.alloc(), other, h, name)?, h);
    Ok(())
}

// What a keyword says, as a line, or why it says nothing. Err: memory was refused.
fn value_line(
    alloc: Global,
    session: &mut Session,
    h: usize,
    name: &Name,
) -> Result<Result<Vec<u8>, Refusal>, AllocError> {
    match given(session.value(h, name))? {
        Ok(said) => Ok(Ok(line_of(alloc, &Some(said))?)),
        Err(why) => Ok(Err(why)),
    }
}

// An answer, or the refusal in its place. Err: memory was refused.
fn given<T>(answer: Result<T, Refusal>) -> Result<Result<T, Refusal>, AllocError> {
    match answer {
        Err(Refusal::Memory) => Err(AllocError),
        answer => Ok(answer),
    }
}
