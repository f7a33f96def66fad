//! What follows the number of an HDU: the words that a verb wants, or why they are others. `size` is the
//! line's.
ghost use Rattle.std.specs.Prelude.{◌≡◌, IfOk, IsOk, OnErr};
ghost use Rattle.std.specs.Option.{option_copied};
ghost use Rattle.fits_script.specs.Line.{array_words, axes_last, card_words, field_words, fill_words};
ghost use Rattle.fits_script.specs.Line.{move_words, name_word, painted, place_word, rectangle_word, write_words};

use crate::misfit::Misfit;
use crate::misfits::more_misfit;
use crate::next_words::{
    card_last, ended, field_last, next_area, next_axes, next_kind, next_name, next_place,
    value_last,
};
use crate::value_words::values_last;
use crate::words::after_next;
use fits_card::{Card, Name};
use fits_edit::{Corner, Paint};
use fits_image::Kind;
use fits_rules::Axes;
use fits_value::{Text, Value};
use std::alloc::{AllocError, Global};

/// `P CARD`
#[tactic(auto, unfolding(crate::specs::Line::card_words))]
pub(crate) fn card_words(size: usize, rest: Option<&[u8]>) -> Result<(usize, Card), Misfit<'_>>
    ensures { result ≡ card_words size (option_copied rest.entry) }
{
    let (place, rest) = next_place(size, rest)?;
    let card = card_last(rest)?;
    Ok((place, card))
}

/// `P`
#[tactic(auto, unfolding(crate::specs::Line::place_word))]
pub(crate) fn place_word(size: usize, rest: Option<&[u8]>) -> Result<usize, Misfit<'_>>
    ensures { result ≡ place_word size (option_copied rest.entry) }
{
    let (place, rest) = next_place(size, rest)?;
    ended(size, rest, place)
}

/// `P Q`
#[tactic(auto, unfolding(crate::specs::Line::move_words))]
pub(crate) fn move_words(size: usize, rest: Option<&[u8]>) -> Result<(usize, usize), Misfit<'_>>
    ensures { result ≡ move_words size (option_copied rest.entry) }
{
    let (from, rest) = next_place(size, rest)?;
    let to = place_word(size, rest)?;
    Ok((from, to))
}

/// `NAME`
#[tactic(auto, unfolding(crate::specs::Line::name_word))]
pub(crate) fn name_word(size: usize, rest: Option<&[u8]>) -> Result<Name, Misfit<'_>>
    ensures { result ≡ name_word size (option_copied rest.entry) }
{
    let (name, rest) = next_name(size, rest)?;
    ended(size, rest, name)
}

/// `NAME FIELD`
#[tactic(auto, unfolding(crate::specs::Line::field_words))]
pub(crate) fn field_words(
    alloc: Global,
    size: usize,
    rest: Option<&[u8]>,
) -> Result<Result<(Name, Value, Option<Text>), Misfit<'_>>, AllocError>
    ensures ok { IfOk result (λ words. words ≡ field_words size (option_copied rest.entry)) }
    ensures err { OnErr result (IsOk (field_words size (option_copied rest.entry))) }
{
    let (name, rest) = match next_name(size, rest) {
        Ok(cut) => cut,
        Err(misfit) => return Ok(Err(misfit)),
    };
    match field_last(alloc, rest) {
        Ok(Ok((value, comment))) => Ok(Ok((name, value, comment))),
        Ok(Err(misfit)) => Ok(Err(misfit)),
        Err(refused) => Err(refused),
    }
}

/// `RECT`
#[tactic(auto, unfolding(crate::specs::Line::rectangle_word, crate::specs::Line::ended))]
pub(crate) fn rectangle_word(
    alloc: Global,
    size: usize,
    rest: Option<&[u8]>,
) -> Result<Result<(Corner, Corner), Misfit<'_>>, AllocError>
    ensures ok { IfOk result (λ words. words ≡ rectangle_word size (option_copied rest.entry)) }
    ensures err { OnErr result (IsOk (rectangle_word size (option_copied rest.entry))) }
{
    match next_area(alloc, size, rest) {
        Ok(Ok((corners, rest))) => Ok(ended(size, rest, corners)),
        Ok(Err(misfit)) => Ok(Err(misfit)),
        Err(refused) => match after_next(rest) {
            Some(text) => Ok(Err(more_misfit(size, text))),
            None => Err(refused),
        },
    }
}

// These corners, and what is painted between them.
fn painted<'a>(
    corners: (Corner, Corner),
    paint: Result<Paint, Misfit<'a>>,
) -> Result<(Corner, Corner, Paint), Misfit<'a>>
    ensures { result ≡ painted corners paint.entry }
{
    let (lo, hi) = corners;
    match paint {
        Ok(paint) => Ok((lo, hi, paint)),
        Err(misfit) => Err(misfit),
    }
}

/// `RECT V`
#[tactic(auto, unfolding(crate::specs::Line::fill_words))]
pub(crate) fn fill_words(
    alloc: Global,
    size: usize,
    rest: Option<&[u8]>,
) -> Result<Result<(Corner, Corner, Paint), Misfit<'_>>, AllocError>
    ensures ok { IfOk result (λ words. words ≡ fill_words size (option_copied rest.entry)) }
    ensures err { OnErr result (IsOk (fill_words size (option_copied rest.entry))) }
{
    match next_area(alloc, size, rest) {
        Ok(Ok((corners, rest))) => Ok(painted(corners, value_last(size, rest))),
        Ok(Err(misfit)) => Ok(Err(misfit)),
        Err(refused) => match value_last(size, after_next(rest)) {
            Ok(_paint) => Err(refused),
            Err(misfit) => Ok(Err(misfit)),
        },
    }
}

/// `RECT V V ..`
#[tactic(auto, unfolding(crate::specs::Line::write_words))]
pub(crate) fn write_words(
    alloc: Global,
    size: usize,
    rest: Option<&[u8]>,
) -> Result<Result<(Corner, Corner, Paint), Misfit<'_>>, AllocError>
    ensures ok { IfOk result (λ words. words ≡ write_words size (option_copied rest.entry)) }
    ensures err { OnErr result (IsOk (write_words size (option_copied rest.entry))) }
{
    match next_area(alloc, size, rest) {
        Ok(Ok((corners, rest))) => Ok(painted(corners, values_last(alloc, size, rest)?)),
        Ok(Err(misfit)) => Ok(Err(misfit)),
        Err(refused) => match values_last(alloc, size, after_next(rest))? {
            Ok(_paint) => Err(refused),
            Err(misfit) => Ok(Err(misfit)),
        },
    }
}

// The axes that end a line.
#[tactic(auto, unfolding(crate::specs::Line::axes_last, crate::specs::Line::ended))]
fn axes_last(
    alloc: Global,
    size: usize,
    rest: Option<&[u8]>,
) -> Result<Result<Axes, Misfit<'_>>, AllocError>
    ensures ok { IfOk result (λ axes. axes ≡ axes_last size (option_copied rest.entry)) }
    ensures err { OnErr result (IsOk (axes_last size (option_copied rest.entry))) }
{
    match next_axes(alloc, size, rest) {
        Ok(Ok((axes, rest))) => Ok(ended(size, rest, axes)),
        Ok(Err(misfit)) => Ok(Err(misfit)),
        Err(refused) => match after_next(rest) {
            Some(text) => Ok(Err(more_misfit(size, text))),
            None => Err(refused),
        },
    }
}

/// `KIND AXES`
#[tactic(auto, unfolding(crate::specs::Line::array_words))]
pub(crate) fn array_words(
    alloc: Global,
    size: usize,
    rest: Option<&[u8]>,
) -> Result<Result<(Kind, Axes), Misfit<'_>>, AllocError>
    ensures ok { IfOk result (λ words. words ≡ array_words size (option_copied rest.entry)) }
    ensures err { OnErr result (IsOk (array_words size (option_copied rest.entry))) }
{
    let (kind, rest) = match next_kind(size, rest) {
        Ok(cut) => cut,
        Err(misfit) => return Ok(Err(misfit)),
    };
    match axes_last(alloc, size, rest) {
        Ok(Ok(axes)) => Ok(Ok((kind, axes))),
        Ok(Err(misfit)) => Ok(Err(misfit)),
        Err(refused) => Err(refused),
    }
}
