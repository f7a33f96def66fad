//! What the next words of a line are, one by one, or why they aren't what is wanted. `size` is the line's.
ghost use Rattle.std.specs.Prelude.{◌≡◌, IfErr, IfOk, IsOk, OnErr, Ok, Err};
ghost use Rattle.std.specs.Option.{option_copied};
ghost use Rattle.fits_script.specs.Line.{card_last, ended, field_last, next_area, next_axes, next_hdu};
ghost use Rattle.fits_script.specs.Line.{next_kind, next_name, next_place, next_value, value_last};
ghost use Rattle.fits_script.specs.Words.{after_next};

use crate::image_words::{axes_of_word, kind_of_word};
use crate::misfit::Misfit;
use crate::misfits::{field_misfit, more_misfit, word_misfit};
use crate::rectangle_words::corners_of;
use crate::value_words::read_value;
use crate::words::{cut_word, name_of_word, number_of_word, text_of};
use fits_card::{CARD_LEN, Card, Name};
use fits_edit::{Corner, Paint};
use fits_image::Kind;
use fits_rules::Axes;
use fits_value::{Excerpt, Text, Value, read_field};
use std::alloc::{AllocError, Global};

/// What the next word is and what follows it, or why it isn't that.
pub(crate) type Next<'a, T> = Result<(T, Option<&'a [u8]>), Misfit<'a>>;

/// The number of an HDU, and what follows it.
#[tactic(auto, unfolding(crate::specs::Line::next_word))]
pub(crate) fn next_hdu(size: usize, rest: Option<&[u8]>) -> Next<'_, usize>
    ensures ok { IfOk result (λ cut. (next_hdu size (option_copied rest.entry) ≡ Ok cut.0)
        × (option_copied cut.1 ≡ after_next (option_copied rest.entry))) }
    ensures err { IfErr result (λ misfit. next_hdu size (option_copied rest.entry) ≡ Err misfit) }
{
    let Some(text) = rest else {
        return Err(Misfit::WordMissing);
    };
    let (word, more) = cut_word(text);
    match number_of_word(word) {
        Some(hdu) => Ok((hdu, more)),
        None => Err(word_misfit(size, text, Misfit::NotHdu(Excerpt::new(word)))),
    }
}

/// A place, and what follows it.
#[tactic(auto, unfolding(crate::specs::Line::next_word))]
pub(crate) fn next_place(size: usize, rest: Option<&[u8]>) -> Next<'_, usize>
    ensures ok { IfOk result (λ cut. (next_place size (option_copied rest.entry) ≡ Ok cut.0)
        × (option_copied cut.1 ≡ after_next (option_copied rest.entry))) }
    ensures err { IfErr result (λ misfit. next_place size (option_copied rest.entry) ≡ Err misfit) }
{
    let Some(text) = rest else {
        return Err(Misfit::WordMissing);
    };
    let (word, more) = cut_word(text);
    match number_of_word(word) {
        Some(place) => Ok((place, more)),
        None => Err(word_misfit(size, text, Misfit::NotPlace(Excerpt::new(word)))),
    }
}

/// A keyword name, and what follows it.
#[tactic(auto, unfolding(crate::specs::Line::next_word))]
pub(crate) fn next_name(size: usize, rest: Option<&[u8]>) -> Next<'_, Name>
    ensures ok { IfOk result (λ cut. (next_name size (option_copied rest.entry) ≡ Ok cut.0)
        × (option_copied cut.1 ≡ after_next (option_copied rest.entry))) }
    ensures err { IfErr result (λ misfit. next_name size (option_copied rest.entry) ≡ Err misfit) }
{
    let Some(text) = rest else {
        return Err(Misfit::WordMissing);
    };
    let (word, more) = cut_word(text);
    match name_of_word(word) {
        Some(name) => Ok((name, more)),
        None => Err(word_misfit(size, text, Misfit::LongName)),
    }
}

/// A value of a pixel, and what follows it.
#[tactic(auto, unfolding(crate::specs::Line::next_word))]
pub(crate) fn next_value(size: usize, rest: Option<&[u8]>) -> Next<'_, i128>
    ensures ok { IfOk result (λ cut. (next_value size (option_copied rest.entry) ≡ Ok cut.0)
        × (option_copied cut.1 ≡ after_next (option_copied rest.entry))) }
    ensures err { IfErr result (λ misfit. next_value size (option_copied rest.entry) ≡ Err misfit) }
{
    let Some(text) = rest else {
        return Err(Misfit::WordMissing);
    };
    let (word, more) = cut_word(text);
    match read_value(word) {
        Some(value) => Ok((value, more)),
        None => Err(word_misfit(size, text, Misfit::NotPixelValue(Excerpt::new(word)))),
    }
}

/// A kind of pixels, and what follows it.
#[tactic(auto, unfolding(crate::specs::Line::next_word))]
pub(crate) fn next_kind(size: usize, rest: Option<&[u8]>) -> Next<'_, Kind>
    ensures ok { IfOk result (λ cut. (next_kind size (option_copied rest.entry) ≡ Ok cut.0)
        × (option_copied cut.1 ≡ after_next (option_copied rest.entry))) }
    ensures err { IfErr result (λ misfit. next_kind size (option_copied rest.entry) ≡ Err misfit) }
{
    let Some(text) = rest else {
        return Err(Misfit::WordMissing);
    };
    let (word, more) = cut_word(text);
    match kind_of_word(word) {
        Some(kind) => Ok((kind, more)),
        None => Err(word_misfit(size, text, Misfit::NotKind(Excerpt::new(word)))),
    }
}

/// A rectangle, and what follows it.
#[tactic(auto, unfolding(crate::specs::Line::next_word))]
pub(crate) fn next_area(
    alloc: Global,
    size: usize,
    rest: Option<&[u8]>,
) -> Result<Next<'_, (Corner, Corner)>, AllocError>
    ensures ok { IfOk result (λ read. IfOk read (λ cut. (next_area size (option_copied rest.entry) ≡ Ok cut.0)
        × (option_copied cut.1 ≡ after_next (option_copied rest.entry)))) }
    ensures none { IfOk result (λ read. IfErr read (λ misfit.
        next_area size (option_copied rest.entry) ≡ Err misfit)) }
    ensures err { OnErr result (IsOk (next_area size (option_copied rest.entry))) }
{
    let Some(text) = rest else {
        return Ok(Err(Misfit::WordMissing));
    };
    let (word, more) = cut_word(text);
    match corners_of(alloc, word) {
        Ok(Some(corners)) => Ok(Ok((corners, more))),
        Ok(None) => Ok(Err(word_misfit(size, text, Misfit::NotRectangle(Excerpt::new(word))))),
        Err(refused) => Err(refused),
    }
}

/// Axes, and what follows them.
#[tactic(auto, unfolding(crate::specs::Line::next_word))]
pub(crate) fn next_axes(
    alloc: Global,
    size: usize,
    rest: Option<&[u8]>,
) -> Result<Next<'_, Axes>, AllocError>
    ensures ok { IfOk result (λ read. IfOk read (λ cut. (next_axes size (option_copied rest.entry) ≡ Ok cut.0)
        × (option_copied cut.1 ≡ after_next (option_copied rest.entry)))) }
    ensures none { IfOk result (λ read. IfErr read (λ misfit.
        next_axes size (option_copied rest.entry) ≡ Err misfit)) }
    ensures err { OnErr result (IsOk (next_axes size (option_copied rest.entry))) }
{
    let Some(text) = rest else {
        return Ok(Err(Misfit::WordMissing));
    };
    let (word, more) = cut_word(text);
    match axes_of_word(alloc, word) {
        Ok(Some(axes)) => Ok(Ok((axes, more))),
        Ok(None) => Ok(Err(word_misfit(size, text, Misfit::NotAxes(Excerpt::new(word))))),
        Err(refused) => Err(refused),
    }
}

/// This, if the line ends here.
#[tactic(auto, unfolding(crate::specs::Line::ended))]
pub(crate) fn ended<'a, T: Drop>(
    size: usize,
    rest: Option<&'a [u8]>,
    said: T,
) -> Result<T, Misfit<'a>>
    ensures { result ≡ ended size (option_copied rest.entry) said }
{
    match rest {
        None => Ok(said),
        Some(text) => Err(more_misfit(size, text)),
    }
}

/// The card of a text of at most 80 bytes, which may be empty without the space before it.
#[tactic(auto, unfolding(crate::specs::Line::card_last))]
pub(crate) fn card_last<'a>(rest: Option<&[u8]>) -> Result<Card, Misfit<'a>>
    ensures { result ≡ card_last (option_copied rest.entry) }
{
    let text = text_of(rest);
    let bytes = text.len();
    if bytes > CARD_LEN {
        return Err(Misfit::LongCard { bytes });
    }
    Ok(Card::padded(text))
}

/// The value and the comment of a text, which may be empty likewise.
#[tactic(auto, unfolding(crate::specs::Line::field_last))]
pub(crate) fn field_last(
    alloc: Global,
    rest: Option<&[u8]>,
) -> Result<Result<(Value, Option<Text>), Misfit<'_>>, AllocError>
    ensures ok { IfOk result (λ said. said ≡ field_last (option_copied rest.entry)) }
    ensures err { OnErr result (IsOk (field_last (option_copied rest.entry))) }
{
    let text = text_of(rest);
    match read_field(alloc, text) {
        Ok(Some(said)) => Ok(Ok(said)),
        Ok(None) => Ok(Err(field_misfit(text))),
        Err(refused) => Err(refused),
    }
}

/// A value that ends a line, with which a rectangle is filled.
#[tactic(auto, unfolding(crate::specs::Line::value_last))]
pub(crate) fn value_last(size: usize, rest: Option<&[u8]>) -> Result<Paint, Misfit<'_>>
    ensures { result ≡ value_last size (option_copied rest.entry) }
{
    match next_value(size, rest) {
        Ok((value, rest)) => ended(size, rest, Paint::Fill(value)),
        Err(misfit) => Err(misfit),
    }
}
