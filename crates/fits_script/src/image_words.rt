//! The words of a new image: the kind of its pixels, and its axes.
ghost use Rattle.std.specs.Prelude.{◌≡◌, IfOk, IsSome, OnErr};
ghost use Rattle.fits_script.specs.Words.{axes_of_word, kind_of_word, number_of_word};

use crate::part::{Part, read_list};
use crate::words::{is_word, number_of_word};
use fits_image::Kind;
use fits_rules::Axes;
use std::alloc::{AllocError, Global};

/// The kind of pixels that a word names.
#[tactic(auto, unfolding(crate::specs::Words::kind_of_word))]
pub(crate) fn kind_of_word(word: &[u8]) -> Option<Kind>
    ensures { result ≡ kind_of_word word.now }
{
    if is_word(word, b"u8") {
        Some(Kind::U8)
    } else if is_word(word, b"i8") {
        Some(Kind::I8)
    } else if is_word(word, b"i16") {
        Some(Kind::I16)
    } else if is_word(word, b"u16") {
        Some(Kind::U16)
    } else if is_word(word, b"i32") {
        Some(Kind::I32)
    } else if is_word(word, b"u32") {
        Some(Kind::U32)
    } else if is_word(word, b"i64") {
        Some(Kind::I64)
    } else if is_word(word, b"u64") {
        Some(Kind::U64)
    } else {
        None
    }
}

/// The length of each axis, or `-` where there is no axis.
#[tactic(auto, unfolding(crate::specs::Words::axes_of_word))]
pub(crate) fn axes_of_word(alloc: Global, word: &[u8]) -> Result<Option<Axes>, AllocError>
    ensures ok { IfOk result (λ axes. axes ≡ axes_of_word word.now) }
    ensures err { OnErr result (IsSome (axes_of_word word.now)) }
{
    if is_word(word, b"-") {
        return Ok(Some(Axes::new(Vec::new(alloc))));
    }
    match read_list(alloc, word, b',') {
        Ok(Some(lengths)) => Ok(Some(Axes::new(lengths))),
        Ok(None) => Ok(None),
        Err(refused) => Err(refused),
    }
}

// The length of an axis.
impl Part for u64 {
    ghost reads = { number_of_word };

    fn read(text: &[u8]) -> Option<u64> {
        let length = number_of_word(text)?;
        Some(length as u64)
    }
}
