//! The word of a rectangle: `lo:hi` for each axis, joined by commas.
ghost use Rattle.std.specs.Prelude.{◌≡◌, map, IfOk, IsSome, OnErr};
ghost use Rattle.fits_script.specs.Words.{after_colon, axis_of_word, before_colon, corners_of_word};

use crate::cut::split_once;
use crate::part::{Part, read_list};
use crate::words::number_of_word;
use fits_edit::Corner;
use std::alloc::{AllocError, Global};

// An axis: its lower and its upper place.
impl Part for (u64, u64) {
    ghost reads = { axis_of_word };

    fn read(text: &[u8]) -> Option<(u64, u64)> {
        read_axis(text)
    }
}

/// The corners of a rectangle, unless a word is none.
#[tactic(auto, unfolding(crate::specs::Words::corners_of_word))]
pub(crate) fn corners_of(alloc: Global, word: &[u8]) -> Result<Option<(Corner, Corner)>, AllocError>
    ensures ok { IfOk result (λ corners. corners ≡ corners_of_word word.now) }
    ensures err { OnErr result (IsSome (corners_of_word word.now)) }
{
    let axes: Vec<(u64, u64)> = match read_list(alloc, word, b',') {
        Ok(Some(axes)) => axes,
        Ok(None) => return Ok(None),
        Err(refused) => return Err(refused),
    };
    let (lo, hi) = corners(alloc, axes.as_slice())?;
    Ok(Some((lo, hi)))
}

// The lower and the upper places of axes.
#[tactic(auto, using(crate::proofs::RectangleLemmas::corner_steps))]
fn corners(alloc: Global, axes: &[(u64, u64)]) -> Result<(Corner, Corner), AllocError>
    ensures lower { IfOk result (λ corners. corners.0 ≡ map (λ axis. axis.0) axes.now) }
    ensures upper { IfOk result (λ corners. corners.1 ≡ map (λ axis. axis.1) axes.now) }
{
    let mut lo = Vec::new(alloc);
    let mut hi = Vec::new(alloc);
    for axis in axes {
        let (lower, upper) = *axis;
        lo.push(lower)?;
        hi.push(upper)?;
    }
    Ok((Corner::new(lo), Corner::new(hi)))
}

// The numbers of an axis, unless a text is none.
#[tactic(auto, unfolding(crate::specs::Words::axis_of_word))]
fn read_axis(axis: &[u8]) -> Option<(u64, u64)>
    ensures { result ≡ axis_of_word axis.now }
{
    let (lower, upper) = cut_axis(axis);
    let lower = number_of_word(lower)?;
    let upper = number_of_word(upper)?;
    Some((lower as u64, upper as u64))
}

// What stands before a colon, and after it.
#[tactic(auto, using(crate::proofs::PartsLemmas::colon_steps))]
fn cut_axis(axis: &[u8]) -> (&[u8], &[u8])
    ensures lower { result.0.now ≡ before_colon axis.now }
    ensures upper { result.1.now ≡ after_colon axis.now }
{
    match split_once(axis, b':') {
        Some((lower, upper)) => (lower, upper),
        None => (axis, b""),
    }
}
