//! The values of pixels that end a line: each an optional minus sign and digits.
ghost use Rattle.std.specs.Prelude.{◌≡◌, ◌<◌, ◌≤◌, ◌^◌, false, length};
ghost use Rattle.std.specs.Prelude.{IfOk, IfSome, IfNone, IsOk, IsTrue, OnErr};
ghost use Rattle.std.specs.List.{list_all};
ghost use Rattle.std.specs.Option.{option_copied};
ghost use Rattle.fits_script.specs.Line.{values_last};
ghost use Rattle.fits_script.specs.Words.{is_negative, is_number, value_of_word, without_minus};
ghost use Rattle.fits_value.specs.Number.{value_of};
ghost use Rattle.fits_value.specs.Spelling.{is_digit};

use crate::misfit::Misfit;
use crate::misfits::{values_misfit, word_misfit};
use crate::part::{Part, read_list};
use crate::words::{DIGITS, number_of_word};
use fits_edit::{Paint, PixelValues};
use std::alloc::{AllocError, Global};

/// How many digits a value has at most.
const VALUE_DIGITS: usize = 30;

impl Part for i128 {
    ghost reads = { value_of_word };

    fn read(text: &[u8]) -> Option<i128> {
        read_value(text)
    }
}

/// The values that end a line of this size and are written, or why they aren't.
#[tactic(auto, unfolding(crate::specs::Line::values_last))]
pub(crate) fn values_last(
    alloc: Global,
    size: usize,
    rest: Option<&[u8]>,
) -> Result<Result<Paint, Misfit<'_>>, AllocError>
    ensures ok { IfOk result (λ paint. paint ≡ values_last size (option_copied rest.entry)) }
    ensures err { OnErr result (IsOk (values_last size (option_copied rest.entry))) }
{
    let Some(text) = rest else {
        return Ok(Err(Misfit::WordMissing));
    };
    match read_list(alloc, text, b' ') {
        Ok(Some(values)) => Ok(Ok(Paint::Write(PixelValues::new(values)))),
        Ok(None) => Ok(Err(word_misfit(size, text, values_misfit(size, text)))),
        Err(refused) => Err(refused),
    }
}

/// The number of a value, unless the word is none.
#[tactic(auto, unfolding(crate::specs::Words::value_of_word))]
pub(crate) fn read_value(word: &[u8]) -> Option<i128>
    ensures { result ≡ value_of_word word.now }
{
    let (is_negative, size) = cut_sign(word);
    let size = size_of_word(size)? as i128;
    Some(if is_negative { -size } else { size })
}

// Whether a minus sign comes first, and what follows it.
fn cut_sign(word: &[u8]) -> (bool, &[u8])
    ensures sign { result.0 ≡ is_negative word.now }
    ensures size { result.1.now ≡ without_minus word.now }
{
    match word {
        [b'-', size @ ..] => (true, size),
        _ => (false, word),
    }
}

// The number of 1 to 30 digits. Most have few.
#[tactic(auto, unfolding(crate::specs::Words::number_of_word))]
fn size_of_word(word: &[u8]) -> Option<u128>
    ensures some { IfSome result (λ size. IsTrue (is_number 30 word.now)
        × (size ≡ value_of word.now)) }
    ensures none { IfNone result (is_number 30 word.now ≡ false) }
    ensures small { IfSome result (λ size. size < 10 ^ 30) }
{
    if word.len() <= DIGITS {
        return match number_of_word(word) {
            Some(number) => Some(number as u128),
            None => None,
        };
    }
    if word.len() > VALUE_DIGITS {
        return None;
    }
    read_size(word)
}

// The number of at most 30 digits, unless another byte stands among them.
fn read_size(digits: &[u8]) -> Option<u128>
    requires { length digits.now ≤ 30 }
    ensures some { IfSome result (λ size. IsTrue (list_all is_digit digits.now)
        × (size ≡ value_of digits.now)) }
    ensures none { IfNone result (list_all is_digit digits.now ≡ false) }
    ensures small { IfSome result (λ size. size < 10 ^ 30) }
{
    let mut size = 0u128;
    for byte in digits {
        if *byte < b'0' || *byte > b'9' {
            return None;
        }
        size = size * 10 + (*byte - b'0') as u128;
    }
    Some(size)
}
