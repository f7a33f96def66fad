//! The characters of strings (FITS Standard 4.0, section 4.2.1).
ghost use Rattle.std.specs.Prelude.{◌≡◌, ℕ, List, ◌≤◌, IfOk, length, take, drop};
ghost use Rattle.std.specs.Str.{bytes_eq};
ghost use Rattle.fits_value.specs.Spelling.{doubled, IsSpaces};
ghost use Rattle.fits_value.specs.Scan.{undoubled};
ghost use Rattle.fits_value.specs.Text.{normal_form};

use crate::spaces::trimmed_len;
use std::alloc::{AllocError, Global};

/// The characters that stand between the quotes, where two quotes are one.
pub(crate) fn decoded(alloc: Global, text: &[u8]) -> Result<Vec<u8>, AllocError>
    ensures value { IfOk result (λ characters. characters.items ≡ undoubled text.now) }
    ensures spelled { IfOk result (λ characters. (cs : List ℕ)
        → text.now ≡ doubled cs → characters.items ≡ cs) }
{
    let mut characters = Vec::new(alloc);
    let mut i = 0;
    while i < text.len() {
        characters.push(text[i])?;
        if text[i] == b'\'' && i + 1 < text.len() {
            i += 2;
        } else {
            i += 1;
        }
    }
    Ok(characters)
}

/// How many bytes the normal form has: it is a prefix of the text.
pub(crate) fn normal_len(text: &[u8]) -> usize
    ensures value { take result text.now ≡ normal_form text.now }
    ensures spaces { IsSpaces (drop result text.now) }
    ensures within { result ≤ length text.now }
{
    let len = trimmed_len(text);
    if len == 0 { text.len().min(1) } else { len }
}

/// Whether a text is in normal form.
#[tactic(auto, using(crate::proofs::WritableLemmas::normal_tests))]
pub(crate) fn is_normal(text: &[u8]) -> bool
    ensures { result ≡ bytes_eq (normal_form text.now) text.now }
{
    normal_len(text) == text.len()
}

/// Takes the spaces at the end off, but one of spaces alone.
pub(crate) fn normalize(text: &mut Vec<u8>)
    ensures { text.new.items ≡ normal_form text.old.items }
{
    let len = normal_len(text);
    text.truncate(len);
}
