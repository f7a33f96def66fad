//! Lists of words in a line, each read in one way.
ghost use Rattle.std.specs.Prelude.{◌≡◌, is_some, List, ℕ, Option, None, Some};
ghost use Rattle.std.specs.Prelude.{IfNone, IfOk, IfSome, IsSome, OnErr};
ghost use Rattle.fits_script.specs.Words.{list_of_text};

use crate::cut::split_once;
use std::alloc::{AllocError, Global};

/// What stands in a list: a length, an axis of a rectangle, a value.
pub(crate) trait Part: Copy {
    /// What a text reads as.
    ghost reads: { List ℕ → Option Self };

    fn read(text: &[u8]) -> Option<Self>
        ensures { result ≡ reads text.now };
}

/// The parts of a text between such bytes, unless one is none. They are read once: where memory
/// runs out on the way, the text is looked at again, since one that is no list needs none.
pub(crate) fn read_list<P: Part>(
    alloc: Global,
    text: &[u8],
    separator: u8,
) -> Result<Option<Vec<P>>, AllocError>
    ensures some { IfOk result (λ read. IfSome read (λ list.
        list_of_text P.reads separator text.now ≡ Some list.items)) }
    ensures none { IfOk result (λ read. IfNone read
        (list_of_text P.reads separator text.now ≡ None)) }
    ensures err { OnErr result (IsSome (list_of_text P.reads separator text.now)) }
{
    match read_parts(alloc, text, separator) {
        Ok(list) => Ok(list),
        Err(refused) => {
            if is_list::<P>(text, separator) {
                Err(refused)
            } else {
                Ok(None)
            }
        }
    }
}

// The same, with nothing said of a text at which memory runs out.
fn read_parts<P: Part>(
    alloc: Global,
    text: &[u8],
    separator: u8,
) -> Result<Option<Vec<P>>, AllocError>
    ensures some { IfOk result (λ read. IfSome read (λ list.
        list_of_text P.reads separator text.now ≡ Some list.items)) }
    ensures none { IfOk result (λ read. IfNone read
        (list_of_text P.reads separator text.now ≡ None)) }
{
    let mut list = Vec::new(alloc);
    let mut rest = text;
    'parts: while let Some((part, more)) = split_once(rest, separator) {
        let Some(item) = P::read(part) else {
            return Ok(None);
        };
        list.push(item)?;
        rest = more;
    }
    let Some(item) = P::read(rest) else {
        return Ok(None);
    };
    list.push(item)?;
    Ok(Some(list))
}

/// Whether a text is parts, such a byte between.
pub(crate) fn is_list<P: Part>(text: &[u8], separator: u8) -> bool
    ensures { result ≡ is_some (list_of_text P.reads separator text.now) }
{
    let mut rest = text;
    'parts: while let Some((part, more)) = split_once(rest, separator) {
        let Some(_) = P::read(part) else {
            return false;
        };
        rest = more;
    }
    P::read(rest).is_some()
}
