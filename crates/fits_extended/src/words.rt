//! The words of an extended line.
ghost use Rattle.std.specs.Prelude.{◌≡◌, ◌≤◌, [], length, unwrap_or, None, Some, IfNone, IfSome};
ghost use Rattle.std.specs.Option.{option_copied};
ghost use Rattle.std.specs.Str.{bytes_eq};
ghost use Rattle.fits_script.specs.Words.{after_next, first_word};
ghost use Rattle.fits_extended.specs.Words.{is_at_name, is_extended, is_for_each, is_plain_edit, is_plain_query, is_query_of_each, is_short, is_star, keyword_of, may_stand, new_name, next_of};

use crate::extended_verb::extended_verb_of;
use fits_script::{LINE_LIMIT, cut_word, number_of_word};

/// How many bytes a keyword name has at most (FITS Standard 4.0, section 4.1.2.1).
const NAME_LEN: usize = 8;

/// The number of an HDU, the name of a keyword as it is typed, and what follows them.
type KeywordWords<'a> = (usize, &'a [u8], Option<&'a [u8]>);

/// The next word, and what follows it.
pub(crate) fn next_of(rest: Option<&[u8]>) -> (&[u8], Option<&[u8]>)
    ensures word { result.0.now ≡ next_of (option_copied rest.entry) }
    ensures rest { option_copied result.1 ≡ after_next (option_copied rest.entry) }
{
    match rest {
        Some(text) => cut_word(text),
        None => (b"", None),
    }
}

/// `H NAME`, and what follows.
#[tactic(auto, unfolding(crate::specs::Words::keyword_of))]
pub(crate) fn keyword_of(rest: Option<&[u8]>) -> Option<KeywordWords<'_>>
    ensures some { IfSome result (λ key. keyword_of (option_copied rest.entry)
        ≡ Some (key.0, key.1.now, option_copied key.2)) }
    ensures none { IfNone result (keyword_of (option_copied rest.entry) ≡ None) }
    ensures short { IfSome result (λ key. length key.1.now ≤ 8) }
{
    let (hdu, rest) = next_of(rest);
    let hdu = number_of_word(hdu)?;
    let (name, rest) = next_of(rest);
    if !is_short(name) {
        return None;
    }
    Some((hdu, name, rest))
}

/// A new name, after which nothing follows.
#[tactic(auto, unfolding(crate::specs::Words::new_name))]
pub(crate) fn new_name(rest: Option<&[u8]>) -> Option<&[u8]>
    ensures some { IfSome result (λ name. new_name (option_copied rest.entry) ≡ Some name.now) }
    ensures none { IfNone result (new_name (option_copied rest.entry) ≡ None) }
    ensures short { IfSome result (λ name. length name.now ≤ 8) }
{
    let (name, more) = next_of(rest);
    if more.is_some() || !is_short(name) {
        return None;
    }
    Some(name)
}

// Whether a word is as short as a keyword name.
fn is_short(word: &[u8]) -> bool
    ensures value { result ≡ is_short word.now }
{
    1 <= word.len() && word.len() <= NAME_LEN
}

/// Whether a word names an HDU by the name of an extension.
pub(crate) fn is_at_name(word: &[u8]) -> bool
    ensures { result ≡ is_at_name word.now }
{
    match word {
        [b'@', name @ ..] => !name.is_empty(),
        _ => false,
    }
}

// Whether a word stands for the number of each HDU.
fn is_star(word: &[u8]) -> bool
    ensures { result ≡ is_star word.now }
{
    is_same(word, b"*")
}

// Whether two texts have the same bytes.
fn is_same(word: &[u8], other: &[u8]) -> bool
    ensures { result ≡ bytes_eq word.now other.now }
{
    word == other
}

// Whether a word is a plain verb of an edit that each HDU may be given.
fn is_plain_edit(word: &[u8]) -> bool
    ensures { result ≡ is_plain_edit word.now }
{
    is_same(word, b"set")
        || is_same(word, b"unset")
        || is_same(word, b"ins")
        || is_same(word, b"put")
        || is_same(word, b"del")
        || is_same(word, b"stamp")
        || is_same(word, b"keep")
        || is_same(word, b"release")
}

/// Whether a line is one for each HDU.
#[tactic(auto, unfolding(crate::specs::Words::is_for_each))]
pub(crate) fn is_for_each(line: &[u8]) -> bool
    ensures { result ≡ is_for_each line.now }
{
    let (verb, rest) = cut_word(line);
    let (word, _) = next_of(rest);
    is_star(word) && (extended_verb_of(verb).is_some() || is_plain_edit(verb))
}

// Whether a word is a plain verb of a query that each HDU may be asked.
fn is_plain_query(word: &[u8]) -> bool
    ensures { result ≡ is_plain_query word.now }
{
    is_same(word, b"get")
        || is_same(word, b"pos")
        || is_same(word, b"stat")
        || is_same(word, b"rect")
        || is_same(word, b"sum")
        || is_same(word, b"kept")
}

/// Whether a line is a query of each HDU.
#[tactic(auto, unfolding(crate::specs::Words::is_query_of_each))]
pub(crate) fn is_query_of_each(line: &[u8]) -> bool
    ensures { result ≡ is_query_of_each line.now }
{
    let (verb, rest) = cut_word(line);
    let (word, _) = next_of(rest);
    is_star(word) && is_plain_query(verb)
}

/// Whether a line may stand for another.
#[tactic(auto, unfolding(crate::specs::Words::may_stand))]
pub(crate) fn may_stand(line: &[u8]) -> bool
    ensures { result ≡ may_stand line.now }
{
    line.len() <= LINE_LIMIT && is_extended(line)
}

// Whether it has an extended form.
#[tactic(auto, unfolding(crate::specs::Words::is_extended))]
fn is_extended(line: &[u8]) -> bool
    ensures { result ≡ is_extended line.now }
{
    let (verb, rest) = cut_word(line);
    if extended_verb_of(verb).is_some() {
        return true;
    }
    let (word, _) = next_of(rest);
    is_at_name(word) || is_star(word)
}

/// What follows, which may be nothing.
pub(crate) fn text_of(rest: Option<&[u8]>) -> &[u8]
    ensures { result.now ≡ unwrap_or (option_copied rest.entry) [] }
{
    match rest {
        Some(text) => text,
        None => b"",
    }
}
