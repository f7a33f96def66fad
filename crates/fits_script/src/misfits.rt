//! Why a line says no command. Sizes are the line's, in bytes. It is asked only of what says nothing,
//! and takes no memory.
ghost use Rattle.std.specs.Prelude.{◌≡◌, ◌==◌, length};
ghost use Rattle.std.specs.List.{slice_split};
ghost use Rattle.fits_script.specs.Misfit.{ends_in_return, extra_space, field_misfit, more_misfit, no_value};
ghost use Rattle.fits_script.specs.Misfit.{no_verb, unless_returned, values_misfit, word_misfit};

use crate::cut::split_once;
use crate::misfit::Misfit;
use crate::value_words::read_value;
use crate::verb::is_capital_verb;
use crate::words::cut_word;
use fits_value::{Excerpt, Unreadable, unreadable_of};

// A space too many, where so many bytes are left.
fn extra_space<'a>(size: usize, left: usize) -> Misfit<'a>
    ensures { result ≡ extra_space size left }
{
    let before = size.saturating_sub(left);
    Misfit::SpaceTooMany {
        byte: before.saturating_add(1).min(size),
    }
}

/// Why the first word of a text isn't what is wanted, where a word may be `another`.
pub(crate) fn word_misfit<'a>(size: usize, text: &[u8], another: Misfit<'a>) -> Misfit<'a>
    ensures { result ≡ word_misfit size text.now another.entry }
{
    match text {
        [] => Misfit::WordMissing,
        [b' ', ..] => extra_space(size, text.len()),
        _ => another,
    }
}

/// The space or the word that follows where the line would end.
pub(crate) fn more_misfit(size: usize, text: &[u8]) -> Misfit<'_>
    ensures { result ≡ more_misfit size text.now }
{
    let (word, _) = cut_word(text);
    if word.len() == 0 {
        extra_space(size, text.len())
    } else {
        Misfit::WordTooMany(Excerpt::new(word))
    }
}

/// Why a text that says no value and comment says none.
pub(crate) fn field_misfit(text: &[u8]) -> Misfit<'_>
    ensures { result ≡ field_misfit text.now }
{
    Misfit::NotValue(unreadable_of(text).unwrap_or(Unreadable::NoText))
}

/// Why the words of a text that ends the line aren't all values of pixels.
pub(crate) fn values_misfit(size: usize, text: &[u8]) -> Misfit<'_>
    ensures { result ≡ values_misfit size (length text.now)
        (slice_split (λ byte. byte == 32) text.now) }
{
    let mut rest = text;
    'words: while let Some((word, more)) = split_once(rest, b' ') {
        let Some(_) = read_value(word) else {
            return no_value(size, rest.len(), word);
        };
        rest = more;
    }
    match read_value(rest) {
        Some(_) => Misfit::WordMissing,
        None => no_value(size, rest.len(), rest),
    }
}

// Why a word is no value, where so many bytes are left.
fn no_value(size: usize, left: usize, word: &[u8]) -> Misfit<'_>
    ensures { result ≡ no_value size left word.now }
{
    if word.len() == 0 {
        extra_space(size, left)
    } else {
        Misfit::NotPixelValue(Excerpt::new(word))
    }
}

/// Why a line is no command whose first word is no verb.
#[tactic(auto, unfolding(crate::specs::Misfit::no_verb))]
pub(crate) fn no_verb(line: &[u8]) -> Misfit<'_>
    ensures { result ≡ no_verb line.now }
{
    let (word, _) = cut_word(line);
    if word.len() == 0 {
        Misfit::SpaceTooMany { byte: 1 }
    } else if is_capital_verb(word) {
        Misfit::CapitalVerb(Excerpt::new(word))
    } else {
        Misfit::NoVerb(Excerpt::new(word))
    }
}

/// A carriage return at the end of a line, or else this.
pub(crate) fn unless_returned<'a>(line: &[u8], misfit: Misfit<'a>) -> Misfit<'a>
    ensures { result ≡ unless_returned line.now misfit.entry }
{
    if ends_in_return(line) {
        Misfit::CarriageReturn
    } else {
        misfit
    }
}

/// Whether a line ends in a carriage return.
pub fn ends_in_return(line: &[u8]) -> bool
    ensures { result ≡ ends_in_return line.now }
{
    matches!(line, [.., b'\r'])
}
