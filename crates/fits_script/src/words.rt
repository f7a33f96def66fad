//! The words of a line, and what some may be.
ghost use Rattle.std.specs.Prelude.{◌≡◌, ◌≤◌, false, [], length, unwrap_or, None, Some};
ghost use Rattle.std.specs.Prelude.{IfSome, IfNone, IsTrue};
ghost use Rattle.std.specs.List.{list_all};
ghost use Rattle.std.specs.Option.{option_copied};
ghost use Rattle.std.specs.Str.{bytes_eq};
ghost use Rattle.fits_script.specs.Words.{after_next, after_word, first_word, name_of_text, name_of_word, number_of_word};
ghost use Rattle.fits_value.specs.Number.{value_of};
ghost use Rattle.fits_value.specs.Spelling.{is_digit};

use crate::cut::split_once;
use fits_card::Name;

/// How many digits a number has at most.
pub(crate) const DIGITS: usize = 18;

/// How many bytes a keyword name has (FITS Standard 4.0, section 4.1.2.1).
const NAME_LEN: usize = 8;

/// The first word, and what follows the space after it, if there is one.
#[tactic(auto, using(crate::proofs::WordLemmas::word_steps))]
pub fn cut_word(text: &[u8]) -> (&[u8], Option<&[u8]>)
    ensures word { result.0.now ≡ first_word text.now }
    ensures rest { option_copied result.1 ≡ after_word text.now }
{
    match split_once(text, b' ') {
        Some((word, rest)) => (word, Some(rest)),
        None => (text, None),
    }
}

/// What follows the first word of the rest of a line.
pub(crate) fn after_next(rest: Option<&[u8]>) -> Option<&[u8]>
    ensures { option_copied result ≡ after_next (option_copied rest.entry) }
{
    cut_word(rest?).1
}

/// Whether a word is this one.
pub(crate) fn is_word(word: &[u8], this: &[u8]) -> bool
    ensures { result ≡ bytes_eq word.now this.now }
{
    word == this
}

/// The number of 1 to 18 digits.
#[tactic(auto, unfolding(crate::specs::Words::number_of_word))]
pub fn number_of_word(word: &[u8]) -> Option<usize>
    ensures { result ≡ number_of_word word.now }
{
    if word.is_empty() || word.len() > DIGITS {
        return None;
    }
    read_digits(word)
}

// The number of at most 18 digits, unless another byte stands among them.
fn read_digits(digits: &[u8]) -> Option<usize>
    requires { length digits.now ≤ 18 }
    ensures some { IfSome result (λ number. IsTrue (list_all is_digit digits.now)
        × (number ≡ value_of digits.now)) }
    ensures none { IfNone result (list_all is_digit digits.now ≡ false) }
{
    let mut number = 0usize;
    for byte in digits {
        if *byte < b'0' || *byte > b'9' {
            return None;
        }
        number = number * 10 + (*byte - b'0') as usize;
    }
    Some(number)
}

/// The keyword name of 1 to 8 bytes.
#[tactic(auto, unfolding(crate::specs::Words::name_of_word))]
pub fn name_of_word(word: &[u8]) -> Option<Name>
    ensures { result ≡ name_of_word word.now }
{
    if word.is_empty() || word.len() > NAME_LEN {
        return None;
    }
    Some(padded_name(word))
}

/// The name that begins with this text and goes on in spaces.
pub fn padded_name(text: &[u8]) -> Name
    requires { length text.now ≤ 8 }
    ensures { result ≡ name_of_text text.now }
{
    let mut name = [b' '; NAME_LEN];
    let (front, _) = name.split_at_mut(text.len());
    front.copy_from_slice(text);
    Name(name)
}

/// The rest of a line, which may be empty without the space before it.
pub(crate) fn text_of(rest: Option<&[u8]>) -> &[u8]
    ensures { result.now ≡ unwrap_or (option_copied rest.entry) [] }
{
    match rest {
        Some(text) => text,
        None => b"",
    }
}
