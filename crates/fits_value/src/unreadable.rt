//! Why a text says no value.
ghost use Rattle.std.specs.Prelude.{◌≡◌, ◌==◌, map, None, Some};
ghost use Rattle.std.specs.Char.{to_ascii_lowercase};
ghost use Rattle.std.specs.List.{list_any};
ghost use Rattle.std.specs.Option.{is_none, is_some};
ghost use Rattle.std.specs.Str.{bytes_eq};
ghost use Rattle.fits_value.specs.Says.{field_says};
ghost use Rattle.fits_value.specs.Scan.{front_value};
ghost use Rattle.fits_value.specs.Unreadable.{after_fault, before_comment, begins_comment, begins_small_exponent, body_fault, front_word, is_ending, is_logical_word};
ghost use Rattle.fits_value.specs.Unreadable.{number_fault, plain_text, rest_fault, string_fault, unreadable_of, unspaced, word_fault};

use crate::decimal::split_sign;
use crate::excerpt::Excerpt;
use crate::reading::ValueKind;
use crate::runs::gap_len;
use crate::scan_value::scan_value;
use crate::spaces::{spaces_len, trimmed_len};
use fits_card::is_text;

/// Why a text says no value and comment, for whoever wrote it.
#[derive(Drop)]
pub enum Unreadable<'a> {
    /// A byte isn't a character of text.
    NoText,
    /// No quote ends the string.
    OpenString,
    /// A quote ends the string and another one follows: in a string it stands twice.
    BareQuote,
    /// What follows the value is no comment.
    TextAfter,
    /// The letter of the exponent isn't a capital.
    SmallExponent,
    /// `true`, `false`, `t` or `f`, in small letters or capitals: it is T or F.
    LogicalWord,
    /// An equals sign comes first.
    EqualsSign,
    /// A double quote comes first.
    DoubleQuote,
    /// A string that doesn't stand in quotes.
    Unquoted(Excerpt<'a>),
    /// Anything else: its first word.
    NoValue(Excerpt<'a>),
}

/// Why a text says no value and comment; none where it says them. It takes no memory.
#[tactic(auto, using(crate::proofs::UnreadableLemmas::unreadable_steps), unfolding(crate::specs::Unreadable::unreadable_of))]
pub fn unreadable_of(text: &[u8]) -> Option<Unreadable<'_>>
    ensures value { result ≡ unreadable_of text.now }
    ensures exact { is_none (unreadable_of text.now) ≡ is_some (field_says text.now) }
{
    if !is_text(text) {
        return Some(Unreadable::NoText);
    }
    body_fault(unspaced(text))
}

// Why a text that begins with no space says nothing.
fn body_fault(body: &[u8]) -> Option<Unreadable<'_>>
    ensures { result ≡ body_fault body.now (front_value body.now) }
{
    let Some((kind, size)) = scan_value(body) else {
        return Some(valueless_fault(body));
    };
    let (_, rest) = body.split_at(size);
    if is_ending(unspaced(rest)) {
        return None;
    }
    Some(after_fault(kind, body, rest))
}

// Why no value stands at the front.
fn valueless_fault(body: &[u8]) -> Unreadable<'_>
    ensures { Some result ≡ body_fault body.now None }
{
    match body {
        [b'\'', ..] => Unreadable::OpenString,
        _ => word_fault(body),
    }
}

// Why what follows a value of this kind is no comment.
#[tactic(auto, unfolding(crate::specs::Unreadable::after_fault))]
fn after_fault<'a>(kind: ValueKind, body: &'a [u8], rest: &[u8]) -> Unreadable<'a>
    ensures { result ≡ after_fault kind body.now rest.now }
{
    match kind {
        ValueKind::Str => string_fault(rest),
        ValueKind::Integer => number_fault(body, rest),
        ValueKind::Real => number_fault(body, rest),
        _ => rest_fault(body, rest),
    }
}

// Why what follows a string is no comment.
fn string_fault<'a>(rest: &[u8]) -> Unreadable<'a>
    ensures { result ≡ string_fault rest.now }
{
    if has_quote(rest) {
        Unreadable::BareQuote
    } else {
        Unreadable::TextAfter
    }
}

// Whether a quote stands in a text.
fn has_quote(text: &[u8]) -> bool
    ensures { result ≡ list_any (λ b. b == 39) text.now }
{
    text.iter().any(|byte| *byte == b'\'')
}

// Why what follows a number is no comment.
fn number_fault<'a>(body: &'a [u8], rest: &[u8]) -> Unreadable<'a>
    ensures { result ≡ number_fault body.now rest.now }
{
    if begins_small_exponent(rest) {
        Unreadable::SmallExponent
    } else {
        rest_fault(body, rest)
    }
}

// Whether an exponent comes first whose letter is small.
fn begins_small_exponent(text: &[u8]) -> bool
    ensures { result ≡ begins_small_exponent text.now }
{
    match text {
        [b'e' | b'd', power @ ..] => matches!(split_sign(power).1, [b'0'..=b'9', ..]),
        _ => false,
    }
}

// Why a text is no value, by what follows the value at its front.
#[tactic(auto, unfolding(crate::specs::Unreadable::rest_fault))]
fn rest_fault<'a>(body: &'a [u8], rest: &[u8]) -> Unreadable<'a>
    ensures { result ≡ rest_fault body.now rest.now }
{
    match rest {
        [b' ', ..] => Unreadable::TextAfter,
        [b'-' | b':', ..] => Unreadable::Unquoted(Excerpt::new(plain_text(body))),
        _ => word_fault(body),
    }
}

// Why a text is no value, by its first word.
#[tactic(auto, unfolding(crate::specs::Unreadable::word_fault))]
fn word_fault(body: &[u8]) -> Unreadable<'_>
    ensures { result ≡ word_fault body.now }
{
    let word = front_word(body);
    if is_logical_word(word) {
        return Unreadable::LogicalWord;
    }
    match body {
        [b'=', ..] => Unreadable::EqualsSign,
        [b'"', ..] => Unreadable::DoubleQuote,
        [byte, ..] if byte.is_ascii_alphabetic() => {
            Unreadable::Unquoted(Excerpt::new(plain_text(body)))
        }
        _ => Unreadable::NoValue(Excerpt::new(word)),
    }
}

// Whether a word is meant as a logical value.
#[tactic(auto, unfolding(crate::specs::Unreadable::is_logical_word))]
fn is_logical_word(word: &[u8]) -> bool
    ensures { result ≡ is_logical_word word.now }
{
    is_spelled(word, b"true")
        || is_spelled(word, b"false")
        || is_spelled(word, b"t")
        || is_spelled(word, b"f")
}

// Whether a word has these letters, in small letters or capitals.
#[tactic(auto, using(crate::proofs::UnreadableLemmas::letter_steps))]
fn is_spelled(word: &[u8], letters: &[u8]) -> bool
    ensures { result ≡ bytes_eq (map to_ascii_lowercase word.now)
        (map to_ascii_lowercase letters.now) }
{
    word.eq_ignore_ascii_case(letters)
}

// The bytes before the first space.
#[tactic(auto, unfolding(crate::specs::Unreadable::front_word))]
fn front_word(text: &[u8]) -> &[u8]
    ensures { result.now ≡ front_word text.now }
{
    text.split_at(gap_len(text, b' ')).0
}

// All before a comment, without spaces at its end.
fn plain_text(text: &[u8]) -> &[u8]
    ensures { result.now ≡ plain_text text.now }
{
    let front = before_comment(text);
    front.split_at(trimmed_len(front)).0
}

// The bytes before the first space that a slash follows.
#[tactic(auto, using(crate::proofs::UnreadableLemmas::comment_steps))]
fn before_comment(text: &[u8]) -> &[u8]
    ensures { result.now ≡ before_comment text.now }
{
    for i in 0..text.len() {
        let (front, rest) = text.split_at(i);
        if begins_comment(rest) {
            return front;
        }
    }
    text
}

// Whether a space and a slash come first.
fn begins_comment(text: &[u8]) -> bool
    ensures { result ≡ begins_comment text.now }
{
    matches!(text, [b' ', b'/', ..])
}

// A text without the spaces at its front.
fn unspaced(text: &[u8]) -> &[u8]
    ensures { result.now ≡ unspaced text.now }
{
    text.split_at(spaces_len(text)).1
}

// Whether nothing or a slash comes first.
fn is_ending(text: &[u8]) -> bool
    ensures { result ≡ is_ending text.now }
{
    matches!(text, [] | [b'/', ..])
}
