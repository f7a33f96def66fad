//! The verbs of a script's lines.
ghost use Rattle.std.specs.Prelude.{◌≡◌, map};
ghost use Rattle.std.specs.Char.{to_ascii_lowercase};
ghost use Rattle.std.specs.Str.{bytes_eq};
ghost use Rattle.fits_script.specs.Words.{verb_of, verb_word};
ghost use Rattle.fits_script.specs.Misfit.{is_capital_verb};

use crate::words::is_word;

/// What the first word of a line asks for.
#[derive(Clone, Copy)]
pub enum Verb {
    Insert,
    Put,
    Delete,
    Move,
    Set,
    Unset,
    Fill,
    Write,
    Reshape,
    New,
    Remove,
    Stamp,
    Keep,
    Release,
    Kept,
    Get,
    Positions,
    Statistics,
    Rectangle,
    Sums,
    Offsets,
    Report,
}

/// All verbs.
const VERBS: [Verb; 22] = [
    Verb::Insert,
    Verb::Put,
    Verb::Delete,
    Verb::Move,
    Verb::Set,
    Verb::Unset,
    Verb::Fill,
    Verb::Write,
    Verb::Reshape,
    Verb::New,
    Verb::Remove,
    Verb::Stamp,
    Verb::Keep,
    Verb::Release,
    Verb::Kept,
    Verb::Get,
    Verb::Positions,
    Verb::Statistics,
    Verb::Rectangle,
    Verb::Sums,
    Verb::Offsets,
    Verb::Report,
];

/// The verb that a word is.
#[tactic(auto, unfolding(crate::specs::Words::verb_of))]
pub(crate) fn verb_of(word: &[u8]) -> Option<Verb>
    ensures { result ≡ verb_of word.now }
{
    VERBS
        .iter()
        .copied()
        .find(|verb| is_word(word, word_of(*verb)))
}

/// Whether a word is a verb but for its letters, of which some are capitals.
#[tactic(auto, unfolding(crate::specs::Misfit::is_capital_verb))]
pub(crate) fn is_capital_verb(word: &[u8]) -> bool
    ensures { result ≡ is_capital_verb word.now }
{
    VERBS.iter().any(|verb| is_in_capitals(word, *verb))
}

// Whether a word is a verb's but for its letters.
#[tactic(auto, using(crate::proofs::VerbLemmas::letter_steps))]
fn is_in_capitals(word: &[u8], verb: Verb) -> bool
    ensures { result ≡ bytes_eq (map to_ascii_lowercase word.now) (verb_word verb) }
{
    word.eq_ignore_ascii_case(word_of(verb))
}

// The word of a verb.
fn word_of(verb: Verb) -> &'static [u8]
    ensures { result.now ≡ verb_word verb }
{
    match verb {
        Verb::Insert => b"ins",
        Verb::Put => b"put",
        Verb::Delete => b"del",
        Verb::Move => b"mov",
        Verb::Set => b"set",
        Verb::Unset => b"unset",
        Verb::Fill => b"fill",
        Verb::Write => b"write",
        Verb::Reshape => b"reshape",
        Verb::New => b"new",
        Verb::Remove => b"rm",
        Verb::Stamp => b"stamp",
        Verb::Keep => b"keep",
        Verb::Release => b"release",
        Verb::Kept => b"kept",
        Verb::Get => b"get",
        Verb::Positions => b"pos",
        Verb::Statistics => b"stat",
        Verb::Rectangle => b"rect",
        Verb::Sums => b"sum",
        Verb::Offsets => b"off",
        Verb::Report => b"rep",
    }
}
