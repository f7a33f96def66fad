//! The verbs that extended lines have beside those of plain ones.
ghost use Rattle.std.specs.Prelude.{◌≡◌};
ghost use Rattle.std.specs.Str.{bytes_eq};
ghost use Rattle.fits_extended.specs.Words.{extended_verb_of, extended_word};

use crate::keyword_verb::KeywordVerb;

/// What the first word of an extended line asks for.
#[derive(Clone, Copy)]
pub enum ExtendedVerb {
    /// Something of a keyword.
    Keyword(KeywordVerb),
    /// A card comes after the last one that isn't blank.
    Add,
    /// HISTORY cards come after the last one that isn't blank.
    History,
}

/// All of them.
const EXTENDED_VERBS: [ExtendedVerb; 7] = [
    ExtendedVerb::Keyword(KeywordVerb::Value),
    ExtendedVerb::Keyword(KeywordVerb::Note),
    ExtendedVerb::Keyword(KeywordVerb::Rename),
    ExtendedVerb::Keyword(KeywordVerb::Want),
    ExtendedVerb::Keyword(KeywordVerb::Lack),
    ExtendedVerb::Add,
    ExtendedVerb::History,
];

/// The extended verb that a word is.
#[tactic(auto, unfolding(crate::specs::Words::extended_verb_of))]
pub(crate) fn extended_verb_of(word: &[u8]) -> Option<ExtendedVerb>
    ensures { result ≡ extended_verb_of word.now }
{
    EXTENDED_VERBS
        .iter()
        .copied()
        .find(|verb| is_word(word, word_of(*verb)))
}

// Whether a word is this one.
fn is_word(word: &[u8], this: &[u8]) -> bool
    ensures { result ≡ bytes_eq word.now this.now }
{
    word == this
}

// The word of an extended verb.
fn word_of(verb: ExtendedVerb) -> &'static [u8]
    ensures { result.now ≡ extended_word verb }
{
    match verb {
        ExtendedVerb::Keyword(KeywordVerb::Value) => b"val",
        ExtendedVerb::Keyword(KeywordVerb::Note) => b"note",
        ExtendedVerb::Keyword(KeywordVerb::Rename) => b"ren",
        ExtendedVerb::Keyword(KeywordVerb::Want) => b"want",
        ExtendedVerb::Keyword(KeywordVerb::Lack) => b"lack",
        ExtendedVerb::Add => b"add",
        ExtendedVerb::History => b"hist",
    }
}
