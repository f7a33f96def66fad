ghost use Rattle.std.specs.Prelude.{◌≡◌, ◌≤◌, length};
ghost use Rattle.std.specs.List.{prefix_len};
ghost use Rattle.std.specs.Str.{bytes_eq};
ghost use Rattle.fits_card.specs.Name.{is_name_byte};

use std::marker::Model;

/// A keyword name: bytes 1 to 8 of a card, whatever they are (FITS Standard 4.0, section 4.1.2.1).
#[derive(Clone, Copy, PartialEq, Eq, PartialOrd, Ord, Debug)]
pub struct Name(pub [u8; 8]);

impl Model for Name {
    ghost use Rattle.std.specs.Prelude.{ℕ, List};

    ghost Value = { List ℕ };

    ghost view = { λ name. name.0 };

    ghost inverse = { λ bytes. record { 0 = bytes } };
}

impl Name {
    ghost use Rattle.fits_card.specs.Name.{end_name, blank_name, is_valueless, is_spelled, is_settable};

    /// Whether the name is this one.
    pub fn is(&self, text: &[u8; 8]) -> bool
        ensures { result ≡ bytes_eq self.now text.now }
    {
        are_same(&self.0, text)
    }

    /// The name of the card that ends a header.
    pub fn is_end(&self) -> bool
        ensures { result ≡ bytes_eq self.now end_name }
    {
        self.is(b"END     ")
    }

    /// Whether no card of this name has a value: commentary, CONTINUE and END.
    #[tactic(auto, unfolding(crate::specs::Name::is_valueless))]
    pub fn is_valueless(&self) -> bool
        ensures { result ≡ is_valueless self.now }
    {
        self.is(b"COMMENT ")
            || self.is(b"HISTORY ")
            || self.is(b"CONTINUE")
            || self.is_end()
            || self.is_blank()
    }

    /// The name of spaces alone.
    pub fn is_blank(&self) -> bool
        ensures { result ≡ bytes_eq self.now blank_name }
    {
        self.is(b"        ")
    }

    /// Whether the name is spelled as the standard asks: capital letters, digits, hyphens and
    /// underscores, then spaces.
    #[tactic(auto, unfolding(crate::specs::Name::is_spelled))]
    pub fn is_spelled(&self) -> bool
        ensures { result ≡ is_spelled self.now }
    {
        let (_, rest) = self.0.split_at(spelled_len(&self.0));
        rest.iter().all(|byte| *byte == b' ')
    }

    /// Whether a card of this name may be given a value.
    #[tactic(auto, unfolding(crate::specs::Name::is_settable))]
    pub fn is_settable(&self) -> bool
        ensures { result ≡ is_settable self.now }
    {
        self.is_spelled() && !self.is_valueless()
    }
}

// How many characters of a name stand at the front.
fn spelled_len(text: &[u8]) -> usize
    ensures value { result ≡ prefix_len is_name_byte text.now }
    ensures within { result ≤ length text.now }
{
    for (index, byte) in text.iter().enumerate() {
        if !matches!(byte, b'A'..=b'Z' | b'0'..=b'9' | b'-' | b'_') {
            return index;
        }
    }
    text.len()
}

// Whether two names have the same bytes, compared as one number each.
fn are_same(name: &[u8; 8], other: &[u8; 8]) -> bool
    ensures { result ≡ bytes_eq name.now other.now }
{
    u64::from_be_bytes(*name) == u64::from_be_bytes(*other)
}
