ghost use Rattle.std.specs.Prelude.{◌≡◌};
ghost use Rattle.fits_tell.specs.Patterns.{fronts, whole};

use fits_card::Name;
use fits_script::padded_name;

/// How many bytes a keyword name has (FITS Standard 4.0, section 4.1.2.1).
const NAME_LEN: usize = 8;

/// A keyword name, or the front of names.
#[derive(Clone, Copy)]
pub struct NamePattern {
    /// The name, or its front and then spaces.
    pub name: Name,
    /// How many of its bytes count, at most 8: all of them of a name.
    pub len: usize,
}

impl NamePattern {
    ghost use Rattle.std.specs.Prelude.{◌≡◌};
    ghost use Rattle.fits_tell.specs.Cards.{fits};
    ghost use Rattle.fits_tell.specs.Patterns.{pattern_of};

    /// What a word asks for: the name that it is, or with an asterisk at its end all that begin so.
    /// None where that has more than 8 bytes.
    #[tactic(auto, using(crate::proofs::CardLemmas::pattern_steps), unfolding(crate::specs::Patterns::pattern_of))]
    pub fn of(word: &[u8]) -> Option<NamePattern>
        ensures { result ≡ pattern_of word.now }
    {
        match word {
            [front @ .., b'*'] => fronts(front),
            _ => whole(word),
        }
    }

    /// Whether a name is one of these.
    #[tactic(auto, using(crate::proofs::CardLemmas::pattern_steps))]
    pub fn fits(&self, name: &Name) -> bool
        ensures { result ≡ fits name.now self.now }
    {
        let len = self.len.min(NAME_LEN);
        let (asked, _) = self.name.0.split_at(len);
        let (front, _) = name.0.split_at(len);
        front == asked
    }
}

// The names that begin with a text.
fn fronts(front: &[u8]) -> Option<NamePattern>
    ensures { result ≡ fronts front.now }
{
    if front.len() > NAME_LEN {
        return None;
    }
    Some(NamePattern {
        name: padded_name(front),
        len: front.len(),
    })
}

// The name that a word is.
fn whole(word: &[u8]) -> Option<NamePattern>
    ensures { result ≡ whole word.now }
{
    if word.len() > NAME_LEN {
        return None;
    }
    Some(NamePattern {
        name: padded_name(word),
        len: NAME_LEN,
    })
}
