ghost use Rattle.std.specs.Prelude.{◌≡◌, ◌≤◌, nat_eq, length, replicate, IfOk};
ghost use Rattle.std.specs.List.{list_all};
ghost use Rattle.fits_card.specs.Fill.{fill_bytes};
ghost use Rattle.fits_card.specs.Header.{fill_length};

use crate::card::CARD_LEN;
use crate::text::are_spaces;
use std::alloc::{AllocError, Global};

/// The longest fill: the block of an END that stands first in it, without END.
pub(crate) const LONGEST_FILL: usize = 2800;

static SPACES: [u8; LONGEST_FILL] = [b' '; LONGEST_FILL];

/// The bytes after END, to the end of its block (FITS Standard 4.0, section 3.3.1): spaces, of which
/// the number alone is kept, or others as they were read.
#[derive(Drop)]
pub(crate) enum Fill {
    Spaces(usize),
    Other(Vec<u8>),
}

impl Fill {
    ghost use Rattle.std.specs.Prelude.{◌≡◌, ◌≤◌, nat_eq, length, replicate, IfOk};
    ghost use Rattle.std.specs.List.{list_all};
    ghost use Rattle.fits_card.specs.declared.fill.TheConstants.{LONGEST_FILL};
    ghost use Rattle.fits_card.specs.Fill.{fill_bytes};
    ghost use Rattle.fits_card.specs.Header.{fill_length};

    /// A fill of these bytes.
    pub(crate) fn of(alloc: Global, bytes: &[u8]) -> Result<Fill, AllocError>
        ensures { IfOk result (λ fill. fill_bytes fill ≡ bytes.now) }
    {
        if are_spaces(bytes) {
            return Ok(Fill::Spaces(bytes.len()));
        }
        let mut other = Vec::with_capacity(alloc, bytes.len())?;
        other.extend_from_slice(bytes)?;
        Ok(Fill::Other(other))
    }

    /// The spaces that follow END after so many cards.
    pub(crate) fn blank(cards: usize) -> Fill
        ensures { fill_bytes result ≡ replicate (fill_length cards) 32 }
    {
        Fill::Spaces(fill_len(cards))
    }

    pub(crate) fn bytes(&self) -> &[u8]
        requires { length (fill_bytes self.now) ≤ LONGEST_FILL }
        ensures { result.now ≡ fill_bytes self.now }
    {
        match self {
            Fill::Spaces(count) => spaces(*count),
            Fill::Other(bytes) => bytes.as_slice(),
        }
    }

    pub(crate) fn len(&self) -> usize
        ensures { result ≡ length (fill_bytes self.now) }
    {
        match self {
            Fill::Spaces(count) => *count,
            Fill::Other(bytes) => bytes.len(),
        }
    }

    /// Whether it is spaces. Where it was read so, no byte is looked at.
    pub(crate) fn is_blank(&self) -> bool
        ensures { result ≡ list_all (nat_eq 32) (fill_bytes self.now) }
    {
        match self {
            Fill::Spaces(_) => true,
            Fill::Other(bytes) => are_spaces(bytes.as_slice()),
        }
    }
}

// So many spaces.
fn spaces(count: usize) -> &'static [u8]
    requires { count ≤ LONGEST_FILL }
    ensures { result.now ≡ replicate count 32 }
{
    &SPACES[..count]
}

/// How many bytes of fill follow END after so many cards.
#[tactic(auto, using(crate::proofs::HeaderLemmas::fill_steps))]
pub(crate) fn fill_len(cards: usize) -> usize
    ensures value { result ≡ fill_length cards }
    ensures within { result ≤ LONGEST_FILL }
{
    CARD_LEN * (35 - cards % 36)
}
