//! What a keyword says.
ghost use Rattle.std.specs.Prelude.{◌≡◌, Ok, IfOk, IfErr};
ghost use Rattle.fits_header.specs.State.{ReadsUpTo};
ghost use Rattle.fits_hdu.specs.Keyword.{keyword_cards, keyword_value, KeywordFails};
ghost use Rattle.fits_hdu.specs.Work.{keyword_reads};

use crate::keyword_cards::KeywordCards;
use fits_card::Name;
use fits_header::Header;
use fits_value::{Text, Value};
use std::alloc::{AllocError, Global};
use thiserror::Error;

/// Why a keyword gave no value.
#[derive(Clone, Copy, Debug, Error)]
pub enum KeywordFault {
    /// No card of this name has a value (FITS Standard 4.0, section 4.1.2.2).
    #[error("no card of this name has a value")]
    NoKey,
    /// The first card that has one doesn't read as a value (4.1.2.3).
    #[error("the value of the first card of this name cannot be read")]
    BadValue,
    /// Memory was refused.
    #[error("out of memory")]
    Memory,
}

impl From<AllocError> for KeywordFault {
    ghost use Rattle.fits_hdu.specs.declared.keyword.KeywordFault.TheVariants.{Memory};
    ghost use Rattle.std.specs.Prelude.{◌≡◌};

    ghost from_gives = { λ _ fault. fault ≡ Memory };

    fn from(_: AllocError) -> KeywordFault {
        KeywordFault::Memory
    }
}

/// The value and the comment of the lead of a name, with the lead's CONTINUE cards.
#[tactic(auto, using(crate::proofs::KeywordLemmas::keyword_steps))]
pub(crate) fn keyword_value(
    alloc: Global,
    header: &mut Header,
    name: &Name,
) -> Result<(Value, Option<Text>), KeywordFault>
    ensures ok { IfOk result (λ said. keyword_value header.old.header.cards name.now ≡ Ok said) }
    ensures err { IfErr result (KeywordFails header.old.header.cards name.now) }
    ensures work { ReadsUpTo header.old header.new
        (keyword_reads header.old.header.cards name.now) }
{
    let Some(place) = header.lead(name) else {
        return Err(KeywordFault::NoKey);
    };
    match header.long_value(alloc, place)? {
        Some(said) => Ok(said),
        None => Err(KeywordFault::BadValue),
    }
}

/// Where the cards of a name stand: its lead, and the CONTINUE cards that belong to it.
#[tactic(auto, using(crate::proofs::KeywordLemmas::keyword_steps))]
pub(crate) fn keyword_cards(header: &mut Header, name: &Name) -> Option<KeywordCards>
    ensures value { result ≡ keyword_cards header.old.header.cards name.now }
    ensures work { ReadsUpTo header.old header.new
        (keyword_reads header.old.header.cards name.now) }
{
    let place = header.lead(name)?;
    let links = header.link_count(place);
    prove!(links < header.len());
    Some(KeywordCards {
        place,
        count: 1 + links,
    })
}
