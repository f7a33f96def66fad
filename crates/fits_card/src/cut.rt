//! The header at the front of bytes.
ghost use Rattle.std.specs.Prelude.{◌≡◌, ◌+◌, ◌*◌, ◌≤◌, false, length, drop, IfOk, IfSome, IfNone, IsErrOf, IsTrue};
ghost use Rattle.fits_card.specs.declared.card.TheConstants.{CARD_LEN};
ghost use Rattle.fits_card.specs.Header.{header_bytes, IsHeaderOf, HasNoHeader};
ghost use Rattle.fits_card.specs.HeaderSteps.{piece, HasHeader, IsEndPlace, HasNoEnd};

use crate::card::{CARD_LEN, Card};
use crate::card_list::CardList;
use crate::fill::fill_len;
use crate::header_reading::{ReadHeaderFault, read_header};
use fits_stream::Intake;
use std::alloc::{AllocError, Global};
use thiserror::Error;

/// Why no header was cut.
#[derive(Clone, Copy, Debug, Error)]
pub enum HeaderFault {
    /// There is no END card, or its block isn't whole.
    #[error("the header has no END, or its last block is not whole")]
    NoEnd,
    /// Memory was refused.
    #[error("out of memory")]
    Memory,
}

impl From<AllocError> for HeaderFault {
    ghost use Rattle.fits_card.specs.declared.cut.HeaderFault.TheVariants.{Memory};
    ghost use Rattle.std.specs.Prelude.{◌≡◌};

    ghost from_gives = { λ _ fault. fault ≡ Memory };

    fn from(_: AllocError) -> HeaderFault {
        HeaderFault::Memory
    }
}

/// The header at the front of these bytes, and how many bytes it has (FITS Standard 4.0, 3.3.1).
///
/// Whether there is one is found before any memory is asked for.
pub fn cut_header(alloc: Global, bytes: &[u8]) -> Result<(CardList, usize), HeaderFault>
    ensures found { IfOk result (λ cut. IsHeaderOf bytes.now cut.0.header (drop cut.1 bytes.now)) }
    ensures len { IfOk result (λ cut. cut.1 ≡ length (header_bytes cut.0.header)) }
    ensures within { IfOk result (λ cut. cut.1 ≤ length bytes.now) }
    ensures unread { IfOk result (λ cut. cut.0.reads ≡ 0) }
    ensures none { IsErrOf result HeaderFault.NoEnd → HasNoHeader bytes.now }
    ensures no_end { HasNoHeader bytes.now → IsErrOf result HeaderFault.NoEnd }
{
    let Some(len) = front_len(bytes) else {
        return Err(HeaderFault::NoEnd);
    };
    let mut intake = Intake::of(bytes);
    let mut none: &[u8] = &[];
    match read_header(alloc, &mut intake, &mut none) {
        Ok(header) => Ok((header, len)),
        Err(ReadHeaderFault::Memory) => Err(HeaderFault::Memory),
        // A header is there.
        Err(ReadHeaderFault::NoEnd) => unreachable!(),
        // Nothing is read, and no bytes fail.
        Err(ReadHeaderFault::Failed) => unreachable!(),
    }
}

/// Whether a header stands at the front of these bytes. It takes no memory.
pub fn has_header(bytes: &[u8]) -> bool
    ensures there { IsTrue result → HasNoHeader bytes.now → ⊥ }
    ensures none { result ≡ false → HasNoHeader bytes.now }
{
    front_len(bytes).is_some()
}

// How many bytes the header at the front has, if there is one.
fn front_len(bytes: &[u8]) -> Option<usize>
    ensures found { IfSome result (HasHeader bytes.now) }
    ensures none { IfNone result (HasNoHeader bytes.now) }
{
    let Some(count) = end_place(bytes) else {
        return None;
    };
    let len = CARD_LEN * (count + 1) + fill_len(count);
    if bytes.len() < len {
        return None;
    }
    Some(len)
}

// How many cards stand before the first that is named END.
pub(crate) fn end_place(bytes: &[u8]) -> Option<usize>
    ensures found { IfSome result (IsEndPlace bytes.now) }
    ensures none { IfNone result (HasNoEnd bytes.now) }
{
    for k in 0..bytes.len() / CARD_LEN {
        if card_at(bytes, k).is_end() {
            return Some(k);
        }
    }
    None
}

pub(crate) fn card_at(bytes: &[u8], k: usize) -> Card
    requires { CARD_LEN * (k + 1) ≤ length bytes.now }
    ensures { result ≡ piece bytes.now k }
{
    let (_, rest) = bytes.split_at(CARD_LEN * k);
    let (piece, _) = rest.split_at(CARD_LEN);
    let mut card = [0u8; CARD_LEN];
    card.copy_from_slice(piece);
    Card(card)
}
