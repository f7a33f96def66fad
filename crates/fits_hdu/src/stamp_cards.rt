use crate::one_card::OneCard;
use std::alloc::{AllocError, Global};

/// Room for the cards of a stamp, asked for before their sums are known.
#[derive(Drop)]
pub struct StampCards {
    /// CHECKSUM with sixteen `0`.
    pub(crate) zeros: OneCard,
    pub(crate) datasum: OneCard,
    /// CHECKSUM with its text.
    pub(crate) checksum: OneCard,
}

impl StampCards {
    /// Err: memory was refused.
    pub fn new(alloc: Global) -> Result<StampCards, AllocError> {
        Ok(StampCards {
            zeros: OneCard::new(alloc)?,
            datasum: OneCard::new(alloc)?,
            checksum: OneCard::new(alloc)?,
        })
    }
}
