//! The header that comes next in a source.
ghost use Rattle.std.specs.Prelude.{◌≡◌, ◌+◌, ◌*◌, ◌%◌, ◌<◌, ◌≤◌, ◌++◌, All, length, IfOk, IfErr, OnOk};
ghost use Rattle.fits_card.specs.declared.card.TheConstants.{CARD_LEN};
ghost use Rattle.fits_card.specs.declared.card_list.TheConstants.{BLOCK_LEN};
ghost use Rattle.fits_card.specs.Header.{header_bytes, joined_cards, AreFrontCards, IsHeader, IsInnerCard};
ghost use Rattle.fits_card.specs.HeaderReading.{FrontComes, HeaderStops};
ghost use Rattle.fits_card.specs.HeaderSteps.{pieces, IsEndPlace};
ghost use Rattle.fits_stream.specs.Intake.{supply, Takes, TakingStops};

use crate::card::{CARD_LEN, Card};
use crate::card_list::{BLOCK_LEN, CardList};
use crate::cut::{card_at, end_place};
use crate::fill::Fill;
use crate::header_front::HeaderFront;
use crate::room::room_for;
use fits_stream::{Intake, ReadFault, Source};
use std::alloc::{AllocError, Global};
use thiserror::Error;

/// Why no header was read.
#[derive(Clone, Copy, Debug, Error)]
pub enum ReadHeaderFault {
    /// There is no END card, or its block isn't whole.
    #[error("the header has no END, or its last block is not whole")]
    NoEnd,
    /// Memory was refused.
    #[error("out of memory")]
    Memory,
    /// A call of the source failed.
    #[error("a read failed")]
    Failed,
}

impl From<AllocError> for ReadHeaderFault {
    ghost use Rattle.fits_card.specs.declared.header_reading.ReadHeaderFault.TheVariants.{Memory};
    ghost use Rattle.std.specs.Prelude.{◌≡◌};

    ghost from_gives = { λ _ fault. fault ≡ Memory };

    fn from(_: AllocError) -> ReadHeaderFault {
        ReadHeaderFault::Memory
    }
}

/// The header that comes next (FITS Standard 4.0, section 3.3.1).
///
/// Block after block is taken, as far as the first that has an END. Memory is asked for as cards
/// come, and for them alone.
pub fn read_header<R: Source>(
    alloc: Global,
    intake: &mut Intake,
    source: &mut R,
) -> Result<CardList, ReadHeaderFault>
    ensures ok { IfOk result (λ list. Takes
        (supply (R.state source.old) intake.old) (supply (R.state source.new) intake.new)
        (header_bytes list.header)) }
    ensures whole { IfOk result (λ list. IsHeader list.header) }
    ensures unread { IfOk result (λ list. list.reads ≡ 0) }
    ensures err { IfErr result (HeaderStops
        (supply (R.state source.old) intake.old) (supply (R.state source.new) intake.new)) }
{
    match read_front(alloc, intake, source) {
        Ok(HeaderFront::Whole(list)) => Ok(list),
        Ok(HeaderFront::Cut(_)) => Err(ReadHeaderFault::NoEnd),
        Err(ReadFault::Memory) => Err(ReadHeaderFault::Memory),
        Err(ReadFault::Failed) => Err(ReadHeaderFault::Failed),
    }
}

/// The header that comes next, as `read_header`, or the cards before an END whose block isn't whole.
#[tactic(auto, using(crate::proofs::HeaderReadingLemmas::header_steps, fits_stream::proofs::SightLemmas::takes_steps))]
pub fn read_front<R: Source>(
    alloc: Global,
    intake: &mut Intake,
    source: &mut R,
) -> Result<HeaderFront, ReadFault>
    ensures ok { IfOk result (FrontComes
        (supply (R.state source.old) intake.old) (supply (R.state source.new) intake.new)) }
    ensures err { IfErr result (TakingStops (R.state source.old) (R.state source.new)) }
{
    let mut cards = Vec::new(alloc);
    'block: loop {
        let Ok(()) = intake.hold(source, BLOCK_LEN) else {
            return Err(ReadFault::Failed);
        };
        let ahead = intake.ahead();
        if ahead.len() < BLOCK_LEN {
            let Ok(cards) = cards_before_end(cards, ahead) else {
                return Err(ReadFault::Memory);
            };
            return Ok(HeaderFront::Cut(cards));
        }
        let (block, _) = ahead.split_at(BLOCK_LEN);
        if let Some(count) = end_place(block) {
            let Ok(()) = push_cards(&mut cards, block, count) else {
                return Err(ReadFault::Memory);
            };
            let Ok(list) = ended_list(alloc, cards, block, count) else {
                return Err(ReadFault::Memory);
            };
            intake.pass(BLOCK_LEN);
            return Ok(HeaderFront::Whole(list));
        }
        let Ok(()) = push_cards(&mut cards, block, BLOCK_LEN / CARD_LEN) else {
            return Err(ReadFault::Memory);
        };
        intake.pass(BLOCK_LEN);
    }
}

// Cards, and those of the block that follows them, before its END; none where it has no END.
#[tactic(auto, using(crate::proofs::FrontLemmas::front_steps))]
fn cards_before_end(mut cards: Vec<Card>, block: &[u8]) -> Result<Vec<Card>, AllocError>
    requires { All IsInnerCard cards.items }
    ensures { IfOk result (λ all. AreFrontCards (joined_cards cards.items ++ block.now) all.items) }
{
    match end_place(block) {
        Some(count) => {
            push_cards(&mut cards, block, count)?;
            Ok(cards)
        }
        None => {
            cards.clear();
            Ok(cards)
        }
    }
}

// The first cards of a block, after others.
#[tactic(auto, using(crate::proofs::HeaderReadingLemmas::push_steps))]
fn push_cards(cards: &mut Vec<Card>, block: &[u8], count: usize) -> Result<(), AllocError>
    requires { CARD_LEN * count ≤ length block.now }
    ensures { OnOk result (cards.new.items ≡ cards.old.items ++ pieces block.now count) }
{
    cards.reserve(room_for(count))?;
    for k in 0..count {
        cards.push(card_at(block, k))?;
    }
    Ok(())
}

// A header of cards of which the last ones stand in its last block, before END.
#[tactic(auto, using(crate::proofs::HeaderReadingLemmas::ending_steps))]
fn ended_list(
    alloc: Global,
    cards: Vec<Card>,
    block: &[u8],
    count: usize,
) -> Result<CardList, AllocError>
    requires whole { length block.now ≡ BLOCK_LEN }
    requires ends { IsEndPlace block.now count }
    requires inner { All IsInnerCard cards.items }
    requires full { (length cards.items) % 36 ≡ count }
    ensures cards { IfOk result (λ list. list.header.cards ≡ cards.items) }
    ensures ended { IfOk result (λ list. joined_cards (pieces block.now count)
        ++ (list.header.end ++ list.header.fill) ≡ block.now) }
    ensures whole { IfOk result (λ list. IsHeader list.header) }
    ensures unread { IfOk result (λ list. list.reads ≡ 0) }
{
    let (_, fill) = block.split_at(CARD_LEN * (count + 1));
    let fill = Fill::of(alloc, fill)?;
    CardList::of(alloc, cards, card_at(block, count), fill)
}
