//! The cards of a header, in the slots of an order.
ghost use Rattle.std.specs.Prelude.{◌≡◌, ◌≤◌, ◌<◌, ◌+◌, length, slice_set, All, OnOk, OnErr};
ghost use Rattle.fits_card.specs.declared.card.TheConstants.{CARD_LEN};
ghost use Rattle.fits_card.specs.Change.{spliced};
ghost use Rattle.fits_card.specs.Header.{joined_cards};
ghost use Rattle.fits_stream.specs.Stream.{Prints, PrintsFront};

use crate::card::Card;
use crate::slotted::Slotted;
use fits_stream::{Count, Sink, write_all};
use std::io;

/// From a place on, so many cards go, and these stand there instead.
#[tactic(auto, using(crate::proofs::SlottedLemmas::splice_steps))]
pub(crate) fn splice_cards(cards: &mut Slotted<Card>, place: usize, removed: usize, new: &[Card])
    requires from { 1 ≤ place }
    requires to { place + removed ≤ length cards.old.items + 1 }
    requires room { length new.now ≤ cards.old.room + removed }
    ensures cards { cards.new.items ≡ spliced cards.old.items place removed new.now }
    ensures len { length cards.new.items + removed ≡ length cards.old.items + length new.now }
    ensures room { cards.old.room + removed ≤ cards.new.room + length new.now }
    ensures sizes { All (λ card. length card ≡ CARD_LEN) new.now }
{
    cards.make_room(place, removed, new.len(), Card::padded(b""));
    write_over(cards, place, new);
}

// Writes cards over others, from a place on.
#[tactic(auto, using(crate::proofs::SlottedLemmas::write_steps))]
fn write_over(cards: &mut Slotted<Card>, place: usize, new: &[Card])
    requires from { 1 ≤ place }
    requires to { place + length new.now ≤ length cards.old.items + 1 }
    ensures cards { cards.new.items ≡ spliced cards.old.items place (length new.now) new.now }
    ensures len { length cards.new.items ≡ length cards.old.items }
    ensures room { cards.new.room ≡ cards.old.room }
    ensures sizes { All (λ card. length card ≡ CARD_LEN) new.now }
{
    let _few = cards.len();
    for index in 0..new.len() {
        write_card(cards, place - 1 + index, new[index]);
    }
}

// Writes a card over another.
fn write_card(cards: &mut Slotted<Card>, index: usize, card: Card)
    requires { index < length cards.old.items }
    ensures cards { cards.new.items ≡ slice_set cards.old.items index card }
    ensures room { cards.new.room ≡ cards.old.room }
    ensures size { length card ≡ CARD_LEN }
{
    cards.set(index, card);
}

/// Writes the cards, in their order.
#[tactic(auto, using(crate::proofs::EmitLemmas::card_steps))]
pub(crate) fn write_cards<W: Sink>(
    cards: &Slotted<Card>,
    reads: &mut Count,
    sink: &mut W,
) -> io::Result<()>
    ensures ok { OnOk result (Prints (joined_cards cards.now.items)
        (W.state sink.old) (W.state sink.new)) }
    ensures err { OnErr result (PrintsFront (joined_cards cards.now.items)
        (W.state sink.old) (W.state sink.new)) }
    ensures work { OnOk result (reads.new.total ≡ reads.old.total + length cards.now.items) }
    ensures least_work { reads.old.total ≤ reads.new.total }
    ensures most_work { reads.new.total ≤ reads.old.total + length cards.now.items }
{
    for index in 0..cards.len() {
        reads.tick();
        write_all(sink, cards.at(index).bytes())?;
    }
    Ok(())
}
