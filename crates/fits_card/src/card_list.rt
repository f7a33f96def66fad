ghost use Rattle.std.specs.Prelude.{◌≡◌, ◌*◌, ◌^◌, ◌≤◌};
ghost use Rattle.fits_card.specs.declared.card.TheConstants.{CARD_LEN};
ghost use Rattle.fits_card.specs.Header.{header_length};

use crate::card::{CARD_LEN, Card};
use crate::fill::{Fill, fill_len};
use crate::room::room_for;
use crate::slotted::Slotted;
use crate::slotted_cards::{splice_cards, write_cards};
use crate::text::are_spaces;
use fits_stream::{Count, Sink, write_all};
use std::alloc::{AllocError, Global};
use std::io;
use std::marker::Model;

/// How many bytes a FITS block has (FITS Standard 4.0, section 3.1).
pub const BLOCK_LEN: usize = 2880;

/// Up to so many cards a header keeps no more room than it was opened with room for.
const FEW_CARDS: usize = 4096;

/// A header that takes edits: its cards, its END card and the fill of its last block.
///
/// Places count from 1 and don't count END. Contracts see the header, how many cards were read so
/// far, and how many more cards have reserved room.
#[derive(Drop)]
pub struct CardList {
    pub(crate) cards: Slotted<Card>,
    pub(crate) end: Card,
    pub(crate) fill: Fill,
    pub(crate) reads: Count,
    // How many more cards have reserved room.
    pub(crate) room: usize,
}

impl Model for CardList {
    ghost use Rattle.std.specs.Prelude.{◌≤◌};
    ghost use Rattle.fits_card.specs.CardList.{CardStore};
    ghost use Rattle.fits_card.specs.Fill.{fill_bytes};
    ghost use Rattle.fits_card.specs.Header.{IsHeader};

    ghost Value = { CardStore };

    ghost view = { λ list. record {
      header = record { cards = list.cards.items; end = list.end; fill = fill_bytes list.fill };
      reads = list.reads.total;
      room = list.room;
    } };

    ghost invariant = { λ list. record {
      card_room : list.room ≤ list.cards.room;
      whole : IsHeader (record {
        cards = list.cards.items;
        end = list.end;
        fill = fill_bytes list.fill;
      });
    } };
}

impl CardList {
    ghost use Rattle.std.specs.Prelude.{◌≡◌, ◌+◌, ◌-◌, ◌*◌, ◌^◌, ◌≤◌, ◌<◌, [], ◌∷◌, length, slice_index_or, vec_capacity, All, IfOk, IsOk, OnOk, OnErr};
    ghost use Rattle.fits_card.specs.Fill.{fill_bytes};
    ghost use Rattle.fits_stream.specs.Stream.{Prints, PrintsFront};
    ghost use Rattle.fits_card.specs.Card.{IsEnd};
    ghost use Rattle.fits_card.specs.declared.card.TheConstants.{CARD_LEN};
    ghost use Rattle.fits_card.specs.CardList.{ReadsUpTo};
    ghost use Rattle.fits_card.specs.Change.{spliced, moved};
    ghost use Rattle.fits_card.specs.Header.{IsHeader, IsInnerCard, header_bytes, new_header, with_cards, is_end_blank, is_fill_blank};

    /// The header of these cards: END without more, and spaces to the end of its block (FITS
    /// Standard 4.0, section 3.3.1).
    #[tactic(auto, using(crate::proofs::HeaderLemmas::new_whole))]
    pub fn new(alloc: Global, cards: Vec<Card>) -> Result<CardList, AllocError>
        requires { All IsInnerCard cards.items }
        ensures header { IfOk result (λ list. list.header ≡ new_header cards.items) }
        ensures unread { IfOk result (λ list. list.reads ≡ 0) }
    {
        let fill = Fill::blank(cards.len());
        CardList::of(alloc, cards, Card::padded(b"END"), fill)
    }

    // The header of these cards, with END and its fill.
    pub(crate) fn of(
        alloc: Global,
        cards: Vec<Card>,
        end: Card,
        fill: Fill,
    ) -> Result<CardList, AllocError>
        requires { IsHeader (record { cards = cards.items; end = end; fill = fill_bytes fill }) }
        ensures header { IfOk result (λ list. list.header
            ≡ record { cards = cards.items; end = end; fill = fill_bytes fill }) }
        ensures unread { IfOk result (λ list. list.reads ≡ 0) }
    {
        Ok(CardList {
            cards: Slotted::of(alloc, close_fitting(cards))?,
            end,
            fill,
            reads: Count::new(),
            room: 0,
        })
    }

    /// How many cards it has, END not counted.
    #[allow(clippy::len_without_is_empty)]
    pub fn len(&self) -> usize
        ensures value { result ≡ length self.now.header.cards }
        ensures whole { IsHeader self.now.header }
        ensures within { CARD_LEN * (result + 1) ≤ length (header_bytes self.now.header) }
        ensures few { result < 2 ^ 63 }
    {
        self.cards.len()
    }

    /// How many bytes its cards, END and the fill have.
    pub fn byte_len(&self) -> usize
        requires { length (header_bytes self.now.header) ≤ 2 ^ 34 }
        ensures { result ≡ length (header_bytes self.now.header) }
    {
        CARD_LEN * (self.cards.len() + 1) + self.fill.len()
    }

    pub fn end(&self) -> &Card
        ensures { result.now ≡ self.now.header.end }
    {
        &self.end
    }

    /// The bytes from END to the end of its block (FITS Standard 4.0, section 3.3.1).
    pub fn fill(&self) -> &[u8]
        ensures { result.now ≡ self.now.header.fill }
    {
        self.fill.bytes()
    }

    /// Whether END has spaces alone after its name (FITS Standard 4.0, section 4.4.1).
    pub fn end_blank(&self) -> bool
        ensures { result ≡ is_end_blank self.now.header }
    {
        let (_, rest) = self.end.0.split_at(8);
        are_spaces(rest)
    }

    /// Whether the fill is spaces (FITS Standard 4.0, section 3.3.1).
    pub fn fill_blank(&self) -> bool
        ensures { result ≡ is_fill_blank self.now.header }
    {
        self.fill.is_blank()
    }

    /// The card at a place. The read is counted.
    pub fn card(&mut self, place: usize) -> Card
        requires from { 1 ≤ place }
        requires to { place ≤ length self.old.header.cards }
        ensures value { result ≡ slice_index_or self.old.header.cards (place - 1) result }
        ensures work { self.new ≡ record self.old { reads = self.old.reads + 1 } }
    {
        self.reads.tick();
        *self.cards.at(place - 1)
    }

    /// How many more cards have reserved room.
    pub fn room(&self) -> usize
        ensures { result ≡ self.now.room }
    {
        self.room
    }

    /// Makes room for this many more cards. It fails only where room was missing.
    pub fn reserve(&mut self, additional: usize) -> Result<(), AllocError>
        ensures ok { OnOk result (additional ≤ self.new.room) }
        ensures err { OnErr result (self.new.room ≡ self.old.room) }
        ensures succeeds { additional ≤ self.old.room → IsOk result }
        ensures header { self.new.header ≡ self.old.header }
        ensures room { self.old.room ≤ self.new.room }
        ensures no_more { self.old.room < self.new.room → self.new.room ≡ additional }
        ensures work { self.new.reads ≡ self.old.reads }
    {
        self.cards.reserve(additional)?;
        self.room = self.room.max(additional);
        Ok(())
    }

    /// From a place on, so many cards go, and these stand there instead. END stays, and the fill is
    /// spaces.
    ///
    /// It takes no memory: the room is reserved before.
    pub fn splice(&mut self, place: usize, removed: usize, cards: &[Card])
        requires from { 1 ≤ place }
        requires to { place + removed ≤ length self.old.header.cards + 1 }
        requires room { length cards.now ≤ self.old.room + removed }
        requires not_end { All (λ card. IsEnd card → ⊥) cards.now }
        ensures header { self.new.header
            ≡ with_cards self.old.header (spliced self.old.header.cards place removed cards.now) }
        ensures whole { IsHeader self.new.header }
        ensures room { self.new.room + length cards.now ≡ self.old.room + removed }
        ensures work { self.new.reads ≡ self.old.reads }
    {
        let _few = self.cards.len();
        splice_cards(&mut self.cards, place, removed, cards);
        self.room = self.room + removed - cards.len();
        self.fill = Fill::blank(self.cards.len());
    }

    /// Puts a card at a place, before the one that stands there.
    pub fn insert(&mut self, place: usize, card: Card)
        requires from { 1 ≤ place }
        requires to { place ≤ length self.old.header.cards + 1 }
        requires room { 0 < self.old.room }
        requires not_end { IsEnd card → ⊥ }
        ensures header { self.new.header
            ≡ with_cards self.old.header (spliced self.old.header.cards place 0 (card ∷ [])) }
        ensures room { self.new.room + 1 ≡ self.old.room }
        ensures work { self.new.reads ≡ self.old.reads }
    {
        self.splice(place, 0, &[card]);
    }

    /// Takes the card at a place out.
    pub fn remove(&mut self, place: usize)
        requires from { 1 ≤ place }
        requires to { place ≤ length self.old.header.cards }
        ensures header { self.new.header
            ≡ with_cards self.old.header (spliced self.old.header.cards place 1 []) }
        ensures room { self.new.room ≡ self.old.room + 1 }
        ensures work { self.new.reads ≡ self.old.reads }
    {
        self.splice(place, 1, &[]);
    }

    /// Takes the card at a place out, and puts it where it has the other place in the result.
    pub fn move_card(&mut self, from: usize, to: usize)
        requires from_first { 1 ≤ from }
        requires from_last { from ≤ length self.old.header.cards }
        requires to_first { 1 ≤ to }
        requires to_last { to ≤ length self.old.header.cards }
        ensures header { self.new.header
            ≡ with_cards self.old.header (moved self.old.header.cards from to) }
        ensures whole { IsHeader self.new.header }
        ensures room { self.new.room ≡ self.old.room }
        ensures work { self.new.reads ≡ self.old.reads }
    {
        self.cards.move_item(from, to);
        self.fill = Fill::blank(self.cards.len());
    }

    /// Writes the cards, END and the fill. Each card's read is counted.
    ///
    /// Where a call fails a prefix was written.
    #[tactic(auto, using(crate::proofs::EmitLemmas::emit_steps))]
    pub fn emit<W: Sink>(&mut self, sink: &mut W) -> io::Result<()>
        ensures ok { OnOk result (Prints (header_bytes self.old.header)
            (W.state sink.old) (W.state sink.new)) }
        ensures err { OnErr result (PrintsFront (header_bytes self.old.header)
            (W.state sink.old) (W.state sink.new)) }

        // The header stays. Each card is read at most once, and once where it succeeds.
        ensures work { ReadsUpTo self.old self.new (length self.old.header.cards) }
        ensures reads { OnOk result
            (self.new.reads ≡ self.old.reads + length self.old.header.cards) }
    {
        write_cards(&self.cards, &mut self.reads, sink)?;
        write_all(sink, self.end.bytes())?;
        write_all(sink, self.fill.bytes())?;
        Ok(())
    }
}

// The same cards, in little more room than they need where they are few. Of a long list the room that
// nothing was written to takes no memory, and saves a move.
fn close_fitting(cards: Vec<Card>) -> Vec<Card>
    ensures { result.items ≡ cards.items }
{
    let mut cards = cards;
    if cards.len() <= FEW_CARDS {
        cards.shrink_to(room_for(cards.len()));
    }
    cards
}

/// How many bytes a header of so many cards has.
pub fn header_len(cards: usize) -> usize
    requires { CARD_LEN * cards ≤ 2 ^ 34 }
    ensures { result ≡ header_length cards }
{
    CARD_LEN * (cards + 1) + fill_len(cards)
}
