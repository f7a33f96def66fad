ghost use Rattle.std.specs.Prelude.{◌≡◌, None, vec_capacity, vec_len};

use crate::counting::count_all;
use crate::counts::Counts;
use crate::fill_total::fill_total;
use crate::finding::Finding;
use crate::findings::{codes_at, findings_of, is_link};
use crate::header_marks::header_mark_of;
use crate::indexing::change_index;
use crate::key_index::KeyIndex;
use crate::leads::{lead_after, leads_after};
use crate::notes::Notes;
use crate::survey::{reserve_surroundings, survey};
use fits_card::{Card, CardList, Change, Name, room_for};
use fits_codes::{CodeSet, HeaderMark, Surrounding};
use fits_rules::{Shape, ShapeFault, keeps_shape, shape};
use fits_stream::Sink;
use fits_sum::card_total;
use fits_value::{Text, Value, link_count, long_value};
use std::alloc::{AllocError, Global};
use std::io;
use std::marker::Model;

/// A header under edits: its cards, the shape that they describe, and what is kept beside them, so
/// that no card is read again after a change.
#[derive(Drop)]
pub struct Header {
    cards: CardList,
    shape: Shape,
    index: KeyIndex,
    notes: Notes,
    // What stands round each card, or nothing where it wasn't asked for since the last change.
    surroundings: Vec<Surrounding>,
    // How many errors and warnings its cards have, where that was found since the last change.
    counted: Option<Counts>,
}

impl Model for Header {
    ghost use Rattle.std.specs.Prelude.{◌≡◌, ◌≤◌, ◌<◌, ◌+◌, ◌*◌, IfSome, Ok, length, vec_capacity, vec_len};
    ghost use Rattle.fits_codes.specs.declared.code_set.TheConstants.{MOST_CODES};
    ghost use Rattle.fits_rules.specs.Class.{is_primary};
    ghost use Rattle.fits_rules.specs.Shape.{shape_of};
    ghost use Rattle.fits_header.specs.Findings.{card_counts};
    ghost use Rattle.fits_header.specs.Index.{IsIndexOf};
    ghost use Rattle.fits_header.specs.Notes.{notes_of};
    ghost use Rattle.fits_header.specs.State.{HeaderState};
    ghost use Rattle.fits_header.specs.Surroundings.{surroundings_of};

    ghost Value = { HeaderState };

    ghost view = { λ it. record {
      header = it.cards.header;
      shape = it.shape;
      reads = it.cards.reads;
      room = it.cards.room;
    } };

    ghost invariant = { λ it. record {
      described : shape_of (is_primary it.shape.class) it.cards.header.cards ≡ Ok it.shape;
      index : IsIndexOf it.index.entries it.cards.header.cards;
      notes : it.notes.items ≡ notes_of it.cards.header.cards;
      size : length it.notes.items ≡ length it.cards.header.cards;
      found : 0 < vec_len it.surroundings
          → it.surroundings.items ≡ surroundings_of it.cards.header.cards;
      whole : 0 < vec_len it.surroundings
          → vec_len it.surroundings ≡ length it.cards.header.cards;
      counted : IfSome it.counted (λ counts. counts ≡ card_counts it.shape it.cards.header.cards);
      few_codes : IfSome it.counted (λ counts.
          counts.errors + counts.warnings ≤ MOST_CODES * length it.cards.header.cards);
      room_of_index : it.cards.room ≤ it.index.room;
      room_of_notes : it.cards.room ≤ it.notes.room;
      room_of_surroundings : length it.cards.header.cards + it.cards.room
          ≤ vec_capacity it.surroundings;
    } };
}

impl Header {
    ghost use Rattle.std.specs.Prelude.{◌≡◌, ◌≤◌, ◌<◌, ◌+◌, ◌-◌, ◌*◌, ◌/◌, ◌^◌, List, [], ℕ, Ok, IsOk, IfOk, IfErr, OnOk, OnErr, IsTrue, None, false, length, slice_index_or, All};
    ghost use Rattle.fits_card.specs.Card.{IsEnd};
    ghost use Rattle.fits_card.specs.Change.{cards_after, new_cards, spliced, IsInRange};
    ghost use Rattle.fits_card.specs.Header.{IsHeader, header_bytes, with_cards};
    ghost use Rattle.fits_stream.specs.Stream.{Prints, PrintsFront};
    ghost use Rattle.fits_card.specs.declared.card.TheConstants.{CARD_LEN};
    ghost use Rattle.fits_value.specs.Says.{chain_length, link_count, long_says};
    ghost use Rattle.fits_codes.specs.declared.code_set.TheConstants.{MOST_CODES};
    ghost use Rattle.fits_rules.specs.Class.{is_primary};
    ghost use Rattle.fits_rules.specs.Lead.{lead_card, lead_place};
    ghost use Rattle.fits_rules.specs.Shape.{shape_of};
    ghost use Rattle.fits_rules.specs.declared.mandatory.ShapeFault.{ShapeFault};
    ghost use Rattle.fits_codes.specs.HeaderCodes.{header_mark_of};
    ghost use Rattle.fits_header.specs.Findings.{card_counts, card_findings, codes_at};
    ghost use Rattle.fits_header.specs.Links.{header_links};
    ghost use Rattle.fits_header.specs.Names.{header_names};
    ghost use Rattle.fits_header.specs.Places.{keyword_places};
    ghost use Rattle.fits_header.specs.State.{ReadsUpTo, still_describes};
    ghost use Rattle.fits_header.specs.Work.{mark_reads, shape_reads};
    ghost use Rattle.fits_sum.specs.Words.{word_total};

    /// The header that has these cards, which describe this shape. Each card is read once.
    pub fn open(alloc: Global, cards: CardList, shape: Shape) -> Result<Header, AllocError>
        requires described { shape_of (is_primary shape.class) cards.header.cards ≡ Ok shape }
        ensures header { IfOk result (λ it. it.header ≡ cards.header) }
        ensures shape { IfOk result (λ it. it.shape ≡ shape) }
        ensures least { IfOk result (λ it. cards.reads ≤ it.reads) }
        ensures work { IfOk result (λ it. it.reads ≤ cards.reads + length cards.header.cards) }
    {
        let mut cards = cards;
        let mut notes = Notes::read(alloc, &mut cards)?;
        let mut index = KeyIndex::of_notes(alloc, &cards, &notes)?;
        index.reserve(cards.room())?;
        notes.reserve(cards.room())?;
        let mut surroundings = Vec::with_capacity(alloc, room_for(notes.len()))?;
        reserve_surroundings(&mut surroundings, notes.len(), cards.room())?;
        Ok(Header {
            cards,
            shape,
            index,
            notes,
            surroundings,
            counted: None,
        })
    }

    /// Its cards, without what is kept beside them.
    pub fn into_cards(self) -> CardList
        ensures { result.header ≡ self.header }
    {
        let Header { cards, .. } = self;
        cards
    }

    /// The shape that its cards describe.
    pub fn shape(&self) -> &Shape
        ensures value { result.now ≡ self.now.shape }
        ensures described { shape_of (is_primary self.now.shape.class) self.now.header.cards
            ≡ Ok self.now.shape }
    {
        &self.shape
    }

    /// How many cards it has, END not counted.
    pub fn len(&self) -> usize
        ensures value { result ≡ length self.now.header.cards }
        ensures whole { IsHeader self.now.header }
        ensures within { CARD_LEN * (result + 1) ≤ length (header_bytes self.now.header) }
        ensures few { result < 2 ^ 63 }
    {
        self.cards.len()
    }

    /// How many bytes it has, with END and the fill.
    pub fn byte_len(&self) -> usize
        requires { length (header_bytes self.now.header) ≤ 2 ^ 34 }
        ensures { result ≡ length (header_bytes self.now.header) }
    {
        self.cards.byte_len()
    }

    /// The total of its words, with END and the fill (FITS Standard 4.0, Appendix J).
    ///
    /// It takes no memory, and reads no card.
    #[tactic(auto, using(crate::proofs::TotalLemmas::header_steps))]
    pub fn total(&self) -> u64
        requires { length (header_bytes self.now.header) ≤ 2 ^ 34 }
        ensures value { result ≡ word_total (header_bytes self.now.header) }
        ensures within { result ≤ 4294967295 * (length (header_bytes self.now.header) / 4) }
    {
        // So few cards have a total that 64 bits hold.
        let _few = self.cards.len();
        let end = card_total(&self.cards.end().0);
        self.notes.total() + end + fill_total(&self.cards)
    }

    /// The card at a place. The read is counted.
    pub fn card(&mut self, place: usize) -> Card
        requires from { 1 ≤ place }
        requires to { place ≤ length self.old.header.cards }
        ensures value { result ≡ slice_index_or self.old.header.cards (place - 1) result }
        ensures work { ReadsUpTo self.old self.new 1 }
    {
        self.cards.card(place)
    }

    /// Where the lead of a name stands. It takes no memory, and reads no card.
    pub fn lead(&self, name: &Name) -> Option<usize>
        ensures { result ≡ lead_place self.now.header.cards name.now }
    {
        self.index.lead(name)
    }

    /// The lead of a name. It takes no memory.
    #[tactic(auto, using(fits_rules::proofs::LeadCardLemmas::lead_card_steps))]
    pub fn lead_card(&mut self, name: &Name) -> Option<Card>
        ensures value { result ≡ lead_card self.old.header.cards name.now }
        ensures work { ReadsUpTo self.old self.new 1 }
    {
        let place = self.lead(name)?;
        Some(self.card(place))
    }

    /// The places of the cards of a name, ascending. No card is read, and no memory is taken where
    /// there is none.
    pub fn positions(&self, alloc: Global, name: &Name) -> Result<Vec<usize>, AllocError>
        ensures places { IfOk result (λ places. places.items
            ≡ keyword_places self.now.header.cards name.now) }
        ensures some { OnErr result (0 < length (keyword_places self.now.header.cards name.now)) }
    {
        self.index.positions(alloc, name)
    }

    /// The names of its cards, each once, ascending by bytes. No card is read.
    pub fn names(&self, alloc: Global) -> Result<Vec<Name>, AllocError>
        ensures { IfOk result (λ names. names.items ≡ header_names self.now.header.cards) }
    {
        self.index.names(alloc)
    }

    /// What the card at a place says, with the CONTINUE cards that belong to it (FITS Standard 4.0,
    /// section 4.2.1.2).
    pub fn long_value(
        &mut self,
        alloc: Global,
        place: usize,
    ) -> Result<Option<(Value, Option<Text>)>, AllocError>
        requires from { 1 ≤ place }
        requires to { place ≤ length self.old.header.cards }
        ensures value { IfOk result (λ said. said ≡ long_says self.old.header.cards place) }
        ensures firm { long_says self.old.header.cards place ≡ None → result ≡ Ok None }
        ensures work { ReadsUpTo self.old self.new (chain_length self.old.header.cards place + 1) }
    {
        long_value(alloc, &mut self.cards, place)
    }

    /// How many CONTINUE cards belong to the string of the card at a place.
    pub fn link_count(&mut self, place: usize) -> usize
        requires from { 1 ≤ place }
        requires to { place ≤ length self.old.header.cards }
        ensures value { result ≡ link_count self.old.header.cards place }
        ensures within { place + result ≤ length self.old.header.cards }
        ensures work { ReadsUpTo self.old self.new (chain_length self.old.header.cards place + 1) }
    {
        link_count(&mut self.cards, place)
    }

    /// Makes room for this many more cards. It fails only where room was missing.
    pub fn reserve(&mut self, additional: usize) -> Result<(), AllocError>
        ensures ok { OnOk result (additional ≤ self.new.room) }
        ensures err { OnErr result (self.new.room ≡ self.old.room) }
        ensures succeeds { additional ≤ self.old.room → IsOk result }
        ensures header { self.new.header ≡ self.old.header }
        ensures shape { self.new.shape ≡ self.old.shape }
        ensures room { self.old.room ≤ self.new.room }
        ensures work { self.new.reads ≡ self.old.reads }
    {
        self.index.reserve(additional)?;
        self.notes.reserve(additional)?;
        reserve_surroundings(&mut self.surroundings, self.notes.len(), additional)?;
        self.cards.reserve(additional)
    }

    /// Whether its cards after a change would describe the same shape.
    ///
    /// It takes no memory.
    #[tactic(auto, unfolding(crate::specs::State::still_describes))]
    pub fn keeps_shape(&mut self, change: &Change) -> bool
        requires { IsInRange self.old.header.cards change.now }
        ensures value { result ≡ still_describes self.old.shape
            (cards_after self.old.header.cards change.now) }
        ensures work { ReadsUpTo self.old self.new (shape_reads self.old.shape) }
    {
        let leads = leads_after(&mut self.cards, &self.index, change);
        keeps_shape(&mut self.cards, &self.shape, change, &leads)
    }

    /// Whether its cards after a change would describe this shape.
    ///
    /// It takes no memory.
    #[tactic(auto, unfolding(crate::specs::State::still_describes))]
    pub fn would_have(&mut self, change: &Change, shape: &Shape) -> bool
        requires { IsInRange self.old.header.cards change.now }
        ensures value { result ≡ still_describes shape.now
            (cards_after self.old.header.cards change.now) }
        ensures work { ReadsUpTo self.old self.new (shape_reads shape.now) }
    {
        let leads = leads_after(&mut self.cards, &self.index, change);
        keeps_shape(&mut self.cards, shape, change, &leads)
    }

    /// The lead of a name after a change that isn't made. It takes no memory.
    pub fn lead_card_after(&mut self, change: &Change, name: &Name) -> Option<Card>
        requires { IsInRange self.old.header.cards change.now }
        ensures value { result
            ≡ lead_card (cards_after self.old.header.cards change.now) name.now }
        ensures work { ReadsUpTo self.old self.new 1 }
    {
        lead_after(&mut self.cards, &self.index, change, name)
    }

    /// How many cards it has after a change.
    pub fn count_after(&self, change: &Change) -> usize
        requires { IsInRange self.now.header.cards change.now }
        ensures { result ≡ length (cards_after self.now.header.cards change.now) }
    {
        change.len_after(&self.cards)
    }

    /// Makes a change of its cards. END stays, and the fill is spaces. No card is read.
    ///
    /// It takes no memory: the room is reserved before, and `keeps_shape` says whether the shape
    /// stays.
    #[tactic(auto, using(crate::proofs::HeaderLemmas::kept_steps))]
    pub fn apply(&mut self, change: &Change)
        requires in_range { IsInRange self.old.header.cards change.now }
        requires not_end { All (λ card. IsEnd card → ⊥) (new_cards change.now) }
        requires room { length (cards_after self.old.header.cards change.now)
            ≤ length self.old.header.cards + self.old.room }
        requires kept { IsTrue (still_describes self.old.shape
            (cards_after self.old.header.cards change.now)) }
        ensures header { self.new.header ≡ with_cards self.old.header
            (cards_after self.old.header.cards change.now) }
        ensures shape { self.new.shape ≡ self.old.shape }
        ensures room { self.new.room + length self.new.header.cards
            ≡ self.old.room + length self.old.header.cards }
        ensures work { self.new.reads ≡ self.old.reads }
    {
        change_index(&mut self.index, &self.cards, &self.notes, change);
        self.notes.change(&self.cards, change);
        forget(&mut self.surroundings, &mut self.counted);
        change.apply(&mut self.cards);
    }

    /// Puts these cards in place of BITPIX, NAXIS and the axes, with which the header describes this
    /// shape (FITS Standard 4.0, section 4.4.1). END stays, and the fill is spaces. No card is read.
    ///
    /// It takes no memory: the room is reserved before, and `would_have` says whether the cards
    /// describe it.
    #[tactic(auto, using(crate::proofs::HeaderLemmas::reshape_steps))]
    pub fn reshape(&mut self, cards: &[Card], shape: Shape)
        requires not_end { All (λ card. IsEnd card → ⊥) cards.now }
        requires room { length cards.now ≤ self.old.room + (2 + length self.old.shape.axes) }
        requires kept { IsTrue (still_describes shape
            (spliced self.old.header.cards 2 (2 + length self.old.shape.axes) cards.now)) }
        ensures header { self.new.header ≡ with_cards self.old.header
            (spliced self.old.header.cards 2 (2 + length self.old.shape.axes) cards.now) }
        ensures shape { self.new.shape ≡ shape }
        ensures room { self.new.room + length self.new.header.cards
            ≡ self.old.room + length self.old.header.cards }
        ensures work { self.new.reads ≡ self.old.reads }
    {
        let removed = 2 + self.shape.axes.as_slice().len();
        self.index.splice(2, removed, cards);
        self.notes.splice(2, removed, cards);
        forget(&mut self.surroundings, &mut self.counted);
        self.cards.splice(2, removed, cards);
        self.shape = shape;
    }

    /// What it says as a whole, as far as the rules ask. It takes no memory.
    pub fn mark(&mut self) -> HeaderMark
        ensures value { result ≡ header_mark_of self.old.header self.old.shape }
        ensures work { ReadsUpTo self.old self.new mark_reads }
    {
        header_mark_of(&mut self.cards, &self.index, &self.shape)
    }

    /// What is found of its cards: by place, and at each by number. No card is read, and nothing is
    /// looked at where it was found before that there is nothing.
    #[tactic(auto, using(crate::proofs::CountLemmas::index_steps, crate::proofs::FindingLemmas::clean_steps))]
    pub fn findings(&mut self, alloc: Global) -> Result<Vec<Finding>, AllocError>
        ensures found { IfOk result (λ found. found.items
            ≡ card_findings self.old.shape self.old.header.cards) }
        ensures same { self.new ≡ self.old }
    {
        if self.is_clean() {
            return Ok(Vec::new(alloc));
        }
        survey(&mut self.surroundings, &self.notes, &self.index);
        let found = findings_of(alloc, &self.shape, &self.notes, &self.surroundings)?;
        if found.is_empty() {
            self.counted = Some(Counts::NONE);
        }
        Ok(found)
    }

    // Whether it was found before that its cards have nothing to report.
    #[tactic(auto, using(crate::proofs::FindingLemmas::clean_steps))]
    fn is_clean(&self) -> bool
        ensures { IsTrue result → card_findings self.now.shape self.now.header.cards ≡ [] }
    {
        match self.counted {
            Some(counts) => counts.errors == 0 && counts.warnings == 0,
            None => false,
        }
    }

    /// The codes of the card at a place, by number. It takes no memory, and reads no card.
    #[tactic(auto, using(crate::proofs::CountLemmas::index_steps))]
    pub fn codes(&mut self, place: usize) -> CodeSet
        requires from { 1 ≤ place }
        requires to { place ≤ length self.old.header.cards }
        ensures value { result ≡ codes_at self.old.shape self.old.header.cards place }
        ensures same { self.new ≡ self.old }
    {
        survey(&mut self.surroundings, &self.notes, &self.index);
        codes_at(&self.shape, &self.notes, &self.surroundings, place)
    }

    /// How many errors and warnings are found of its cards. It takes no memory, and reads no card.
    /// They are kept until the next change.
    #[tactic(auto, using(crate::proofs::CountLemmas::index_steps))]
    pub fn counts(&mut self) -> Counts
        requires { length (header_bytes self.old.header) ≤ 2 ^ 34 }
        ensures value { result ≡ card_counts self.old.shape self.old.header.cards }
        ensures within { result.errors + result.warnings ≤ MOST_CODES * length self.old.header.cards }
        ensures same { self.new ≡ self.old }
    {
        if let Some(counts) = self.counted {
            return counts;
        }
        // So few cards have no more codes than the counts can hold.
        let _few = self.cards.len();
        survey(&mut self.surroundings, &self.notes, &self.index);
        let counts = count_all(&self.shape, &self.notes, &self.surroundings);
        self.counted = Some(counts);
        counts
    }

    /// Whether the card at a place goes on with a long string. It takes no memory, and reads no
    /// card.
    #[tactic(auto, using(crate::proofs::CountLemmas::index_steps))]
    pub fn is_link(&mut self, place: usize) -> bool
        requires from { 1 ≤ place }
        requires to { place ≤ length self.old.header.cards }
        ensures value { result
            ≡ slice_index_or (header_links self.old.header.cards) (place - 1) false }
        ensures same { self.new ≡ self.old }
    {
        survey(&mut self.surroundings, &self.notes, &self.index);
        is_link(&self.surroundings, place - 1)
    }

    /// Writes the cards, END and the fill. Each card's read is counted.
    ///
    /// Where a call fails a prefix was written.
    pub fn emit<W: Sink>(&mut self, sink: &mut W) -> io::Result<()>
        ensures ok { OnOk result (Prints (header_bytes self.old.header)
            (W.state sink.old) (W.state sink.new)) }
        ensures err { OnErr result (PrintsFront (header_bytes self.old.header)
            (W.state sink.old) (W.state sink.new)) }

        // The header stays, and each card is read once at most.
        ensures work { ReadsUpTo self.old self.new (length self.old.header.cards) }
        ensures reads { OnOk result
            (self.new.reads ≡ self.old.reads + length self.old.header.cards) }
    {
        self.cards.emit(sink)
    }
}

// Forgets what was found of the cards since the last change.
fn forget(surroundings: &mut Vec<Surrounding>, counted: &mut Option<Counts>)
    ensures none { vec_len surroundings.new ≡ 0 }
    ensures room { vec_capacity surroundings.new ≡ vec_capacity surroundings.old }
    ensures uncounted { counted.new ≡ None }
{
    surroundings.clear();
    *counted = None;
}
