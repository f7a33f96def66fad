ghost use Rattle.std.specs.Prelude.{◌≡◌, ◌≤◌, ◌+◌, ◌-◌, ◌*◌, All, IfOk, length, take, drop, vec_len};
ghost use Rattle.fits_card.specs.CardList.{ReadsUpTo};
ghost use Rattle.fits_card.specs.Change.{spliced};
ghost use Rattle.fits_header.specs.Notes.{notes_of, total_in};

use crate::note::{Note, note_of};
use fits_card::{Card, CardList, Change, Slotted, room_for};
use std::alloc::{AllocError, Global};
use std::marker::Model;

/// The notes of a header's cards, and the total of all their words.
///
/// Contracts see the notes, and how many more have reserved room.
#[derive(Drop)]
pub(crate) struct Notes {
    notes: Slotted<Note>,
    // The totals of the notes, added up: so wide, it holds those of as many as there can be.
    total: u128,
}

impl Model for Notes {
    ghost use Rattle.std.specs.Prelude.{◌≡◌, ◌≤◌, ◌*◌, All};
    ghost use Rattle.fits_card.specs.Order.{SlottedState};
    ghost use Rattle.fits_header.specs.Notes.{total_in};
    ghost use Rattle.fits_header.specs.declared.note.Note.{Note};

    ghost Value = { SlottedState Note };

    ghost view = { λ it. it.notes };

    ghost invariant = { λ it. record {
      total : it.total ≡ total_in it.notes.items;
      each : All (λ note. note.total ≤ 20 * 4294967295) it.notes.items;
    } };
}

impl Notes {
    ghost use Rattle.std.specs.Prelude.{◌≡◌, ◌≤◌, ◌<◌, ◌+◌, ◌-◌, ◌*◌, ◌^◌, IfOk, OnOk, OnErr, length, slice_index_or};
    ghost use Rattle.fits_card.specs.CardList.{ReadsUpTo};
    ghost use Rattle.fits_card.specs.Change.{cards_after, moved, spliced, IsInRange};
    ghost use Rattle.fits_header.specs.Notes.{notes_of, total_in};

    /// The notes of a store's cards. Each card is read once.
    pub(crate) fn read(alloc: Global, cards: &mut CardList) -> Result<Notes, AllocError>
        ensures value { IfOk result (λ notes. notes.items ≡ notes_of cards.old.header.cards) }
        ensures work { ReadsUpTo cards.old cards.new (length cards.old.header.cards) }
    {
        let notes = Slotted::of(alloc, read_notes(alloc, cards)?)?;
        let total = total_among(&notes, 0, notes.len());
        Ok(Notes { notes, total })
    }

    /// How many there are.
    pub(crate) fn len(&self) -> usize
        ensures value { result ≡ length self.now.items }
        ensures few { result + self.now.room < 2 ^ 63 }
    {
        self.notes.len()
    }

    /// The note at an index.
    pub(crate) fn at(&self, index: usize) -> &Note
        requires { index < length self.now.items }
        ensures { result.now ≡ slice_index_or self.now.items index result.now }
    {
        self.notes.at(index)
    }

    /// The totals of so few notes, added up.
    pub(crate) fn total(&self) -> u64
        requires { 20 * length self.now.items ≤ 2 ^ 32 }
        ensures value { result ≡ total_in self.now.items }
        ensures within { result ≤ 4294967295 * (20 * length self.now.items) }
    {
        self.total as u64
    }

    /// Makes room for this many more notes. It fails only where room was missing.
    pub(crate) fn reserve(&mut self, additional: usize) -> Result<(), AllocError>
        ensures ok { OnOk result (additional ≤ self.new.room) }
        ensures err { OnErr result (self.old.room < additional) }
        ensures items { self.new.items ≡ self.old.items }
        ensures room { self.old.room ≤ self.new.room }
    {
        self.notes.reserve(additional)
    }

    /// Makes a change of them, as of the cards, in reserved room.
    ///
    /// No card of the store is read: the new notes come from the change's own cards.
    #[tactic(auto, using(crate::proofs::NoteLemmas::change_steps))]
    pub(crate) fn change(&mut self, cards: &CardList, change: &Change)
        requires notes { self.old.items ≡ notes_of cards.now.header.cards }
        requires size { length self.old.items ≡ length cards.now.header.cards }
        requires in_range { IsInRange cards.now.header.cards change.now }
        requires room { length (cards_after cards.now.header.cards change.now)
            ≤ length cards.now.header.cards + self.old.room }
        ensures notes { self.new.items ≡ notes_of (cards_after cards.now.header.cards change.now) }
        ensures size { length self.new.items ≡ length (cards_after cards.now.header.cards change.now) }
        ensures room { self.old.room + length cards.now.header.cards
            ≤ self.new.room + length (cards_after cards.now.header.cards change.now) }
    {
        match change {
            Change::Splice {
                place,
                removed,
                cards: new,
            } => self.splice(*place, *removed, new.as_slice()),
            Change::Move { from, to } => self.move_note(*from, *to),
        }
    }

    /// From a place on, so many notes go, and those of these cards stand there instead.
    pub(crate) fn splice(&mut self, place: usize, removed: usize, cards: &[Card])
        requires from { 1 ≤ place }
        requires to { place + removed ≤ length self.old.items + 1 }
        requires room { length cards.now ≤ self.old.room + removed }
        ensures notes { self.new.items ≡ spliced self.old.items place removed (notes_of cards.now) }
        ensures len { length self.new.items + removed ≡ length self.old.items + length cards.now }
        ensures room { self.old.room + removed ≤ self.new.room + length cards.now }
    {
        let _few = self.len();
        let gone = total_among(&self.notes, place - 1, removed);
        splice_notes(&mut self.notes, place, removed, cards);
        let come = total_among(&self.notes, place - 1, cards.len());
        self.total = self.total - gone + come;
    }

    // The note at a place is taken out, and put where it has the other place in the result.
    fn move_note(&mut self, from: usize, to: usize)
        requires from_first { 1 ≤ from }
        requires from_last { from ≤ length self.old.items }
        requires to_first { 1 ≤ to }
        requires to_last { to ≤ length self.old.items }
        ensures notes { self.new.items ≡ moved self.old.items from to }
        ensures len { length self.new.items ≡ length self.old.items }
        ensures room { self.new.room ≡ self.old.room }
    {
        self.notes.move_item(from, to);
    }
}

// The notes of a store's cards, in their order.
fn read_notes(alloc: Global, cards: &mut CardList) -> Result<Vec<Note>, AllocError>
    ensures value { IfOk result (λ notes. notes.items ≡ notes_of cards.old.header.cards) }
    ensures len { IfOk result (λ notes. vec_len notes ≡ length cards.old.header.cards) }
    ensures work { ReadsUpTo cards.old cards.new (length cards.old.header.cards) }
{
    let mut notes = Vec::with_capacity(alloc, room_for(cards.len()))?;
    for index in 0..cards.len() {
        notes.push(note_of(&cards.card(index + 1)))?;
    }
    Ok(notes)
}

// The totals of so many notes from an index on, added up.
fn total_among(notes: &Slotted<Note>, from: usize, count: usize) -> u128
    requires { from + count ≤ length notes.now.items }
    ensures value { result ≡ total_in (take count (drop from notes.now.items)) }
    ensures each { All (λ note. note.total ≤ 20 * 4294967295)
        (take count (drop from notes.now.items)) }
{
    let _few = notes.len();
    let mut total = 0u128;
    for index in 0..count {
        total += u128::from(notes.at(from + index).total.number());
    }
    total
}

// From a place on, so many notes go, and those of these cards stand there instead.
fn splice_notes(notes: &mut Slotted<Note>, place: usize, removed: usize, cards: &[Card])
    requires from { 1 ≤ place }
    requires to { place + removed ≤ length notes.old.items + 1 }
    requires room { length cards.now ≤ notes.old.room + removed }
    ensures notes { notes.new.items ≡ spliced notes.old.items place removed (notes_of cards.now) }
    ensures len { length notes.new.items + removed ≡ length notes.old.items + length cards.now }
    ensures room { notes.old.room + removed ≤ notes.new.room + length cards.now }
{
    let filler = any_note(notes);
    notes.make_room(place, removed, cards.len(), filler);
    write_notes(notes, place, cards);
}

// A note to be written over: one that is there, so that no card need be looked at for it.
fn any_note(notes: &Slotted<Note>) -> Note {
    if notes.len() == 0 {
        return note_of(&Card([b' '; 80]));
    }
    *notes.at(0)
}

// Writes the notes of cards over others, from a place on.
#[tactic(auto, using(crate::proofs::NoteLemmas::write_steps))]
fn write_notes(notes: &mut Slotted<Note>, place: usize, cards: &[Card])
    requires from { 1 ≤ place }
    requires to { place + length cards.now ≤ length notes.old.items + 1 }
    ensures notes { notes.new.items
        ≡ spliced notes.old.items place (length cards.now) (notes_of cards.now) }
    ensures len { length notes.new.items ≡ length notes.old.items }
    ensures room { notes.new.room ≡ notes.old.room }
{
    let _few = notes.len();
    for index in 0..cards.len() {
        notes.set(place - 1 + index, note_of(&cards[index]));
    }
}
