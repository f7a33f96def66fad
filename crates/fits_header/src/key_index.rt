ghost use Rattle.std.specs.Prelude.{◌≡◌, ◌≤◌, List, ℕ, vec_len, vec_capacity};
ghost use Rattle.fits_card.specs.Change.{moved};
ghost use Rattle.fits_header.specs.Index.{IsIndex, IsIndexOf, IsNameAt};

use crate::entries::{add, add_cards, make_way, noted_entries, read_entries, sorted, take_named};
use crate::entry::Entry;
use crate::lookups::{entry_at, has, lead, lead_within, numbers, positions};
use crate::notes::Notes;
use crate::numbers::{names_of, number_of};
use crate::repeats::mark_repeats;
use crate::shifts::{close_gap, turn};
use fits_card::{Card, CardList, Name, reserve_room};
use fits_codes::Surrounding;
use std::alloc::{AllocError, Global};
use std::marker::Model;

/// The index of a header's keywords: the names and places of its cards, and which have a value,
/// sorted by name.
///
/// It is kept beside the cards, and changed as they are. Contracts see the entries, one for each
/// card, and how many more have reserved room.
#[derive(Drop)]
pub struct KeyIndex {
    entries: Vec<Entry>,
}

impl Model for KeyIndex {
    ghost use Rattle.std.specs.Prelude.{◌-◌, vec_capacity, vec_len};
    ghost use Rattle.fits_header.specs.Index.{IsIndex};
    ghost use Rattle.fits_header.specs.KeyIndex.{KeyStore};

    ghost Value = { KeyStore };

    ghost view = { λ index. record {
      entries = index.entries.items;
      room = vec_capacity index.entries - vec_len index.entries;
    } };

    ghost invariant = { λ index. IsIndex index.entries.items };
}

impl KeyIndex {
    ghost use Rattle.std.specs.Prelude.{◌≡◌, ◌≤◌, ◌<◌, ◌+◌, List, ℕ, IfOk, IsOk, OnOk, OnErr, length};
    ghost use Rattle.fits_card.specs.CardList.{ReadsUpTo};
    ghost use Rattle.fits_card.specs.Change.{moved, spliced};
    ghost use Rattle.fits_header.specs.Index.{IsIndexOf, IsNameAt};
    ghost use Rattle.fits_header.specs.Names.{header_names, name_number};
    ghost use Rattle.fits_header.specs.Notes.{notes_of};
    ghost use Rattle.std.specs.List.{list_any};
    ghost use Rattle.fits_header.specs.Places.{has_name, keyword_places, lead_place_within};
    ghost use Rattle.fits_header.specs.Surroundings.{AreRepeatsMarked};
    ghost use Rattle.fits_rules.specs.Lead.{lead_place};

    /// The index of a store's cards. Each is read once.
    pub fn open(alloc: Global, cards: &mut CardList) -> Result<KeyIndex, AllocError>
        ensures value { IfOk result (λ index. IsIndexOf index.entries cards.old.header.cards) }
        ensures work { ReadsUpTo cards.old cards.new (length cards.old.header.cards) }
    {
        let entries = read_entries(alloc, cards)?;
        Ok(KeyIndex {
            entries: sorted(entries)?,
        })
    }

    /// The same by the notes of the cards. No card is read.
    pub(crate) fn of_notes(
        alloc: Global,
        cards: &CardList,
        notes: &Notes,
    ) -> Result<KeyIndex, AllocError>
        requires { notes.now.items ≡ notes_of cards.now.header.cards }
        ensures { IfOk result (λ index. IsIndexOf index.entries cards.now.header.cards) }
    {
        let entries = noted_entries(alloc, cards, notes)?;
        Ok(KeyIndex {
            entries: sorted(entries)?,
        })
    }

    /// The places of the cards of a name, ascending. It takes no memory where there is none.
    #[tactic(auto, using(crate::proofs::AnswerLemmas::answer_steps))]
    pub fn positions(&self, alloc: Global, name: &Name) -> Result<Vec<usize>, AllocError>
        ensures places { (cards : List (List ℕ)) → IsIndexOf self.now.entries cards
            → IfOk result (λ places. places.items ≡ keyword_places cards name.now) }
        ensures some { (cards : List (List ℕ)) → IsIndexOf self.now.entries cards
            → OnErr result (0 < length (keyword_places cards name.now)) }
    {
        positions(alloc, &self.entries, number_of(name))
    }

    /// Where the lead of a name stands. It takes no memory, and reads no card.
    #[tactic(auto, using(crate::proofs::AnswerLemmas::answer_steps))]
    pub fn lead(&self, name: &Name) -> Option<usize>
        ensures { (cards : List (List ℕ)) → IsIndexOf self.now.entries cards
            → result ≡ lead_place cards name.now }
    {
        lead(&self.entries, number_of(name))
    }

    /// Where the lead of a name stands among the cards from a place on and before another. It takes
    /// no memory, and reads no card.
    #[tactic(auto, using(crate::proofs::StretchLemmas::within_steps))]
    pub fn lead_within(&self, name: &Name, from: usize, to: usize) -> Option<usize>
        requires { 1 ≤ from }
        ensures { (cards : List (List ℕ)) → IsIndexOf self.now.entries cards
            → result ≡ lead_place_within cards name.now from to }
    {
        lead_within(&self.entries, number_of(name), from, to)
    }

    /// Whether a card has a name. It takes no memory, and reads no card.
    #[tactic(auto, using(crate::proofs::AnswerLemmas::answer_steps))]
    pub fn has(&self, name: &Name) -> bool
        ensures { (cards : List (List ℕ)) → IsIndexOf self.now.entries cards
            → result ≡ list_any (has_name name.now) cards }
    {
        has(&self.entries, number_of(name))
    }

    /// The names of the cards, each once, ascending.
    #[tactic(auto, using(crate::proofs::NameLemmas::name_steps))]
    pub fn names(&self, alloc: Global) -> Result<Vec<Name>, AllocError>
        ensures { (cards : List (List ℕ)) → IsIndexOf self.now.entries cards
            → IfOk result (λ names. names.items ≡ header_names cards) }
    {
        let numbers = numbers(alloc, &self.entries)?;
        names_of(alloc, &numbers)
    }

    /// Marks at each card whether an earlier one has its name, and whether one has a value too. The
    /// links stay.
    pub(crate) fn mark_repeats(&self, surroundings: &mut [Surrounding])
        requires { length surroundings.old ≡ length self.now.entries }
        ensures len { length surroundings.new ≡ length surroundings.old }
        ensures marked { (cards : List (List ℕ)) → IsIndexOf self.now.entries cards
            → AreRepeatsMarked cards surroundings.old surroundings.new }
    {
        mark_repeats(&self.entries, surroundings);
    }

    /// Makes room for this many more cards. It fails only where room was missing.
    pub fn reserve(&mut self, additional: usize) -> Result<(), AllocError>
        ensures ok { OnOk result (additional ≤ self.new.room) }
        ensures err { OnErr result (self.new.room ≡ self.old.room) }
        ensures succeeds { additional ≤ self.old.room → IsOk result }
        ensures entries { self.new.entries ≡ self.old.entries }
        ensures room { self.old.room ≤ self.new.room }
    {
        reserve_room(&mut self.entries, additional)
    }

    /// From a place on, so many cards go, and these stand there instead. No card of the store is
    /// read.
    ///
    /// It takes no memory: the room is reserved before.
    pub fn splice(&mut self, place: usize, removed: usize, cards: &[Card])
        requires from { 1 ≤ place }
        requires to { place + removed ≤ length self.old.entries + 1 }
        requires room { length cards.now ≤ self.old.room + removed }
        ensures index { (old : List (List ℕ)) → IsIndexOf self.old.entries old
            → IsIndexOf self.new.entries (spliced old place removed cards.now) }
        ensures room { self.new.room + length cards.now ≡ self.old.room + removed }
    {
        make_way(&mut self.entries, place, removed, cards.len());
        add_cards(&mut self.entries, place, cards);
    }

    /// The same where one card goes, whose name is known, so that its entry need not be sought.
    pub(crate) fn replace(&mut self, place: usize, name: &Name, cards: &[Card])
        requires from { 1 ≤ place }
        requires to { place ≤ length self.old.entries }
        requires name { IsNameAt self.old.entries place (name_number name.now) }
        requires room { length cards.now ≤ self.old.room + 1 }
        ensures index { (old : List (List ℕ)) → IsIndexOf self.old.entries old
            → IsIndexOf self.new.entries (spliced old place 1 cards.now) }
        ensures room { self.new.room + length cards.now ≡ self.old.room + 1 }
    {
        take_named(&mut self.entries, place, number_of(name));
        close_gap(&mut self.entries, place, cards.len());
        add_cards(&mut self.entries, place, cards);
    }

    /// The card at a place is taken out, and put where it has the other place in the result. No
    /// card of the store is read, and no memory is taken.
    pub fn move_place(&mut self, from: usize, to: usize)
        requires from_first { 1 ≤ from }
        requires from_last { from ≤ length self.old.entries }
        requires to_first { 1 ≤ to }
        requires to_last { to ≤ length self.old.entries }
        ensures index { (cards : List (List ℕ)) → IsIndexOf self.old.entries cards
            → IsIndexOf self.new.entries (moved cards from to) }
        ensures room { self.new.room ≡ self.old.room }
    {
        let name = entry_at(&self.entries, from).name;
        move_entry(&mut self.entries, from, to, name);
    }

    /// The same of a card whose name is known, so that its entry need not be sought.
    pub(crate) fn move_named(&mut self, from: usize, to: usize, name: &Name)
        requires from_first { 1 ≤ from }
        requires from_last { from ≤ length self.old.entries }
        requires to_first { 1 ≤ to }
        requires to_last { to ≤ length self.old.entries }
        requires name { IsNameAt self.old.entries from (name_number name.now) }
        ensures index { (cards : List (List ℕ)) → IsIndexOf self.old.entries cards
            → IsIndexOf self.new.entries (moved cards from to) }
        ensures room { self.new.room ≡ self.old.room }
    {
        move_entry(&mut self.entries, from, to, number_of(name));
    }
}

// The card at a place, whose name is known, is taken out, and put where it has the other place in the
// result. Only the places between the two change.
fn move_entry(entries: &mut Vec<Entry>, from: usize, to: usize, name: u64)
    requires index { IsIndex entries.old.items }
    requires from_first { 1 ≤ from }
    requires from_last { from ≤ vec_len entries.old }
    requires to_first { 1 ≤ to }
    requires to_last { to ≤ vec_len entries.old }
    requires name { IsNameAt entries.old.items from name }
    ensures index { (cards : List (List ℕ)) → IsIndexOf entries.old.items cards
        → IsIndexOf entries.new.items (moved cards from to) }
    ensures len { vec_len entries.new ≡ vec_len entries.old }
    ensures room { vec_capacity entries.new ≡ vec_capacity entries.old }
{
    let entry = take_named(entries, from, name);
    turn(entries, from, to);
    add(entries, Entry { place: to, ..entry });
}
