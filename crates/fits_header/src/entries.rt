//! Entries of names and places, sorted, under changes of the cards that they stand for.
ghost use Rattle.std.specs.Prelude.{◌≡◌, ◌≤◌, ◌<◌, ◌+◌, ◌-◌, ◌++◌, ◌^◌, ℕ, List, All, IfOk, insert, length, map, filter, not, take, drop, slice_index_or, vec_len, vec_capacity};
ghost use Rattle.fits_card.specs.CardList.{ReadsUpTo};
ghost use Rattle.fits_header.specs.Findings.{card_of};
ghost use Rattle.fits_header.specs.Index.{AreSame, IsIndex, IsIndexOf, IsNameAt, IsSortedIndex, added, comes_before, entries_from, entry_of, shifted, stays};
ghost use Rattle.fits_header.specs.Names.{AreNamed};
ghost use Rattle.fits_header.specs.Notes.{notes_of};
ghost use Rattle.fits_header.specs.declared.entry.Entry.{Entry};

use crate::entry::{Entry, entry_of, move_on, noted_entry, stays};
use crate::notes::Notes;
use crate::shifts::open_gap;
use fits_card::{Card, CardList, room_for};
use std::alloc::{AllocError, Global};

/// The entries of a store's cards, in the order of their places. Each card is read once.
#[tactic(auto, using(crate::proofs::OpenLemmas::open_steps))]
pub(crate) fn read_entries(alloc: Global, cards: &mut CardList) -> Result<Vec<Entry>, AllocError>
    ensures value { IfOk result (λ entries. entries.items ≡ entries_from 1 cards.old.header.cards) }
    ensures named { IfOk result (λ _. AreNamed cards.old.header.cards) }
    ensures work { ReadsUpTo cards.old cards.new (length cards.old.header.cards) }
{
    let mut entries = Vec::with_capacity(alloc, cards.len())?;
    for index in 0..cards.len() {
        entries.push(entry_of(&cards.card(index + 1), index + 1))?;
    }
    Ok(entries)
}

/// The same by the notes of the cards. No card is read.
#[tactic(auto, using(crate::proofs::OpenLemmas::open_steps))]
pub(crate) fn noted_entries(
    alloc: Global,
    cards: &CardList,
    notes: &Notes,
) -> Result<Vec<Entry>, AllocError>
    requires { notes.now.items ≡ notes_of cards.now.header.cards }
    ensures value { IfOk result (λ entries. entries.items ≡ entries_from 1 cards.now.header.cards) }
    ensures named { IfOk result (λ _. AreNamed cards.now.header.cards) }
{
    let mut entries = Vec::with_capacity(alloc, room_for(notes.len()))?;
    for index in 0..notes.len() {
        entries.push(noted_entry(notes.at(index), index + 1))?;
    }
    Ok(entries)
}

/// The index of cards that have these entries, by a stable sort.
pub(crate) fn sorted(entries: Vec<Entry>) -> Result<Vec<Entry>, AllocError>
    ensures { (cards : List (List ℕ)) → entries.items ≡ entries_from 1 cards → AreNamed cards
        → IfOk result (λ index. IsIndexOf index.items cards) }
{
    let mut entries = entries;
    entries.sort_by_key(|entry| entry.name)?;
    Ok(entries)
}

/// Where an entry of this name and place goes.
pub(crate) fn place_for(entries: &[Entry], name: u64, place: usize) -> usize
    requires { IsSortedIndex entries.now }
    ensures within { result ≤ length entries.now }
    ensures below { take result entries.now ≡ filter (comes_before name place) entries.now }
    ensures from { drop result entries.now
        ≡ filter (λ e. not (comes_before name place e)) entries.now }
{
    entries.partition_point(|entry| {
        entry.name < name || (entry.name == name && entry.place < place)
    })
}

/// Takes the entries of places out, and shifts the later ones, for as many as come.
pub(crate) fn make_way(entries: &mut Vec<Entry>, place: usize, removed: usize, coming: usize)
    requires low { All (λ e. e.place + coming < 2 ^ 64 + removed) entries.old.items }
    requires within { All (λ e. e.place ≤ length entries.old.items) entries.old.items }
    ensures items { entries.new.items
        ≡ map (shifted place removed coming) (filter (stays place removed) entries.old.items) }
    ensures room { vec_capacity entries.new ≡ vec_capacity entries.old }
{
    // Cards that come after all others leave the entries as they are.
    if entries.len() < place {
        return;
    }
    match removed {
        0 => open_gap(entries, place, coming),
        _ => take_several(entries, place, removed, coming),
    }
}

// The same where some go.
fn take_several(entries: &mut Vec<Entry>, place: usize, removed: usize, coming: usize)
    requires { All (λ e. e.place + coming < 2 ^ 64 + removed) entries.old.items }
    ensures items { entries.new.items
        ≡ map (shifted place removed coming) (filter (stays place removed) entries.old.items) }
    ensures room { vec_capacity entries.new ≡ vec_capacity entries.old }
{
    let first = shift_front(entries, place, removed, coming);
    let kept = pack_from(entries, first, place, removed, coming);
    entries.truncate(kept);
}

// Shifts the entries up to the first of those that go, and says where that is. They stay where they
// are, so that their places alone are written.
fn shift_front(entries: &mut [Entry], place: usize, removed: usize, coming: usize) -> usize
    requires low { All (λ e. e.place + coming < 2 ^ 64 + removed) entries.old }
    ensures within { result ≤ length entries.old }
    ensures len { length entries.new ≡ length entries.old }
    ensures front { take result entries.new
        ≡ map (shifted place removed coming) (filter (stays place removed) (take result entries.old)) }
    ensures rest { drop result entries.new ≡ drop result entries.old }
{
    let mut index = 0;
    while index < entries.len() && stays(entries[index], place, removed) {
        move_on(&mut entries[index], place, removed, coming);
        index += 1;
    }
    index
}

// Packs the entries from one on behind those before it, and says how many there are then.
fn pack_from(
    entries: &mut Vec<Entry>,
    first: usize,
    place: usize,
    removed: usize,
    coming: usize,
) -> usize
    requires within { first ≤ vec_len entries.old }
    requires low { All (λ e. e.place + coming < 2 ^ 64 + removed) (drop first entries.old.items) }
    ensures kept { take result entries.new.items ≡ take first entries.old.items
        ++ map (shifted place removed coming) (filter (stays place removed) (drop first entries.old.items)) }
    ensures within { result ≤ vec_len entries.new }
    ensures room { vec_capacity entries.new ≡ vec_capacity entries.old }
{
    let (_, rest) = entries.split_at_mut(first);
    first + pack(rest, place, removed, coming)
}

// Packs what stays at the front, shifted, and says how many that are.
fn pack(entries: &mut [Entry], place: usize, removed: usize, coming: usize) -> usize
    requires low { All (λ e. e.place + coming < 2 ^ 64 + removed) entries.old }
    ensures kept { take result entries.new
        ≡ map (shifted place removed coming) (filter (stays place removed) entries.old) }
    ensures len { length entries.new ≡ length entries.old }
    ensures within { result ≤ length entries.old }
{
    let mut kept = 0;
    for index in 0..entries.len() {
        let entry = entries[index];
        let mut moved = entry;
        move_on(&mut moved, place, removed, coming);
        // It is written whether it stays or not: what doesn't is written over.
        entries[kept] = moved;
        kept += stays(entry, place, removed) as usize;
    }
    kept
}

/// Takes the entry of a place out, whose name is known, so that it is found by its order. The others
/// keep their places.
pub(crate) fn take_named(entries: &mut Vec<Entry>, place: usize, name: u64) -> Entry
    requires index { IsIndex entries.old.items }
    requires from { 1 ≤ place }
    requires to { place ≤ vec_len entries.old }
    requires name { IsNameAt entries.old.items place name }
    ensures items { entries.new.items ≡ filter (stays place 1) entries.old.items }
    ensures value { (cards : List (List ℕ)) → IsIndexOf entries.old.items cards
        → result ≡ entry_of (card_of cards place) place }
    ensures room { vec_capacity entries.new ≡ vec_capacity entries.old }
{
    let at = place_for(entries, name, place);
    entries.remove(at)
}

/// Puts the entries of cards from a place on where they go, in reserved room.
pub(crate) fn add_cards(entries: &mut Vec<Entry>, place: usize, cards: &[Card])
    requires sorted { IsSortedIndex entries.old.items }
    requires room { vec_len entries.old + length cards.now ≤ vec_capacity entries.old }
    requires fits { place + length cards.now ≤ 2 ^ 64 }
    ensures sorted { IsSortedIndex entries.new.items }
    ensures room { vec_capacity entries.new ≡ vec_capacity entries.old }
    ensures len { vec_len entries.new ≡ vec_len entries.old + length cards.now }
    ensures named { AreNamed cards.now }
    ensures same { (xs zs : List (List ℕ)) → length xs + 1 ≡ place
        → AreSame entries.old.items
        (entries_from 1 xs ++ entries_from (place + length cards.now) zs)
        → AreSame entries.new.items (entries_from 1 ((xs ++ cards.now) ++ zs)) }
{
    for index in 0..cards.len() {
        add(entries, entry_of(&cards[index], place + index));
    }
}

/// Puts an entry where it goes, in reserved room.
pub(crate) fn add(entries: &mut Vec<Entry>, entry: Entry)
    requires sorted { IsSortedIndex entries.old.items }
    requires room { vec_len entries.old < vec_capacity entries.old }
    ensures items { entries.new.items ≡ added entries.old.items entry }
    ensures sorted { IsSortedIndex entries.new.items }
    ensures room { vec_capacity entries.new ≡ vec_capacity entries.old }
    ensures len { vec_len entries.new ≡ vec_len entries.old + 1 }
{
    let at = place_for(entries, entry.name, entry.place);
    put_in(entries, at, entry);
}

// Puts an entry in at an index, in reserved room. What follows is moved by one copy.
#[tactic(auto, using(crate::proofs::IndexLemmas::put_steps))]
fn put_in(entries: &mut Vec<Entry>, at: usize, entry: Entry)
    requires within { at ≤ vec_len entries.old }
    requires room { vec_len entries.old < vec_capacity entries.old }
    ensures items { entries.new.items ≡ insert entries.old.items at entry }
    ensures len { vec_len entries.new ≡ vec_len entries.old + 1 }
    ensures room { vec_capacity entries.new ≡ vec_capacity entries.old }
{
    let len = entries.len();
    let _ = entries.insert(len, entry);
    entries.copy_within(at..len, at + 1);
    entries[at] = entry;
}
