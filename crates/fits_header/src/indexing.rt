//! The index of a header through changes of its cards.
ghost use Rattle.std.specs.Prelude.{◌≡◌, ◌≤◌, ◌+◌, ◌-◌, IsTrue, List, ℕ, length, take, drop};
ghost use Rattle.fits_card.specs.Card.{keyword_name, has_value};
ghost use Rattle.fits_card.specs.Change.{cards_after, IsInRange};
ghost use Rattle.fits_header.specs.Findings.{card_of};
ghost use Rattle.fits_header.specs.Index.{HaveSameKeys, IsIndexOf};
ghost use Rattle.fits_header.specs.Notes.{notes_of};

use crate::key_index::KeyIndex;
use crate::note::Note;
use crate::notes::Notes;
use fits_card::{Card, CardList, Change, Name};

/// Makes a change of an index, as of the cards. No card of the store is read.
#[tactic(auto, using(crate::proofs::HeaderLemmas::change_steps))]
pub(crate) fn change_index(index: &mut KeyIndex, cards: &CardList, notes: &Notes, change: &Change)
    requires index { IsIndexOf index.old.entries cards.now.header.cards }
    requires notes { notes.now.items ≡ notes_of cards.now.header.cards }
    requires in_range { IsInRange cards.now.header.cards change.now }
    requires room { length (cards_after cards.now.header.cards change.now)
        ≤ length cards.now.header.cards + index.old.room }
    ensures index { IsIndexOf index.new.entries (cards_after cards.now.header.cards change.now) }
    ensures room { index.new.room + length (cards_after cards.now.header.cards change.now)
        ≡ index.old.room + length cards.now.header.cards }
{
    match change {
        Change::Splice {
            place,
            removed,
            cards: new,
        } => {
            let new = new.as_slice();
            // Cards in place of others of the same names leave the index as it is.
            if keep_keys(notes, *place, *removed, new) {
                return;
            }
            if *removed == 1 {
                index.replace(*place, name_at(notes, *place), new);
                return;
            }
            index.splice(*place, *removed, new);
        }
        Change::Move { from, to } => index.move_named(*from, *to, name_at(notes, *from)),
    }
}

// The name of the card at a place, by its note.
fn name_at(notes: &Notes, place: usize) -> &Name
    requires from { 1 ≤ place }
    requires to { place ≤ length notes.now.items }
    ensures { (cards : List (List ℕ)) → notes.now.items ≡ notes_of cards
        → result.now ≡ keyword_name (card_of cards place) }
{
    &notes.at(place - 1).mark.name
}

// Whether cards in place of so many others keep the keys: as many, of the names of those, each in its
// turn, and with a value exactly where that one has.
fn keep_keys(notes: &Notes, place: usize, removed: usize, cards: &[Card]) -> bool
    requires from { 1 ≤ place }
    requires to { place + removed ≤ length notes.now.items + 1 }
    ensures len { IsTrue result → removed ≡ length cards.now }
    ensures keys { IsTrue result → (old : List (List ℕ)) → notes.now.items ≡ notes_of old
        → HaveSameKeys (take removed (drop (place - 1) old)) cards.now }
{
    removed == cards.len() && have_same_keys(notes, place, cards)
}

// The same of as many.
fn have_same_keys(notes: &Notes, place: usize, cards: &[Card]) -> bool
    requires from { 1 ≤ place }
    requires to { place + length cards.now ≤ length notes.now.items + 1 }
    ensures { IsTrue result → (old : List (List ℕ)) → notes.now.items ≡ notes_of old
        → HaveSameKeys (take (length cards.now) (drop (place - 1) old)) cards.now }
{
    let _few = notes.len();
    for index in 0..cards.len() {
        if !has_same_key(notes.at(place - 1 + index), &cards[index]) {
            return false;
        }
    }
    true
}

// Whether the card has the name of the one whose note this is, and a value exactly where that has.
fn has_same_key(note: &Note, card: &Card) -> bool
    ensures name { IsTrue result → keyword_name card.now ≡ note.now.mark.name }
    ensures value { IsTrue result → has_value card.now ≡ note.now.mark.has_value }
{
    note.mark.name == card.name() && note.mark.has_value == card.has_value()
}
