ghost use Rattle.std.specs.Prelude.{◌≡◌, ◌+◌, ◌-◌, ◌<◌, ◌≤◌, ◌^◌, IsTrue, List, ℕ};
ghost use Rattle.fits_card.specs.Card.{keyword_name};
ghost use Rattle.fits_header.specs.Names.{IsName};
ghost use Rattle.fits_header.specs.Index.{entry_of, shifted, stays, turned};
ghost use Rattle.fits_header.specs.Notes.{note_of};

use crate::note::Note;
use crate::numbers::number_of;
use fits_card::Card;

/// A card in the index.
#[derive(Clone, Copy)]
pub(crate) struct Entry {
    /// Its name, as a number.
    pub(crate) name: u64,
    pub(crate) place: usize,
    pub(crate) has_value: bool,
}

// The entry of a card at a place.
pub(crate) fn entry_of(card: &Card, place: usize) -> Entry
    ensures value { result ≡ entry_of card.now place }
    ensures name { IsName (keyword_name card.now) }
{
    Entry {
        name: number_of(&card.name()),
        place,
        has_value: card.has_value(),
    }
}

// The same by the note of the card.
#[tactic(auto, unfolding(fits_codes::specs::Mark::mark_of))]
pub(crate) fn noted_entry(note: &Note, place: usize) -> Entry
    ensures value { (card : List ℕ) → note.now ≡ note_of card → result ≡ entry_of card place }
    ensures name { (card : List ℕ) → note.now ≡ note_of card → IsName (keyword_name card) }
{
    Entry {
        name: number_of(&note.mark.name),
        place,
        has_value: note.mark.has_value,
    }
}

/// Whether the entry is of none of the places that go.
pub(crate) fn stays(entry: Entry, place: usize, removed: usize) -> bool
    ensures { result ≡ stays place removed entry }
{
    entry.place < place || removed <= entry.place - place
}

/// Makes an entry what it is once cards before it went and came, where it stays itself: its place
/// alone is written.
pub(crate) fn move_on(entry: &mut Entry, place: usize, removed: usize, coming: usize)
    requires low { entry.old.place + coming < 2 ^ 64 + removed }
    ensures { IsTrue (stays place removed entry.old)
        → entry.new ≡ shifted place removed coming entry.old }
{
    let here = entry.place;
    // A card that goes has no place then: whatever comes of it is written over.
    let moved = here.wrapping_sub(removed).wrapping_add(coming);
    entry.place = if here < place { here } else { moved };
}

/// The same where one card came: from its place on each moves on by one.
pub(crate) fn step_on(entry: &mut Entry, place: usize)
    requires low { entry.old.place + 1 < 2 ^ 64 }
    ensures { entry.new ≡ shifted place 0 1 entry.old }
{
    entry.place += (place <= entry.place) as usize;
}

/// The same where one card went: from its place on each moves back by one.
pub(crate) fn step_back(entry: &mut Entry, place: usize)
    requires { 1 ≤ place }
    ensures { entry.new ≡ shifted place 1 0 entry.old }
{
    entry.place -= (place <= entry.place) as usize;
}

/// The same where the card at a place went to one that isn't before: up to there each moves back by
/// one.
pub(crate) fn turn_back(entry: &mut Entry, from: usize, to: usize)
    requires first { 1 ≤ from }
    requires order { from ≤ to }
    ensures { entry.new ≡ turned from to entry.old }
{
    let behind = entry.place.wrapping_sub(from);
    entry.place -= (behind <= to - from) as usize;
}

/// The same where it went to an earlier one: from there on, up to where it was, each moves on by one.
pub(crate) fn turn_on(entry: &mut Entry, from: usize, to: usize)
    requires { to < from }
    ensures { entry.new ≡ turned from to entry.old }
{
    let behind = entry.place.wrapping_sub(to);
    entry.place += (behind < from - to) as usize;
}
