//! What stands round the cards, found in two passes and kept until the next change.
ghost use Rattle.std.specs.Prelude.{◌≡◌, ◌≤◌, ◌<◌, ◌+◌, ◌^◌, List, ℕ, IsOk, OnOk, length, vec_capacity, vec_len};
ghost use Rattle.fits_header.specs.Index.{IsIndexOf};
ghost use Rattle.fits_header.specs.Notes.{notes_of};
ghost use Rattle.fits_header.specs.Surroundings.{surroundings_of};

use crate::key_index::KeyIndex;
use crate::links::mark_links;
use crate::notes::Notes;
use fits_card::reserve_room;
use fits_codes::Surrounding;
use std::alloc::AllocError;

/// Finds what stands round the cards, unless that is there. It reads no card.
///
/// It takes no memory: the room is reserved before.
pub(crate) fn survey(surroundings: &mut Vec<Surrounding>, notes: &Notes, index: &KeyIndex)
    requires size { length index.now.entries ≡ length notes.now.items }
    requires whole { 0 < vec_len surroundings.old
        → vec_len surroundings.old ≡ length notes.now.items }
    requires room { length notes.now.items ≤ vec_capacity surroundings.old }
    ensures len { vec_len surroundings.new ≡ length notes.now.items }
    ensures room { vec_capacity surroundings.old ≤ vec_capacity surroundings.new }
    ensures found { (cards : List (List ℕ)) → notes.now.items ≡ notes_of cards
        → IsIndexOf index.now.entries cards
        → (0 < vec_len surroundings.old → surroundings.old.items ≡ surroundings_of cards)
        → surroundings.new.items ≡ surroundings_of cards }
{
    if !surroundings.is_empty() {
        return;
    }
    let unknown = Surrounding {
        name_before: false,
        value_before: false,
        is_link: false,
    };
    let _ = surroundings.resize(notes.len(), unknown);
    mark_all(surroundings, notes, index);
}

/// Makes room for what stands round so many cards, and this many more.
///
/// It fails only where room was missing.
pub(crate) fn reserve_surroundings(
    surroundings: &mut Vec<Surrounding>,
    count: usize,
    additional: usize,
) -> Result<(), AllocError>
    requires fits { count + additional < 2 ^ 64 }
    requires whole { 0 < vec_len surroundings.old → vec_len surroundings.old ≡ count }
    ensures items { surroundings.new.items ≡ surroundings.old.items }
    ensures len { vec_len surroundings.new ≡ vec_len surroundings.old }
    ensures ok { OnOk result (count + additional ≤ vec_capacity surroundings.new) }
    ensures succeeds { count + additional ≤ vec_capacity surroundings.old → IsOk result }
    ensures room { vec_capacity surroundings.old ≤ vec_capacity surroundings.new }
{
    if surroundings.is_empty() {
        return reserve_room(surroundings, count + additional);
    }
    reserve_room(surroundings, additional)
}

// Marks what stands round each card.
fn mark_all(surroundings: &mut [Surrounding], notes: &Notes, index: &KeyIndex)
    requires size { length index.now.entries ≡ length notes.now.items }
    requires each { length surroundings.old ≡ length notes.now.items }
    ensures len { length surroundings.new ≡ length surroundings.old }
    ensures found { (cards : List (List ℕ)) → notes.now.items ≡ notes_of cards
        → IsIndexOf index.now.entries cards → surroundings.new ≡ surroundings_of cards }
{
    mark_links(notes, surroundings);
    index.mark_repeats(surroundings);
}
