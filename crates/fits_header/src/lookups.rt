//! What sorted entries answer.
ghost use Rattle.std.specs.Prelude.{◌≡◌, ◌≤◌, ◌<◌, ◌+◌, ℕ, List, All, IfOk, OnErr, filter, length, map, nat_eq};
ghost use Rattle.std.specs.List.{dedup, list_any};
ghost use Rattle.std.specs.List.Sorted.{IsStrictlyIncreasing};
ghost use Rattle.fits_header.specs.declared.entry.Entry.{Entry};
ghost use Rattle.fits_header.specs.Findings.{card_of};
ghost use Rattle.fits_header.specs.Index.{IsIndex, IsIndexOf, IsSortedIndex, before, entry_of, first_value, from_place, is_named, places_in};

use crate::entries::place_for;
use crate::entry::Entry;
use std::alloc::{AllocError, Global};

/// Where the first card of a name stands that has a value.
pub(crate) fn lead(entries: &[Entry], name: u64) -> Option<usize>
    requires { IsSortedIndex entries.now }
    ensures { result ≡ first_value (filter (is_named name) entries.now) }
{
    lead_in(rest_of(entries, name), name)
}

/// The same of the cards from a place on and before another.
pub(crate) fn lead_within(entries: &[Entry], name: u64, from: usize, to: usize) -> Option<usize>
    requires { IsSortedIndex entries.now }
    ensures { result
        ≡ before to (first_value (filter (is_named name) (from_place name from entries.now))) }
{
    match lead_in(rest_from(entries, name, from), name) {
        Some(place) if place < to => Some(place),
        _ => None,
    }
}

/// Whether an entry has a name.
pub(crate) fn has(entries: &[Entry], name: u64) -> bool
    requires { IsSortedIndex entries.now }
    ensures { result ≡ list_any (is_named name) entries.now }
{
    match rest_of(entries, name).first() {
        Some(entry) => entry.name == name,
        None => false,
    }
}

/// The places of a name, ascending. It takes no memory where there is none.
pub(crate) fn positions(
    alloc: Global,
    entries: &[Entry],
    name: u64,
) -> Result<Vec<usize>, AllocError>
    requires { IsSortedIndex entries.now }
    ensures places { IfOk result (λ places. places.items
        ≡ places_in (filter (is_named name) entries.now)) }
    ensures some { OnErr result (0 < length (places_in (filter (is_named name) entries.now))) }
{
    positions_in(alloc, rest_of(entries, name), name)
}

/// The names, each once, ascending.
pub(crate) fn numbers(alloc: Global, entries: &[Entry]) -> Result<Vec<u64>, AllocError>
    requires { IsSortedIndex entries.now }
    ensures once { IfOk result (λ names. names.items
        ≡ dedup nat_eq (map (λ (e : Entry). e.name) entries.now)) }
    ensures rising { IfOk result (λ names. IsStrictlyIncreasing names.items) }
{
    let mut names = Vec::new(alloc);
    for entry in entries {
        names.push(entry.name)?;
    }
    names.dedup();
    Ok(names)
}

/// The entry of the card at a place.
pub(crate) fn entry_at(entries: &[Entry], place: usize) -> Entry
    requires index { IsIndex entries.now }
    requires from { 1 ≤ place }
    requires to { place ≤ length entries.now }
    ensures { (cards : List (List ℕ)) → IsIndexOf entries.now cards
        → result ≡ entry_of (card_of cards place) place }
{
    for entry in entries {
        if entry.place == place {
            return *entry;
        }
    }
    unreachable!()
}

// The entries from a name's first on.
fn rest_of(entries: &[Entry], name: u64) -> &[Entry]
    requires { IsSortedIndex entries.now }
    ensures sorted { IsSortedIndex result.now }
    ensures from { All (λ e. name ≤ e.name) result.now }
    ensures same { filter (is_named name) result.now ≡ filter (is_named name) entries.now }
{
    rest_from(entries, name, 0)
}

// The entries from a place of a name on.
fn rest_from(entries: &[Entry], name: u64, place: usize) -> &[Entry]
    requires { IsSortedIndex entries.now }
    ensures sorted { IsSortedIndex result.now }
    ensures from { All (λ e. name ≤ e.name) result.now }
    ensures same { result.now ≡ from_place name place entries.now }
{
    let (_, rest) = entries.split_at(place_for(entries, name, place));
    rest
}

// Where the first card of a name stands that has a value, among entries of that name and greater
// ones.
#[tactic(auto, using(crate::proofs::LeadLemmas::lead_steps))]
fn lead_in(rest: &[Entry], name: u64) -> Option<usize>
    requires sorted { IsSortedIndex rest.now }
    requires from { All (λ e. name ≤ e.name) rest.now }
    ensures { result ≡ first_value (filter (is_named name) rest.now) }
{
    for entry in rest {
        if entry.name != name {
            return None;
        }
        if entry.has_value {
            return Some(entry.place);
        }
    }
    None
}

// The places of a name, among entries of that name and greater ones.
#[tactic(auto, using(crate::proofs::LeadLemmas::place_steps))]
fn positions_in(alloc: Global, rest: &[Entry], name: u64) -> Result<Vec<usize>, AllocError>
    requires sorted { IsSortedIndex rest.now }
    requires from { All (λ e. name ≤ e.name) rest.now }
    ensures places { IfOk result (λ places. places.items
        ≡ places_in (filter (is_named name) rest.now)) }
    ensures some { OnErr result (0 < length (places_in (filter (is_named name) rest.now))) }
{
    let mut places = Vec::new(alloc);
    for entry in rest {
        if entry.name != name {
            return Ok(places);
        }
        places.push(entry.place)?;
    }
    Ok(places)
}
