//! What is found of cards, by their notes and by what stands round them.
ghost use Rattle.std.specs.Prelude.{◌≡◌, ◌≤◌, ◌-◌, ◌++◌, List, ℕ, IfOk, OnOk, false, length, slice_index_or};
ghost use Rattle.fits_header.specs.Findings.{card_findings, codes_at, context_at, found_at};
ghost use Rattle.fits_header.specs.Links.{header_links};
ghost use Rattle.fits_header.specs.Notes.{notes_of};
ghost use Rattle.fits_header.specs.Surroundings.{surroundings_of};

use crate::finding::Finding;
use crate::notes::Notes;
use fits_codes::{Code, CodeSet, Context, Surrounding, judge};
use fits_rules::Shape;
use std::alloc::{AllocError, Global};

/// What is found of all cards: by place, and at each by number.
pub(crate) fn findings_of(
    alloc: Global,
    shape: &Shape,
    notes: &Notes,
    surroundings: &[Surrounding],
) -> Result<Vec<Finding>, AllocError>
    requires { length surroundings.now ≡ length notes.now.items }
    ensures { (cards : List (List ℕ)) → notes.now.items ≡ notes_of cards
        → surroundings.now ≡ surroundings_of cards
        → IfOk result (λ found. found.items ≡ card_findings shape.now cards) }
{
    let mut found = Vec::new(alloc);
    for index in 0..notes.len() {
        let codes = codes_at(shape, notes, surroundings, index + 1);
        push_found(&mut found, index + 1, codes.as_slice())?;
    }
    Ok(found)
}

/// The codes of the card at a place.
#[tactic(auto, using(crate::proofs::FindingLemmas::code_steps))]
pub(crate) fn codes_at(
    shape: &Shape,
    notes: &Notes,
    surroundings: &[Surrounding],
    place: usize,
) -> CodeSet
    requires size { length surroundings.now ≡ length notes.now.items }
    requires from { 1 ≤ place }
    requires to { place ≤ length notes.now.items }
    ensures { (cards : List (List ℕ)) → notes.now.items ≡ notes_of cards
        → surroundings.now ≡ surroundings_of cards → result ≡ codes_at shape.now cards place }
{
    let note = notes.at(place - 1);
    let context = context_at(shape, surroundings, place);
    judge(&note.mark, &context)
}

// Where the card at a place stands, and what stands round it.
fn context_at(shape: &Shape, surroundings: &[Surrounding], place: usize) -> Context
    requires from { 1 ≤ place }
    requires to { place ≤ length surroundings.now }
    ensures { (cards : List (List ℕ)) → surroundings.now ≡ surroundings_of cards
        → result ≡ context_at shape.now cards place }
{
    let around = surroundings[place - 1];
    let next_is_link = is_link(surroundings, place);
    Context {
        class: shape.class,
        axes: shape.axes.as_slice().len(),
        place,
        around,
        next_is_link,
    }
}

/// Whether the card at an index is there, and goes on with a long string.
#[tactic(auto, using(crate::proofs::FindingLemmas::link_steps))]
pub(crate) fn is_link(surroundings: &[Surrounding], index: usize) -> bool
    ensures { (cards : List (List ℕ)) → surroundings.now ≡ surroundings_of cards
        → result ≡ slice_index_or (header_links cards) index false }
{
    if index >= surroundings.len() {
        return false;
    }
    surroundings[index].is_link
}

// Lists the codes of a place.
fn push_found(found: &mut Vec<Finding>, place: usize, codes: &[Code]) -> Result<(), AllocError>
    ensures { OnOk result (found.new.items ≡ found.old.items ++ found_at place codes.now) }
{
    for code in codes {
        found.push(Finding { place, code: *code })?;
    }
    Ok(())
}
