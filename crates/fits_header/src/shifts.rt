//! The places of entries, shifted for cards that come, go or move.
ghost use Rattle.std.specs.Prelude.{◌≡◌, ◌≤◌, ◌<◌, ◌+◌, ◌^◌, All, map};
ghost use Rattle.fits_header.specs.Index.{shifted, turned};

use crate::entry::{Entry, move_on, step_back, step_on, turn_back, turn_on};

/// Shifts the entries of places from one on, for as many as come there.
#[tactic(auto, using(crate::proofs::ShiftLemmas::gap_steps))]
pub(crate) fn open_gap(entries: &mut [Entry], place: usize, coming: usize)
    requires { All (λ e. e.place + coming < 2 ^ 64) entries.old }
    ensures { entries.new ≡ map (shifted place 0 coming) entries.old }
{
    match coming {
        0 => {}
        1 => step_on_all(entries, place),
        _ => shift_all(entries, place, coming),
    }
}

/// Shifts the entries of places behind one whose card went, for as many as come there instead.
#[tactic(auto, using(crate::proofs::ShiftLemmas::gap_steps))]
pub(crate) fn close_gap(entries: &mut [Entry], place: usize, coming: usize)
    requires from { 1 ≤ place }
    requires low { All (λ e. e.place + coming < 2 ^ 64 + 1) entries.old }
    ensures { entries.new ≡ map (shifted place 1 coming) entries.old }
{
    match coming {
        0 => step_back_all(entries, place),
        _ => open_gap(entries, place, coming - 1),
    }
}

/// Shifts the entries of the places between two, once the card at the one went to the other.
pub(crate) fn turn(entries: &mut [Entry], from: usize, to: usize)
    requires { 1 ≤ from }
    ensures { entries.new ≡ map (turned from to) entries.old }
{
    if from <= to {
        turn_back_all(entries, from, to);
    } else {
        turn_on_all(entries, from, to);
    }
}

// Each step in a pass of its own.

#[tactic(auto, using(crate::proofs::ShiftLemmas::pass_steps))]
fn shift_all(entries: &mut [Entry], place: usize, coming: usize)
    requires { All (λ e. e.place + coming < 2 ^ 64) entries.old }
    ensures { entries.new ≡ map (shifted place 0 coming) entries.old }
{
    for index in 0..entries.len() {
        move_on(&mut entries[index], place, 0, coming);
    }
}

#[tactic(auto, using(crate::proofs::ShiftLemmas::pass_steps))]
fn step_on_all(entries: &mut [Entry], place: usize)
    requires { All (λ e. e.place + 1 < 2 ^ 64) entries.old }
    ensures { entries.new ≡ map (shifted place 0 1) entries.old }
{
    for index in 0..entries.len() {
        step_on(&mut entries[index], place);
    }
}

#[tactic(auto, using(crate::proofs::ShiftLemmas::pass_steps))]
fn step_back_all(entries: &mut [Entry], place: usize)
    requires { 1 ≤ place }
    ensures { entries.new ≡ map (shifted place 1 0) entries.old }
{
    for index in 0..entries.len() {
        step_back(&mut entries[index], place);
    }
}

#[tactic(auto, using(crate::proofs::ShiftLemmas::pass_steps))]
fn turn_back_all(entries: &mut [Entry], from: usize, to: usize)
    requires first { 1 ≤ from }
    requires order { from ≤ to }
    ensures { entries.new ≡ map (turned from to) entries.old }
{
    for index in 0..entries.len() {
        turn_back(&mut entries[index], from, to);
    }
}

#[tactic(auto, using(crate::proofs::ShiftLemmas::pass_steps))]
fn turn_on_all(entries: &mut [Entry], from: usize, to: usize)
    requires { to < from }
    ensures { entries.new ≡ map (turned from to) entries.old }
{
    for index in 0..entries.len() {
        turn_on(&mut entries[index], from, to);
    }
}
