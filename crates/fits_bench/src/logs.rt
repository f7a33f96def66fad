//! Long headers: cards come, go and change by the thousand.

use crate::cards::{LOG, OBSERVATION, ODD, PRIMARY};
use crate::files::{end_header, push_line};
use crate::memory::Stored;
use crate::noise::Noise;
use crate::runs::Outcome;
use crate::template::Template;
use crate::text::{push_number, push_numbers, push_text};
use std::alloc::{AllocError, Global};
use std::io;

/// How many groups of cards headers have, of a dozen each, and how many lines their scripts.
const SIZES: &[(u64, u64)] = &[(80, 4000), (800, 2400), (3200, 600)];

/// Headers are edited.
pub fn edit_logs(alloc: Global, rounds: usize, noise: &mut Noise) -> io::Result<Outcome> {
    let mut outcome = Outcome::new();
    for round in 0..rounds {
        let (groups, lines) = SIZES[round % 3];
        let file = log_file(alloc, groups, noise)?;
        let script = edits(alloc, groups, lines, noise)?;
        outcome.edit(alloc, Stored(&file), &script)?;
    }
    Ok(outcome)
}

// A file of one header, of so many groups of cards. One in eight has odd cards too.
fn log_file(alloc: Global, groups: u64, noise: &mut Noise) -> Result<Vec<u8>, AllocError> {
    let mut file = Vec::new(alloc);
    let log = Template::of(alloc, LOG)?;
    let odd = Template::of(alloc, ODD)?;
    Template::of(alloc, PRIMARY)?.push_copy(&mut file, 1, noise)?;
    Template::of(alloc, OBSERVATION)?.push_copy(&mut file, 1, noise)?;
    for number in 0..groups {
        log.push_copy(&mut file, number, noise)?;
        if number % 8 == 0 {
            odd.push_copy(&mut file, number, noise)?;
        }
    }
    end_header(&mut file)?;
    Ok(file)
}

// A script of so many lines for a header of so many groups.
fn edits(alloc: Global, groups: u64, lines: u64, noise: &mut Noise) -> Result<Vec<u8>, AllocError> {
    let mut script = Vec::new(alloc);
    for number in 0..lines {
        push_edit(&mut script, groups, number, noise)?;
        if number % 200 == 199 {
            push_line(&mut script, "rep")?;
        }
    }
    Ok(script)
}

// Adds a line.
fn push_edit(
    script: &mut Vec<u8>,
    groups: u64,
    number: u64,
    noise: &mut Noise,
) -> Result<(), AllocError> {
    let place = noise.within(5, groups.saturating_mul(12));
    let other = noise.within(5, groups.saturating_mul(12));
    let group = noise.below(groups);
    match noise.below(20) {
        0..=3 => push_at(
            script,
            "ins",
            &[1, place],
            " HISTORY one more step, noted later\n",
        ),
        4 | 5 => push_at(
            script,
            "put",
            &[1, place],
            " COMMENT this stands here instead\n",
        ),
        6..=8 => push_at(script, "del", &[1, place], "\n"),
        9 | 10 => push_at(script, "mov", &[1, place, other], "\n"),
        11..=13 => push_named(script, "set 1 K", group, " 1.25E+03 / measured anew\n"),
        14 => push_named(script, "set 1 P", group, LONG_TEXT),
        15 => push_named(script, "set 1 V", number, " 17 / one more value\n"),
        16 => push_named(script, "unset 1 L", group, "\n"),
        17 => push_named(script, "get 1 P", group, "\n"),
        18 => push_named(script, "get 1 M", group, "\n"),
        _ => push_named(script, "pos 1 R", group, "\n"),
    }
}

const LONG_TEXT: &str =
    " 'a path that was corrected by hand, of the same many parts as the one that stood here before'\n";

// Adds a line of a word, numbers, and a rest.
fn push_at(
    script: &mut Vec<u8>,
    word: &str,
    numbers: &[u64],
    rest: &str,
) -> Result<(), AllocError> {
    push_text(script, word)?;
    push_numbers(script, numbers)?;
    push_text(script, rest)
}

// Adds a line with a keyword of seven digits.
fn push_named(
    script: &mut Vec<u8>,
    front: &str,
    number: u64,
    rest: &str,
) -> Result<(), AllocError> {
    push_text(script, front)?;
    let mut padded = Vec::new(*script.allocator());
    push_number(&mut padded, number.saturating_add(10_000_000))?;
    let (_, digits) = padded.split_at(2usize.min(padded.len()));
    script.extend_from_slice(digits)?;
    push_text(script, rest)
}
