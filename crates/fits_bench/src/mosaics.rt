//! Mosaics: what came in at night is checked, and headers are corrected by a script.

use crate::digest::Digest;
use crate::files::push_mosaic;
use crate::memory::Stored;
use crate::noise::Noise;
use crate::runs::{ERRORS, Outcome, REPORT};
use crate::text::{push_number, push_text};
use fits_cli::Telling;
use std::alloc::{AllocError, Global};
use std::io;
use std::io::Write;

/// Sizes of mosaics that come in: how many extensions, and how many cards each has beside those
/// that describe it.
const INCOMING: &[(u64, usize)] = &[(60, 60), (120, 24), (24, 190), (250, 40), (62, 110)];

/// What is asked of them.
const TELLINGS: &[Telling] = &[REPORT, Telling::Sums, ERRORS, Telling::List];

/// Sizes of mosaics that are corrected.
const CORRECTED: &[(u64, usize)] = &[(60, 80), (120, 50), (30, 150)];

/// Files are verified, summed or listed.
pub fn check_incoming(alloc: Global, rounds: usize, noise: &mut Noise) -> io::Result<Outcome> {
    let mut outcome = Outcome::new();
    let mut file = Vec::new(alloc);
    for round in 0..rounds {
        let (extensions, cards) = INCOMING[round % 5];
        file.clear();
        push_mosaic(alloc, &mut file, extensions, cards, noise)?;
        outcome.tell(alloc, TELLINGS[round % 4], Stored(&file))?;
    }
    Ok(outcome)
}

/// Headers are corrected, stamped and saved, and what was saved is verified.
pub fn correct_mosaics(alloc: Global, rounds: usize, noise: &mut Noise) -> io::Result<Outcome> {
    let mut outcome = Outcome::new();
    let mut file = Vec::new(alloc);
    for round in 0..rounds {
        let (extensions, cards) = CORRECTED[round % 3];
        file.clear();
        push_mosaic(alloc, &mut file, extensions, cards, noise)?;
        let script = corrections(alloc, extensions, noise)?;
        let saved = outcome.edit_to(alloc, Stored(&file), &script, Vec::new(alloc))?;
        let mut digest = Digest::new();
        digest.write_all(&saved)?;
        outcome.add(&digest);
        outcome.tell(alloc, REPORT, Stored(&saved))?;
    }
    Ok(outcome)
}

// A script that sets a keyword or two of each HDU, stamps it, and asks for a report.
fn corrections(alloc: Global, extensions: u64, noise: &mut Noise) -> Result<Vec<u8>, AllocError> {
    let mut script = Vec::new(alloc);
    for h in 1..=extensions.saturating_add(1) {
        push_text(&mut script, "set")?;
        push_number(&mut script, h)?;
        push_text(&mut script, " EXPTIME")?;
        push_number(&mut script, noise.within(100, 999))?;
        push_text(&mut script, ".5 / corrected, seconds\n")?;
        if h % 2 == 0 {
            push_text(&mut script, "set")?;
            push_number(&mut script, h)?;
            push_text(&mut script, " PHOTFLAG T / photometric\n")?;
        }
        push_text(&mut script, "stamp")?;
        push_number(&mut script, h)?;
        push_text(&mut script, "\n")?;
    }
    push_text(&mut script, "rep\n")?;
    Ok(script)
}
