//! Images whose pixels stand for other numbers than those that are stored.
use crate::files::headers_at;
use crate::subject::Subject;
use fits_card::{Card, CardList, Name};
use fits_rules::{card_denotes, image_bits, lead_card, shape};
use fits_value::scan_card;
use std::alloc::{AllocError, Global};
use std::fs::File;
use std::rt::Files;

const BSCALE: Name = Name(*b"BSCALE  ");

const BZERO: Name = Name(*b"BZERO   ");

/// The first words of lines whose numbers are values of pixels.
const PIXEL_VERBS: &[&str] = &["stat ", "rect ", "fill ", "write "];

/// Whether a script has a line with values of pixels.
pub fn has_pixel_line(script: &[u8]) -> bool {
    script.split(|byte| *byte == b'\n').any(is_pixel_line)
}

fn is_pixel_line(line: &[u8]) -> bool {
    PIXEL_VERBS
        .iter()
        .any(|verb| line.starts_with(verb.as_bytes()))
}

/// Tells of each image of integers in a regular file whose BSCALE and BZERO aren't applied.
pub fn tell_scaled<R: Files<File = File> + Eprint + AllocGlobal>(rt: &R, subject: Subject<'_>) {
    let Some(mut headers) = headers_at(rt, subject.name) else {
        return;
    };
    for index in 0..headers.len() {
        let Ok(scaling) = scaling_of(rt.alloc(), &mut headers[index], index == 0) else {
            return;
        };
        if !scaling.is_empty() {
            tell_scaling(rt, subject, index.saturating_add(1), scaling.as_str());
        }
    }
}

fn tell_scaling<R: Eprint>(rt: &R, subject: Subject<'_>, hdu: usize, scaling: &str) {
    let name = subject.name;
    let _ = if subject.named {
        eprintln!(rt; "fitsed: {name}: hdu {hdu}: stored numbers: {scaling}")
    } else {
        eprintln!(rt; "fitsed: hdu {hdu}: stored numbers: {scaling}")
    };
}

// What BSCALE and BZERO say that isn't applied, if they do.
fn scaling_of(alloc: Global, cards: &mut CardList, primary: bool) -> Result<String, AllocError> {
    let mut text = String::new(alloc);
    let Some(bits) = bits_of(alloc, cards, primary) else {
        return Ok(text);
    };
    let scale = lead_card(cards, &BSCALE);
    let zero = lead_card(cards, &BZERO);
    let is_plain = says_one_of(&scale, &[1]) & says_one_of(&zero, &[0, offset_of(bits)]);
    if is_plain {
        return Ok(text);
    }
    push_said(&mut text, "BSCALE", &scale)?;
    push_said(&mut text, "BZERO", &zero)?;
    Ok(text)
}

// How many bits a pixel has, where these are the cards of an image of integers.
fn bits_of(alloc: Global, cards: &mut CardList, primary: bool) -> Option<u64> {
    match shape(alloc, cards, primary) {
        Ok(shape) => image_bits(&shape),
        Err(_) => None,
    }
}

// The offset of unsigned integers, and of signed bytes (FITS Standard 4.0, section 5.2.5).
fn offset_of(bits: u64) -> i128 {
    match bits {
        8 => -128,
        16 => 32768,
        32 => 2_147_483_648,
        _ => 9_223_372_036_854_775_808,
    }
}

// Whether a card says one of these numbers, as one that isn't there does.
fn says_one_of(card: &Option<Card>, numbers: &[i128]) -> bool {
    match card {
        Some(card) => numbers.iter().any(|number| card_denotes(card, *number)),
        None => true,
    }
}

// Adds what a card says, where it is there and can be read.
fn push_said(text: &mut String, name: &str, card: &Option<Card>) -> Result<(), AllocError> {
    let Some(card) = card else {
        return Ok(());
    };
    let Some(reading) = scan_card(card) else {
        return Ok(());
    };
    if !text.is_empty() {
        text.push_str(", ")?;
    }
    text.push_str(name)?;
    text.push(' ')?;
    for byte in reading.value.part(card.bytes()) {
        text.push(char::from(*byte))?;
    }
    Ok(())
}
