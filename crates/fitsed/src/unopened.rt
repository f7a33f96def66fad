//! A second look at a file that doesn't open.
use crate::files::headers_at;
use fits_card::CardList;
use fits_rules::{IntegerSaid, data_bytes, integer_said, shape};
use fits_session::OpenFault;
use fits_value::trimmed_len;
use std::alloc::{AllocError, Global};
use std::fs;
use std::fs::File;
use std::rt::Files;

/// How many bytes a card and a block have (FITS Standard 4.0, sections 3.3.1 and 4.1.1).
const CARD_LEN: u64 = 80;

const BLOCK_LEN: u64 = 2880;

/// The bytes of a file, from 0, at which an HDU begins, its data begin, and it ends as its header
/// says.
#[derive(Clone, Copy)]
struct Extent {
    begin: u64,
    data: u64,
    end: u64,
}

/// Tells what was wanted where a regular file doesn't open, and what is there.
pub fn explain_unopened<R: Files<File = File> + Eprint + AllocGlobal>(
    rt: &R,
    path: &str,
    why: OpenFault,
) {
    let (Some(mut headers), Ok(about)) = (headers_at(rt, path), fs::metadata(rt, path)) else {
        return;
    };
    let extent = last_extent(rt.alloc(), &mut headers);
    match why {
        OpenFault::NoEnd { hdu } => {
            let there = about.len().saturating_sub(extent.begin);
            let _ = eprintln!(rt;
                "fitsed: {path}: hdu {hdu}: no END in the {there} bytes from byte {} on",
                extent.begin
            );
        }
        OpenFault::ShortData { hdu } => {
            let described = extent.end.saturating_sub(extent.data);
            let there = about.len().saturating_sub(extent.data);
            let _ = eprintln!(rt;
                "fitsed: {path}: hdu {hdu}: {described} bytes described, {there} there"
            );
        }
        OpenFault::BadShape { hdu, card } => {
            if let Some(cards) = headers.last_mut() {
                tell_bad_shape(rt, path, hdu, card, cards);
            }
        }
        _ => {}
    }
}

// Where the last of these HDUs stands.
fn last_extent(alloc: Global, headers: &mut [CardList]) -> Extent {
    let mut extent = Extent {
        begin: 0,
        data: 0,
        end: 0,
    };
    for index in 0..headers.len() {
        let cards = &mut headers[index];
        let data = extent.end.saturating_add(header_len(cards));
        extent = Extent {
            begin: extent.end,
            data,
            end: data.saturating_add(unit_len(alloc, cards, index == 0)),
        };
    }
    extent
}

// How many bytes a header has, with END and its fill.
fn header_len(cards: &CardList) -> u64 {
    let cards = (cards.len() as u64).saturating_add(1);
    in_blocks(cards.saturating_mul(CARD_LEN))
}

// How many bytes a header describes, in whole blocks; none where it describes none.
fn unit_len(alloc: Global, cards: &mut CardList, primary: bool) -> u64 {
    let Ok(shape) = shape(alloc, cards, primary) else {
        return 0;
    };
    in_blocks(data_bytes(&shape).unwrap_or(u64::MAX))
}

// As many bytes as whole blocks have that hold these.
fn in_blocks(bytes: u64) -> u64 {
    bytes.div_ceil(BLOCK_LEN).saturating_mul(BLOCK_LEN)
}

// Tells which card was wanted at a place, and which stands there.
fn tell_bad_shape<R: Eprint + AllocGlobal>(
    rt: &R,
    path: &str,
    hdu: usize,
    place: usize,
    cards: &mut CardList,
) {
    let (Ok(wanted), Ok(there)) = (
        wanted_at(rt.alloc(), cards, hdu == 1, place),
        shown_at(rt.alloc(), cards, place),
    ) else {
        return;
    };
    let _ = eprintln!(rt;
        "fitsed: {path}: hdu {hdu} card {place}: {wanted} is wanted, there is {there}"
    );
}

// The keyword that is wanted at a place.
fn wanted_at(
    alloc: Global,
    cards: &mut CardList,
    primary: bool,
    place: usize,
) -> Result<String, AllocError> {
    let name = match place {
        1 if primary => "SIMPLE",
        1 => "XTENSION",
        2 => "BITPIX",
        3 => "NAXIS",
        _ if has_axis(cards, place) => return format!(in alloc; "NAXIS{}", place.saturating_sub(3)),
        _ if stands_at(cards, place, b"GCOUNT  ") => "GCOUNT",
        _ => "PCOUNT",
    };
    String::from_str(alloc, name)
}

// Whether NAXIS counts the axis of a place.
fn has_axis(cards: &mut CardList, place: usize) -> bool {
    if cards.len() < 3 {
        return false;
    }
    match integer_said(&cards.card(3)) {
        IntegerSaid::Number(count) => place as i128 <= i128::from(count).saturating_add(3),
        _ => false,
    }
}

// Whether a card of this name stands at a place.
fn stands_at(cards: &mut CardList, place: usize, name: &[u8; 8]) -> bool {
    if place == 0 || place > cards.len() {
        return false;
    }
    cards.card(place).name().is(name)
}

// The card at a place, as text.
fn shown_at(alloc: Global, cards: &mut CardList, place: usize) -> Result<String, AllocError> {
    let mut text = String::new(alloc);
    if place == 0 || place > cards.len() {
        text.push_str("END")?;
        return Ok(text);
    }
    let card = cards.card(place);
    let (front, _) = card.bytes().split_at(trimmed_len(card.bytes()));
    for byte in front {
        text.push(shown(*byte))?;
    }
    Ok(text)
}

// A byte of a card as it is shown.
fn shown(byte: u8) -> char {
    match byte {
        b' '..=b'~' => char::from(byte),
        _ => '?',
    }
}
