//! Cards, headers and files, built of texts.

use fits_card::{
    BLOCK_LEN, CARD_LEN, Card, CardList, Cards, Change, HeaderFault, Name, cut_header,
};
use std::alloc::{AllocError, Global};

/// An HDU: its cards, END among them, separated by `|`, and how many blocks of data it has.
pub type HduText<'a> = (&'a str, usize);

/// A file: its HDUs, and the bytes after the last.
pub type FileText<'a> = (&'a [HduText<'a>], &'a str);

/// A primary header of three cards, and nothing else.
pub const P0: &str =
    "SIMPLE  =                    T|BITPIX  =                    8|NAXIS   =                    0|END";

/// An image extension of one pixel of 16 bits.
pub const PIXEL: &str =
    "XTENSION= 'IMAGE   '|BITPIX  =                   16|NAXIS   =                    1|\
    NAXIS1  =                    1|PCOUNT  =                    0|GCOUNT  =                    1|END";

/// Thirty-two cards.
pub const COMMENTS: &str = "COMMENT|COMMENT|COMMENT|COMMENT|COMMENT|COMMENT|COMMENT|COMMENT|\
    COMMENT|COMMENT|COMMENT|COMMENT|COMMENT|COMMENT|COMMENT|COMMENT|\
    COMMENT|COMMENT|COMMENT|COMMENT|COMMENT|COMMENT|COMMENT|COMMENT|\
    COMMENT|COMMENT|COMMENT|COMMENT|COMMENT|COMMENT|COMMENT|COMMENT";

/// The card that begins with at most 80 bytes.
pub fn card_of_bytes(bytes: &[u8]) -> Card {
    if bytes.len() <= CARD_LEN {
        Card::padded(bytes)
    } else {
        Card([b'~'; CARD_LEN])
    }
}

/// The card that begins with a text of at most 80 bytes.
pub fn card_of(text: &str) -> Card {
    card_of_bytes(text.as_bytes())
}

/// The name that begins with a text of at most 8 bytes.
pub fn name_of(text: &str) -> Name {
    card_of(text).name()
}

/// Adds this byte up to a multiple of so many.
pub fn fill_up(bytes: &mut Vec<u8>, unit: usize, fill: u8) -> Result<(), AllocError> {
    for _ in 0..unit {
        if unit == 0 || bytes.len() % unit == 0 {
            break;
        }
        bytes.push(fill)?;
    }
    Ok(())
}

/// Adds cards, each with spaces to its end. A text of one space is a card of spaces.
pub fn add_cards(bytes: &mut Vec<u8>, cards: &str) -> Result<(), AllocError> {
    for byte in cards.as_bytes() {
        if *byte == b'|' {
            fill_up(bytes, CARD_LEN, b' ')?;
        } else {
            bytes.push(*byte)?;
        }
    }
    fill_up(bytes, CARD_LEN, b' ')
}

/// Adds the spaces after the cards of a header.
pub fn end_header(bytes: &mut Vec<u8>) -> Result<(), AllocError> {
    fill_up(bytes, BLOCK_LEN, b' ')
}

// Adds an HDU. No byte of its data is as the one before.
fn add_hdu(bytes: &mut Vec<u8>, hdu: HduText<'_>) -> Result<(), AllocError> {
    let (cards, blocks) = hdu;
    add_cards(bytes, cards)?;
    end_header(bytes)?;
    for _ in 0..blocks {
        for place in 0..BLOCK_LEN {
            bytes.push((place % 251) as u8)?;
        }
    }
    Ok(())
}

/// The bytes of a file.
pub fn file_of(alloc: Global, file: FileText<'_>) -> Result<Vec<u8>, AllocError> {
    let (hdus, tail) = file;
    let mut bytes = Vec::new(alloc);
    for hdu in hdus {
        add_hdu(&mut bytes, *hdu)?;
    }
    bytes.extend_from_slice(tail.as_bytes())?;
    Ok(bytes)
}

/// The bytes of a file whose data are zeros.
pub fn zeroed_file_of(alloc: Global, file: FileText<'_>) -> Result<Vec<u8>, AllocError> {
    let (hdus, tail) = file;
    let mut bytes = Vec::new(alloc);
    for (cards, blocks) in hdus {
        add_hdu(&mut bytes, (*cards, 0))?;
        for _ in 0..*blocks {
            for _ in 0..BLOCK_LEN {
                bytes.push(0)?;
            }
        }
    }
    bytes.extend_from_slice(tail.as_bytes())?;
    Ok(bytes)
}

/// The bytes of one HDU.
pub fn hdu_of(alloc: Global, cards: &str, blocks: usize) -> Result<Vec<u8>, AllocError> {
    let mut bytes = Vec::new(alloc);
    add_hdu(&mut bytes, (cards, blocks))?;
    Ok(bytes)
}

/// The header of these cards.
pub fn header_of(alloc: Global, cards: &str) -> Result<CardList, HeaderFault> {
    let bytes = hdu_of(alloc, cards, 0)?;
    let (header, _) = cut_header(alloc, &bytes)?;
    Ok(header)
}

/// A change of a header, its new cards separated by `|`.
#[derive(Clone, Copy)]
pub enum ChangeText<'a> {
    Splice(usize, usize, &'a str),
    Move(usize, usize),
}

/// The change that a text describes.
pub fn change_of(alloc: Global, change: ChangeText<'_>) -> Result<Change, AllocError> {
    match change {
        ChangeText::Splice(place, removed, texts) => Ok(Change::Splice {
            place,
            removed,
            cards: cards_of(alloc, texts)?,
        }),
        ChangeText::Move(from, to) => Ok(Change::Move { from, to }),
    }
}

// The cards of these texts. An empty text has none.
fn cards_of(alloc: Global, texts: &str) -> Result<Cards, AllocError> {
    let mut cards = Vec::new(alloc);
    if !texts.is_empty() {
        for text in texts.split('|') {
            cards.push(card_of(text))?;
        }
    }
    Ok(Cards::new(cards))
}

/// The bytes of a data unit, with the fill. No byte of data is as the one before.
pub fn unit_of(alloc: Global, used: usize, filling: u8) -> Result<Vec<u8>, AllocError> {
    let mut bytes = Vec::new(alloc);
    for place in 0..used {
        bytes.push((place % 251) as u8)?;
    }
    fill_up(&mut bytes, BLOCK_LEN, filling)?;
    Ok(bytes)
}

/// Puts a byte at a place, and gives the one that stood there.
pub fn change(bytes: &mut [u8], place: usize, byte: u8) -> u8 {
    match bytes.get_mut(place) {
        Some(here) => {
            let before = *here;
            *here = byte;
            before
        }
        None => 0,
    }
}
