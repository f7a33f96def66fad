//! HISTORY cards after the last card that isn't blank.
ghost use Rattle.std.specs.Prelude.{◌≡◌, ◌+◌, ◌<◌, ◌≤◌, ◌^◌, ◌∷◌, ◌++◌, [], codes, IfOk, OnOk, drop, length, take};
ghost use Rattle.std.specs.Option.{option_copied};
ghost use Rattle.fits_session.specs.Away.{LieStill};
ghost use Rattle.fits_session.specs.Session.{absences_of, file_of, marked_of};
ghost use Rattle.fits_script.specs.Words.{number_of_word};
ghost use Rattle.fits_extended.specs.Stands.{added_after, history_after, history_by, last_gap, lines_in, piece_end, piece_len, pieces};
ghost use Rattle.fits_extended.specs.Words.{next_of};

use crate::adding::{added_after, last_filled};
use crate::plain_text::{card_line, with_verb};
use crate::words::{next_of, text_of};
use fits_script::number_of_word;
use fits_session::{Holder, Session};
use fits_tell::push_both;
use std::alloc::{AllocError, Global};

/// How many bytes of text a HISTORY card has room for (FITS Standard 4.0, section 4.4.2.4).
const TEXT_LEN: usize = 72;

/// `hist H TEXT`, by what follows the verb.
pub(crate) fn history_lines<H: Holder + Drop>(
    alloc: Global,
    session: &mut Session<H>,
    rest: Option<&[u8]>,
) -> Result<Vec<Vec<u8>>, AllocError>
    ensures ok { IfOk result (λ lines. lines_in lines.items ≡ history_by (file_of session.old)
        (option_copied rest.entry) (number_of_word (next_of (option_copied rest.entry)))) }
    ensures same { marked_of session.new ≡ marked_of session.old }
    ensures stays { LieStill session.old.hdus session.new.hdus }
    ensures absences { absences_of session.new.hdus ≡ absences_of session.old.hdus }
{
    let (word, more) = next_of(rest);
    let Some(hdu) = number_of_word(word) else {
        return one(alloc, with_verb(alloc, b"get", rest)?);
    };
    let Ok(count) = session.card_count(hdu) else {
        return one(alloc, card_line(alloc, b"ins", hdu, 1, b"HISTORY ")?);
    };
    let place = last_filled(session, hdu, count);
    history_after(alloc, hdu, count, place, text_of(more))
}

// A line alone.
fn one(alloc: Global, line: Vec<u8>) -> Result<Vec<Vec<u8>>, AllocError>
    ensures { IfOk result (λ lines. lines_in lines.items ≡ line.items ∷ []) }
{
    let mut lines = Vec::new(alloc);
    lines.push(line)?;
    Ok(lines)
}

// A HISTORY card for each piece of a text, one after another after this place.
fn history_after(
    alloc: Global,
    hdu: usize,
    count: usize,
    filled: usize,
    text: &[u8],
) -> Result<Vec<Vec<u8>>, AllocError>
    requires within { filled ≤ count }
    requires few { count < 2 ^ 63 }
    ensures { IfOk result (λ lines. lines_in lines.items
        ≡ history_after hdu count filled (pieces (length text.now) text.now)) }
{
    let mut lines = Vec::new(alloc);
    let mut place = filled;
    let mut rest = text;
    'pieces: while rest.len() > TEXT_LEN {
        let (piece, after) = cut_piece(rest);
        push_history(&mut lines, alloc, hdu, count, place, piece)?;
        if after.is_empty() {
            return Ok(lines);
        }
        place += 1;
        rest = after;
    }
    push_history(&mut lines, alloc, hdu, count, place, rest)?;
    Ok(lines)
}

// Adds the line of a card with this text.
fn push_history(
    lines: &mut Vec<Vec<u8>>,
    alloc: Global,
    hdu: usize,
    count: usize,
    place: usize,
    piece: &[u8],
) -> Result<(), AllocError>
    requires { place + 1 < 2 ^ 64 }
    ensures { OnOk result (lines_in lines.new.items
        ≡ lines_in lines.old.items ++ (added_after hdu (codes "HISTORY " ++ piece.now) count place ∷ [])) }
{
    let mut card = Vec::new(alloc);
    push_both(&mut card, b"HISTORY ", piece)?;
    lines.push(added_after(alloc, hdu, &card, count, place)?)?;
    Ok(())
}

// A piece of a text that is longer, and what is left of it.
fn cut_piece(text: &[u8]) -> (&[u8], &[u8])
    requires { 72 < length text.now }
    ensures piece { result.0.now ≡ take (piece_len (last_gap text.now 72)) text.now }
    ensures after { result.1.now ≡ drop (piece_end (last_gap text.now 72)) text.now }
    ensures shorter { length result.1.now < length text.now }
{
    let gap = last_gap(text, TEXT_LEN);
    let (piece, _) = text.split_at(if gap == 0 { TEXT_LEN } else { gap });
    let (_, after) = text.split_at(if gap == 0 { TEXT_LEN } else { gap + 1 });
    (piece, after)
}

// Where a text may be cut: the last of so many bytes after its first that is a space, or 0.
#[tactic(auto, unfolding(crate::specs::Stands::last_without))]
fn last_gap(text: &[u8], count: usize) -> usize
    requires { count < length text.now }
    ensures value { result ≡ last_gap text.now count }
    ensures within { result ≤ count }
{
    let mut place = count;
    'places: while place > 0 {
        if text[place] == b' ' {
            return place;
        }
        place -= 1;
    }
    0
}
