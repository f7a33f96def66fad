//! A card after the last one that isn't blank.
ghost use Rattle.std.specs.Prelude.{◌≡◌, ◌+◌, ◌<◌, ◌≤◌, ◌^◌, IfOk};
ghost use Rattle.std.specs.List.{list_all};
ghost use Rattle.std.specs.Option.{option_copied};
ghost use Rattle.fits_value.specs.Spelling.{is_space};
ghost use Rattle.fits_session.specs.Away.{LieStill};
ghost use Rattle.fits_session.specs.Query.{card_in};
ghost use Rattle.fits_session.specs.Session.{absences_of, file_of, marked_of};
ghost use Rattle.fits_script.specs.Words.{number_of_word};
ghost use Rattle.fits_extended.specs.Stands.{added_after, adding_by, is_blank_card, last_filled};
ghost use Rattle.fits_extended.specs.Words.{next_of};

use crate::plain_text::{card_line, with_verb};
use crate::words::{next_of, text_of};
use fits_script::number_of_word;
use fits_session::{Holder, Session};
use std::alloc::{AllocError, Global};

/// `add H CARD`, by what follows the verb.
pub(crate) fn add_line<H: Holder + Drop>(
    alloc: Global,
    session: &mut Session<H>,
    rest: Option<&[u8]>,
) -> Result<Vec<u8>, AllocError>
    ensures ok { IfOk result (λ line. line.items ≡ adding_by (file_of session.old)
        (option_copied rest.entry) (number_of_word (next_of (option_copied rest.entry)))) }
    ensures same { marked_of session.new ≡ marked_of session.old }
    ensures stays { LieStill session.old.hdus session.new.hdus }
    ensures absences { absences_of session.new.hdus ≡ absences_of session.old.hdus }
{
    let (word, more) = next_of(rest);
    let Some(hdu) = number_of_word(word) else {
        return with_verb(alloc, b"get", rest);
    };
    let card = text_of(more);
    let Ok(count) = session.card_count(hdu) else {
        return card_line(alloc, b"ins", hdu, 1, card);
    };
    let place = last_filled(session, hdu, count);
    added_after(alloc, hdu, card, count, place)
}

/// A card after a place, in that of a blank one where one of so many follows.
pub(crate) fn added_after(
    alloc: Global,
    hdu: usize,
    card: &[u8],
    count: usize,
    place: usize,
) -> Result<Vec<u8>, AllocError>
    requires { place + 1 < 2 ^ 64 }
    ensures { IfOk result (λ line. line.items ≡ added_after hdu card.now count place) }
{
    let verb: &[u8] = if place < count { b"put" } else { b"ins" };
    card_line(alloc, verb, hdu, place + 1, card)
}

/// The last place of an HDU, of so many, whose card isn't blank.
#[tactic(auto, unfolding(crate::specs::Stands::last_without))]
pub(crate) fn last_filled<H: Holder + Drop>(
    session: &mut Session<H>,
    hdu: usize,
    count: usize,
) -> usize
    ensures value { result ≡ last_filled (file_of session.old) hdu count }
    ensures within { result ≤ count }
    ensures same { marked_of session.new ≡ marked_of session.old }
    ensures stays { LieStill session.old.hdus session.new.hdus }
    ensures absences { absences_of session.new.hdus ≡ absences_of session.old.hdus }
{
    let mut place = count;
    'places: while place > 0 {
        if !is_blank_at(session, hdu, place) {
            return place;
        }
        place -= 1;
    }
    0
}

// Whether a card is there, and blank.
fn is_blank_at<H: Holder + Drop>(session: &mut Session<H>, hdu: usize, place: usize) -> bool
    ensures value { result ≡ is_blank_card (card_in (file_of session.old) hdu place) }
    ensures same { marked_of session.new ≡ marked_of session.old }
    ensures stays { LieStill session.old.hdus session.new.hdus }
    ensures absences { absences_of session.new.hdus ≡ absences_of session.old.hdus }
{
    match session.card(hdu, place) {
        Ok(card) => are_spaces(card.bytes()),
        Err(_) => false,
    }
}

// Whether each byte is a space.
fn are_spaces(text: &[u8]) -> bool
    ensures { result ≡ list_all is_space text.now }
{
    text.iter().all(|byte| *byte == b' ')
}
