//! A keyword under another name.
ghost use Rattle.std.specs.Prelude.{◌≡◌, ◌<◌, ◌≤◌, ◌∷◌, [], IfNone, Option, IfOk, IfSome, List, ℕ, None, Some, length};
ghost use Rattle.std.specs.Option.{option_copied};
ghost use Rattle.fits_session.specs.Away.{LieStill};
ghost use Rattle.fits_session.specs.Query.{card_in};
ghost use Rattle.fits_session.specs.Session.{absences_of, file_of, marked_of};
ghost use Rattle.fits_extended.specs.Stands.{as_one, lead_among, lead_in, lead_or, rename_line, renaming_by, stood, under_name};
ghost use Rattle.fits_extended.specs.Words.{new_name};

use crate::plain_text::{card_line, get_line, set_alone, with_number};
use crate::saying::places_of;
use crate::stands::Stands;
use crate::unmet::Unmet;
use crate::words::new_name;
use fits_card::{Card, Name};
use fits_script::padded_name;
use fits_session::{Holder, Session};
use std::alloc::{AllocError, Global};

/// `ren H NAME NEW`, by what follows NAME.
pub(crate) fn renaming<H: Holder + Drop>(
    alloc: Global,
    session: &mut Session<H>,
    hdu: usize,
    word: &[u8],
    rest: Option<&[u8]>,
) -> Result<Stands, AllocError>
    requires { length word.now ≤ 8 }
    ensures ok { IfOk result (λ it. (line : List ℕ) → stood line it ≡ as_one (renaming_by (file_of session.old)
        hdu word.now (option_copied rest.entry) (new_name (option_copied rest.entry)))) }
    ensures same { marked_of session.new ≡ marked_of session.old }
    ensures stays { LieStill session.old.hdus session.new.hdus }
    ensures absences { absences_of session.new.hdus ≡ absences_of session.old.hdus }
{
    match new_name(rest) {
        Some(new) => rename_line(alloc, session, hdu, word, new),
        None => Ok(Stands::Line(with_number(alloc, b"get", hdu, rest)?)),
    }
}

// The same to a new name.
fn rename_line<H: Holder + Drop>(
    alloc: Global,
    session: &mut Session<H>,
    hdu: usize,
    word: &[u8],
    new: &[u8],
) -> Result<Stands, AllocError>
    requires old { length word.now ≤ 8 }
    requires new { length new.now ≤ 8 }
    ensures ok { IfOk result (λ it. (line : List ℕ) → stood line it
        ≡ as_one (rename_line (file_of session.old) hdu word.now new.now)) }
    ensures same { marked_of session.new ≡ marked_of session.old }
    ensures stays { LieStill session.old.hdus session.new.hdus }
    ensures absences { absences_of session.new.hdus ≡ absences_of session.old.hdus }
{
    let name = padded_name(new);
    if !name.is_settable() {
        return Ok(Stands::Line(set_alone(alloc, hdu, new)?));
    }
    let Some((place, card)) = lead_of(alloc, session, hdu, &padded_name(word))? else {
        return Ok(Stands::Line(get_line(alloc, hdu, word)?));
    };
    match lead_of(alloc, session, hdu, &name)? {
        Some(_) => Ok(Stands::Unmet(Unmet::Exists)),
        None => {
            let card = under_name(&name, &card);
            Ok(Stands::Line(card_line(alloc, b"put", hdu, place, card.bytes())?))
        }
    }
}

// A card under another name.
fn under_name(name: &Name, card: &Card) -> Card
    ensures { result ≡ under_name name.now card.now }
{
    let mut bytes = card.0;
    let (front, _) = bytes.split_at_mut(8);
    front.copy_from_slice(&name.0);
    Card(bytes)
}

/// The place of the first card of a name that has a value, and that card.
pub(crate) fn lead_of<H: Holder + Drop>(
    alloc: Global,
    session: &mut Session<H>,
    hdu: usize,
    name: &Name,
) -> Result<Option<(usize, Card)>, AllocError>
    ensures ok { IfOk result (λ lead. lead ≡ lead_in (file_of session.old) hdu name.now) }
    ensures same { marked_of session.new ≡ marked_of session.old }
    ensures stays { LieStill session.old.hdus session.new.hdus }
    ensures absences { absences_of session.new.hdus ≡ absences_of session.old.hdus }
{
    let places = places_of(alloc, session, hdu, name)?;
    Ok(lead_among(session, hdu, &places))
}

// The first of these places whose card has a value, and that card.
fn lead_among<H: Holder + Drop>(
    session: &mut Session<H>,
    hdu: usize,
    places: &[usize],
) -> Option<(usize, Card)>
    ensures value { result ≡ lead_among (file_of session.old) hdu places.now }
    ensures same { marked_of session.new ≡ marked_of session.old }
    ensures stays { LieStill session.old.hdus session.new.hdus }
    ensures absences { absences_of session.new.hdus ≡ absences_of session.old.hdus }
{
    let mut rest = places;
    'places: while let Some((place, after)) = first_of(rest) {
        if let Some(card) = valued_card(session, hdu, place) {
            return Some((place, card));
        }
        rest = after;
    }
    None
}

// The first of these places, and the others.
fn first_of(places: &[usize]) -> Option<(usize, &[usize])>
    ensures some { IfSome result (λ cut. places.now ≡ cut.0 ∷ cut.1.now) }
    ensures shorter { IfSome result (λ cut. length cut.1.now < length places.now) }
    ensures none { IfNone result (places.now ≡ []) }
{
    match places {
        [place, others @ ..] => Some((*place, others)),
        [] => None,
    }
}

// The card at a place, if it has a value.
fn valued_card<H: Holder + Drop>(session: &mut Session<H>, hdu: usize, place: usize) -> Option<Card>
    ensures some { IfSome result (λ card. (others : Option (ℕ × List ℕ)) → lead_or place
        (card_in (file_of session.old) hdu place) others ≡ Some (place, card)) }
    ensures none { IfNone result ((others : Option (ℕ × List ℕ)) → lead_or place
        (card_in (file_of session.old) hdu place) others ≡ others) }
    ensures same { marked_of session.new ≡ marked_of session.old }
    ensures stays { LieStill session.old.hdus session.new.hdus }
    ensures absences { absences_of session.new.hdus ≡ absences_of session.old.hdus }
{
    match session.card(hdu, place) {
        Ok(card) if card.has_value() => Some(card),
        _ => None,
    }
}
