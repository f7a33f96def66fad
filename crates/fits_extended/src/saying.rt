//! What keywords of a file say, with memory's refusal apart.
ghost use Rattle.std.specs.Prelude.{◌≡◌, IfOk};
ghost use Rattle.fits_session.specs.Away.{LieStill};
ghost use Rattle.fits_session.specs.Query.{positions_in, value_in};
ghost use Rattle.fits_session.specs.Session.{absences_of, file_of, marked_of};
ghost use Rattle.fits_extended.specs.Saying.{settled};
ghost use Rattle.fits_extended.specs.Stands.{has_cards_in, or_none};

use fits_card::Name;
use fits_session::{Holder, Refusal, Session};
use fits_value::{Text, Value};
use std::alloc::{AllocError, Global};

/// The value and the comment of a keyword, or why there are none.
pub(crate) type Said = Result<(Value, Option<Text>), Refusal>;

// What is answered, unless that memory was refused.
fn settled<T: Drop>(answer: Result<T, Refusal>) -> Result<Result<T, Refusal>, AllocError>
    ensures { result ≡ settled answer }
{
    match answer {
        Ok(said) => Ok(Ok(said)),
        Err(Refusal::Memory) => Err(AllocError),
        Err(why) => Ok(Err(why)),
    }
}

/// What a keyword of HDU h says.
pub(crate) fn said_of<H: Holder + Drop>(
    session: &mut Session<H>,
    hdu: usize,
    name: &Name,
) -> Result<Said, AllocError>
    ensures ok { IfOk result (λ said. value_in (file_of session.old) hdu name.now ≡ said) }
    ensures same { marked_of session.new ≡ marked_of session.old }
    ensures stays { LieStill session.old.hdus session.new.hdus }
    ensures absences { absences_of session.new.hdus ≡ absences_of session.old.hdus }
{
    settled(session.value(hdu, name))
}

/// Whether a name has cards in HDU h.
pub(crate) fn has_cards<H: Holder + Drop>(
    session: &Session<H>,
    hdu: usize,
    name: &Name,
) -> Result<Result<bool, Refusal>, AllocError>
    ensures { IfOk result (λ found. has_cards_in (file_of session.now) hdu name.now ≡ found) }
{
    match session.positions(hdu, name) {
        Ok(places) => Ok(Ok(!places.is_empty())),
        Err(why) => settled(Err(why)),
    }
}

/// The places of the cards of a name in HDU h, or none where they are refused.
pub(crate) fn places_of<H: Holder + Drop>(
    alloc: Global,
    session: &Session<H>,
    hdu: usize,
    name: &Name,
) -> Result<Vec<usize>, AllocError>
    ensures { IfOk result (λ places. places.items
        ≡ or_none (positions_in (file_of session.now) hdu name.now)) }
{
    match session.positions(hdu, name) {
        Ok(places) => Ok(places),
        Err(why) => {
            let _refused: Result<bool, Refusal> = settled(Err(why))?;
            Ok(Vec::new(alloc))
        }
    }
}
