//! How many columns a table has.
ghost use Rattle.std.specs.Prelude.{◌≡◌, ◌≤◌, ◌<◌, IfSome};
ghost use Rattle.fits_table.specs.Fields.{fields_in, fields_of};

use crate::header_cards::HeaderCards;
use fits_card::Card;
use fits_rules::{IntegerSaid, integer_said};

/// The most columns that a table may have (FITS Standard 4.0, sections 7.2.1 and 7.3.1).
const MOST_FIELDS: i64 = 999;

/// The columns that a card says, if it is named TFIELDS.
#[tactic(auto, using(crate::proofs::FieldsLemmas::fields_steps))]
pub(crate) fn fields_in(card: &Card) -> Option<u64>
    ensures value { result ≡ fields_in card.now }
    ensures within { IfSome result (λ fields. fields ≤ 999) }
{
    if !card.name().is(b"TFIELDS ") {
        return None;
    }
    match integer_said(card) {
        IntegerSaid::Number(number) if 0 <= number && number <= MOST_FIELDS => Some(number as u64),
        _ => None,
    }
}

/// The columns that the card right after GCOUNT says, in a header with so many axes.
#[tactic(auto, using(crate::proofs::FieldsLemmas::place_steps))]
pub(crate) fn fields_of<H: HeaderCards>(cards: &mut H, axes: usize) -> Option<u64>
    requires { axes < 1000 }
    ensures value { result ≡ fields_of (H.cards cards.old) axes }
    ensures within { IfSome result (λ fields. fields ≤ 999) }
    ensures same { H.cards cards.new ≡ H.cards cards.old }
{
    if cards.count() < 6 + axes {
        return None;
    }
    fields_in(&cards.card_at(6 + axes))
}
