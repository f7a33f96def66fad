//! Cards that denote a number exactly.
ghost use Rattle.std.specs.Prelude.{◌≡◌, ◌↔◌, IsTrue};
ghost use Rattle.fits_rules.specs.Denotes.{is_numeric, CardDenotes, card_says_number};

use fits_card::Card;
use fits_value::{ValueKind, denotes, scan_card};

// Whether values of this type are numbers.
fn is_numeric(kind: ValueKind) -> bool
    ensures { result ≡ is_numeric kind }
{
    matches!(kind, ValueKind::Integer | ValueKind::Real)
}

/// Whether the card reads as an integer or a real that denotes exactly this number.
pub fn card_denotes(card: &Card, number: i128) -> bool
    ensures value { result ≡ card_says_number card.now number }
    ensures exact { IsTrue result ↔ CardDenotes card.now number }
{
    match scan_card(card) {
        Some(reading) => {
            is_numeric(reading.kind) && denotes(reading.value.part(card.bytes()), number)
        }
        None => false,
    }
}
