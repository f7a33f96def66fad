ghost use Rattle.std.specs.Prelude.{◌≡◌, ◌≤◌, false, is_some, length};
ghost use Rattle.std.specs.Option.{option_map, option_map_or};
ghost use Rattle.fits_value.specs.Field.{ReadsAs, part};
ghost use Rattle.fits_value.specs.Says.{card_string, ends_in_ampersand};
ghost use Rattle.fits_codes.specs.Alone.{kind_said};
ghost use Rattle.fits_codes.specs.Fixed.{fixed_said};

use crate::fixed::fixed_by;
use fits_card::Card;
use fits_value::{Reading, ValueKind, is_open_string, scan_card};

/// What one reading of a card tells the rules.
#[derive(Clone, Copy)]
pub(crate) struct Said {
    /// The type of its value (FITS Standard 4.0, section 4.2).
    pub(crate) kind: Option<ValueKind>,
    /// The same type, where the value stands in fixed format.
    pub(crate) fixed: Option<ValueKind>,
    /// Whether its text is a string, whatever its name.
    pub(crate) is_string: bool,
    /// Whether that string ends in an ampersand (4.2.1.2).
    pub(crate) is_open: bool,
}

// What is said by a card that can't be read.
const NOTHING: Said = Said {
    kind: None,
    fixed: None,
    is_string: false,
    is_open: false,
};

impl Said {
    /// Reads a card, once.
    pub(crate) fn of(card: &Card) -> Said
        ensures kind { result.kind ≡ kind_said card.now }
        ensures fixed { result.fixed ≡ fixed_said card.now }
        ensures is_string { result.is_string ≡ is_some (card_string card.now) }
        ensures is_open { result.is_open
            ≡ option_map_or ends_in_ampersand (card_string card.now) false }
    {
        let Some(reading) = scan_card(card) else {
            return NOTHING;
        };
        let is_string = is_string(card, &reading);
        let is_open = is_open(card, &reading);
        if card.has_value() {
            Said {
                kind: Some(reading.kind),
                fixed: fixed_by(&reading),
                is_string,
                is_open,
            }
        } else {
            Said {
                kind: None,
                fixed: None,
                is_string,
                is_open,
            }
        }
    }
}

// Whether a card that is read so says a string.
fn is_string(card: &Card, reading: &Reading) -> bool
    requires { ReadsAs card.now reading.now.kind (part card.now reading.now.value)
        (option_map (part card.now) reading.now.comment) }
    ensures { result ≡ is_some (card_string card.now) }
{
    match reading.kind {
        ValueKind::Str => true,
        _ => false,
    }
}

// Whether a card that is read so says a string that ends in an ampersand.
fn is_open(card: &Card, reading: &Reading) -> bool
    requires read { ReadsAs card.now reading.now.kind (part card.now reading.now.value)
        (option_map (part card.now) reading.now.comment) }
    requires order { reading.now.value.start ≤ reading.now.value.end }
    requires within { reading.now.value.end ≤ length card.now }
    ensures { result ≡ option_map_or ends_in_ampersand (card_string card.now) false }
{
    let ValueKind::Str = reading.kind else {
        return false;
    };
    is_open_string(reading.value.part(card.bytes()))
}
