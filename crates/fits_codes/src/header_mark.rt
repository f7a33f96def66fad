ghost use Rattle.std.specs.Prelude.{◌≡◌};
ghost use Rattle.fits_codes.specs.HeaderCodes.{says_false};

use fits_card::Card;
use fits_rules::IntegerSaid;
use fits_value::{ValueKind, scan_card};

/// What a header says as a whole, as far as the rules ask.
#[derive(Clone, Copy)]
pub struct HeaderMark {
    /// Whether END has spaces alone after its name (FITS Standard 4.0, section 4.4.1).
    pub end_blank: bool,
    /// Whether the fill is spaces (3.3.1).
    pub fill_blank: bool,
    /// Whether PCOUNT and GCOUNT follow the axes (4.4.1.2).
    pub counts_in_place: bool,
    /// Whether a card has the name that begins the other kind of HDU.
    pub has_other_first: bool,
    /// Whether the first card says F (4.4.1.1).
    pub begins_false: bool,
    /// What the first BLANK with a value says (4.4.2.5).
    pub blank: Option<IntegerSaid>,
}

/// Whether a card says F (FITS Standard 4.0, section 4.2.2).
pub fn says_false(card: &Card) -> bool
    ensures { result ≡ says_false card.now }
{
    if !card.has_value() {
        return false;
    }
    let Some(reading) = scan_card(card) else {
        return false;
    };
    let ValueKind::Logical = reading.kind else {
        return false;
    };
    reading.value.part(card.bytes()) != b"T".as_slice()
}
