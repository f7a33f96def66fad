ghost use Rattle.std.specs.Prelude.{◌≡◌, is_some};
ghost use Rattle.fits_value.specs.Says.{card_string, link_string};
ghost use Rattle.fits_rules.specs.Reads.{string_said};
ghost use Rattle.fits_codes.specs.Mark.{mark_of};

use crate::alone::codes_alone;
use crate::code_set::CodeSet;
use crate::said::Said;
use fits_card::{Card, Name};
use fits_value::{ValueKind, is_continue};

/// What a card says alone, as far as the rules over several cards ask.
///
/// The codes of a card are a function of its mark and of where it stands: no card is read again.
#[derive(Clone, Copy)]
pub struct Mark {
    pub name: Name,
    pub has_value: bool,
    /// Whether it is a proper CONTINUE card (FITS Standard 4.0, section 4.2.1.2).
    pub continues: bool,
    /// Whether it has a value that is a string.
    pub begins: bool,
    /// Whether its string ends in an ampersand.
    pub is_open: bool,
    /// The type of its value, where that stands in fixed format (4.2).
    pub fixed: Option<ValueKind>,
    /// The codes that it has whatever stands round it.
    pub alone: CodeSet,
}

/// The mark of a card. It takes no memory.
#[tactic(auto, unfolding(crate::specs::Mark::mark_of))]
pub fn mark_of(card: &Card) -> Mark
    ensures { result ≡ mark_of card.now }
{
    let said = Said::of(card);
    Mark {
        name: card.name(),
        has_value: card.has_value(),
        continues: continues(card, said.is_string),
        begins: begins(card, said.is_string),
        is_open: said.is_open,
        fixed: said.fixed,
        alone: codes_alone(card, said.kind),
    }
}

// Whether a card that says a string or none is a proper CONTINUE card.
#[tactic(auto, unfolding(fits_value::specs::Says::link_string))]
fn continues(card: &Card, says_string: bool) -> bool
    requires { says_string ≡ is_some (card_string card.now) }
    ensures { result ≡ is_some (link_string card.now) }
{
    is_continue(card) && says_string
}

// Whether a card that says a string or none has a value that is one.
fn begins(card: &Card, says_string: bool) -> bool
    requires { says_string ≡ is_some (card_string card.now) }
    ensures { result ≡ is_some (string_said card.now) }
{
    card.has_value() && says_string
}
