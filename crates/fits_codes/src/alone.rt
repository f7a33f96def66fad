//! What is wrong with a card alone, whatever stands round it.
ghost use Rattle.std.specs.Prelude.{◌≡◌, false};
ghost use Rattle.std.specs.Option.{option_map_or};
ghost use Rattle.fits_codes.specs.Alone.{kind_said, has_unreadable_value, is_undefined, has_wrong_type, lacks_space, has_bad_date, has_deprecated_keyword, codes_alone};

use crate::code::Code;
use crate::code_set::CodeSet;
use crate::dates::{is_date, is_judged};
use crate::keywords::{COMMENTARY, DATE, DEPRECATED, is_one_of, keyword_type, suits};
use fits_card::Card;
use fits_value::{ValueKind, card_string};

// Whether the value is there, and none at all.
fn is_undefined(kind: Option<ValueKind>) -> bool
    ensures { result ≡ option_map_or is_undefined kind false }
{
    match kind {
        Some(ValueKind::Undefined) => true,
        _ => false,
    }
}

// Whether the card has a value field, and no value of any type that can be read.
fn has_unreadable_value(card: &Card, kind: Option<ValueKind>) -> bool
    requires { kind ≡ kind_said card.now }
    ensures { result ≡ has_unreadable_value card.now }
{
    kind.is_none() && card.has_value() && card.is_text()
}

// Whether the value is there, and has another type than the standard gives the keyword.
fn has_wrong_type(card: &Card, kind: Option<ValueKind>) -> bool
    requires { kind ≡ kind_said card.now }
    ensures { result ≡ has_wrong_type card.now }
{
    let Some(kind) = kind else {
        return false;
    };
    match keyword_type(&card.name()) {
        Some(wanted) => !suits(wanted, kind),
        None => false,
    }
}

// Byte 9 is an equals sign and byte 10 no space, and the card isn't commentary.
fn lacks_space(card: &Card) -> bool
    ensures { result ≡ lacks_space card.now }
{
    card.0[8] == b'=' && card.0[9] != b' ' && !is_one_of(&COMMENTARY, &card.name())
}

// A string that is looked at for a date, and is none.
#[tactic(auto, unfolding(fits_rules::specs::Reads::string_said))]
fn has_bad_date(card: &Card) -> bool
    ensures { result ≡ has_bad_date card.now }
{
    if !is_one_of(&DATE, &card.name()) || !card.has_value() {
        return false;
    }
    match card_string(card) {
        Some(text) => is_judged(text.as_bytes()) && !is_date(text.as_bytes()),
        None => false,
    }
}

// Whether the keyword is deprecated, and has a value.
fn has_deprecated_keyword(card: &Card) -> bool
    ensures { result ≡ has_deprecated_keyword card.now }
{
    is_one_of(&DEPRECATED, &card.name()) && card.has_value()
}

/// The codes that a card alone has, whose value has this type.
pub(crate) fn codes_alone(card: &Card, kind: Option<ValueKind>) -> CodeSet
    requires { kind ≡ kind_said card.now }
    ensures { result ≡ codes_alone card.now }
{
    let mut found = CodeSet::new();
    found.push_where(Code::NotText, !card.is_text());
    found.push_where(Code::BadName, !card.name().is_spelled());
    found.push_where(Code::UnreadableValue, has_unreadable_value(card, kind));
    found.push_where(Code::UndefinedValue, is_undefined(kind));
    found.push_where(Code::WrongType, has_wrong_type(card, kind));
    found.push_where(Code::NoSpaceAfterEquals, lacks_space(card));
    found.push_where(Code::BadDate, has_bad_date(card));
    found.push_where(Code::DeprecatedKeyword, has_deprecated_keyword(card));
    found
}
