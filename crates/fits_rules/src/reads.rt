//! What a card that has a value says alone, without memory.
ghost use Rattle.std.specs.Prelude.{◌≡◌, ◌≤◌, ℤ, Some, option_and_then, unwrap_or, FitsSigned, IfSome, IfNone, false};
ghost use Rattle.std.specs.Int.{w64};
ghost use Rattle.fits_value.specs.Says.{value_spelled};
ghost use Rattle.fits_value.specs.Spelling.{Spells};
ghost use Rattle.fits_value.specs.Value.{kind_of};
ghost use Rattle.fits_value.specs.declared.value.Value.{Value};
ghost use Rattle.fits_rules.specs.declared.rules.TheConstants.{LARGEST};
ghost use Rattle.fits_rules.specs.Class.{extension_class};
ghost use Rattle.fits_rules.specs.Reads.{value_said, integer_said, logical_said, string_said};
ghost use Rattle.fits_rules.specs.Shape.{is_bitpix, bitpix_in, up_to};

use crate::class::Class;
use crate::integers::{IntegerSaid, integer_said};
use fits_card::Card;
use fits_value::{CardString, ValueKind, card_string, scan_card};

/// The bytes of the card's value, where it has one of this kind.
pub(crate) fn spelling(card: &Card, kind: ValueKind) -> Option<&[u8]>
    ensures found { IfSome result (λ spelling. value_said card.now ≡
        value_spelled kind spelling.now) }
    ensures spelled { IfSome result (λ spelling. Spells kind spelling.now) }
    ensures none { IfNone result ((value : Value) → value_said card.now ≡
        Some value → kind_of value ≡ kind → ⊥) }
{
    if !card.has_value() {
        return None;
    }
    let Some(reading) = scan_card(card) else {
        return None;
    };
    if reading.kind != kind {
        return None;
    }
    Some(reading.value.part(card.bytes()))
}

/// The integer, where BITPIX may have it.
#[tactic(auto, using(crate::proofs::IntegerLemmas::bitpix_steps))]
pub(crate) fn bitpix(card: &Card) -> Option<i64>
    ensures { result ≡ option_and_then bitpix_in (integer_said card.now) }
{
    match integer_said(card) {
        IntegerSaid::Number(number) if is_bitpix(number) => Some(number),
        _ => None,
    }
}

// Whether BITPIX may have this number.
fn is_bitpix(number: i64) -> bool
    ensures { result ≡ is_bitpix number }
{
    matches!(number, 8 | 16 | 32 | 64 | -32 | -64)
}

/// The integer, where it is from 0 to a limit.
#[tactic(auto, using(crate::proofs::IntegerLemmas::number_steps))]
pub(crate) fn number_up_to(card: &Card, limit: u64) -> Option<u64>
    requires { limit ≤ LARGEST }
    ensures value { result ≡ option_and_then (up_to limit) (integer_said card.now) }
    ensures within { IfSome result (λ number. number ≤ limit) }
{
    match integer_said(card) {
        IntegerSaid::Number(number) if number >= 0 && number as u64 <= limit => Some(number as u64),
        _ => None,
    }
}

/// Whether the card says `T`.
#[tactic(auto, using(crate::proofs::ReadLemmas::logical_steps))]
pub(crate) fn is_true(card: &Card) -> bool
    ensures { result ≡ unwrap_or (logical_said card.now) false }
{
    match spelling(card, ValueKind::Logical) {
        Some(text) => text == b"T".as_slice(),
        None => false,
    }
}

// The string.
#[tactic(auto, unfolding(crate::specs::Reads::string_said))]
fn string(card: &Card) -> Option<CardString>
    ensures { result ≡ string_said card.now }
{
    if card.has_value() {
        card_string(card)
    } else {
        None
    }
}

/// The class of the extension whose XTENSION card this is.
pub(crate) fn extension_class(card: &Card) -> Class
    ensures { result ≡ extension_class (string_said card.now) }
{
    let Some(text) = string(card) else {
        return Class::Other;
    };
    if text.as_bytes() == b"IMAGE".as_slice() {
        Class::Image
    } else if text.as_bytes() == b"TABLE".as_slice() {
        Class::Table
    } else {
        Class::Other
    }
}
