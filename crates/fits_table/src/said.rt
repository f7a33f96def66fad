//! What a card that has a value says alone.
ghost use Rattle.std.specs.Prelude.{◌≡◌, option_and_then};
ghost use Rattle.fits_codes.specs.Alone.{kind_said};
ghost use Rattle.fits_rules.specs.Reads.{integer_said, string_said};
ghost use Rattle.fits_table.specs.Column.{start_in};

use fits_card::Card;
use fits_rules::{IntegerSaid, integer_said};
use fits_value::{CardString, ValueKind, card_string, scan_card};

/// The type of its value.
#[tactic(auto, using(crate::proofs::SaidLemmas::kind_steps))]
pub(crate) fn kind_said(card: &Card) -> Option<ValueKind>
    ensures { result ≡ kind_said card.now }
{
    let Some(reading) = scan_card(card) else {
        return None;
    };
    if card.has_value() {
        Some(reading.kind)
    } else {
        None
    }
}

/// Its string.
#[tactic(auto, unfolding(fits_rules::specs::Reads::string_said))]
pub(crate) fn string_said(card: &Card) -> Option<CardString>
    ensures { result ≡ string_said card.now }
{
    if card.has_value() {
        card_string(card)
    } else {
        None
    }
}

/// Its integer, from 1 on.
#[tactic(auto, using(crate::proofs::StartLemmas::start_steps))]
pub(crate) fn start_said(card: &Card) -> Option<u64>
    ensures { result ≡ option_and_then start_in (integer_said card.now) }
{
    match integer_said(card) {
        IntegerSaid::Number(number) if number >= 1 => Some(number as u64),
        _ => None,
    }
}
