//! The Integer that a card says alone.
ghost use Rattle.std.specs.Prelude.{◌≡◌};
ghost use Rattle.fits_rules.specs.Reads.{integer_said, in_64_bits};

use crate::reads::spelling;
use fits_card::Card;
use fits_value::{ValueKind, integer_of};

/// An Integer, where there is one (FITS Standard 4.0, section 4.2.3).
#[derive(Clone, Copy, PartialEq, Eq, Debug)]
pub enum IntegerSaid {
    /// A value of another type, no value, or nothing that can be read.
    Nothing,
    /// An Integer of more than 64 bits.
    TooLarge,
    Number(i64),
}

/// The Integer that a card with a value says alone, without its CONTINUE cards. It takes no memory.
#[tactic(auto, using(crate::proofs::IntegerLemmas::integer_steps))]
pub fn integer_said(card: &Card) -> IntegerSaid
    ensures { result ≡ in_64_bits (integer_said card.now) }
{
    let Some(text) = spelling(card, ValueKind::Integer) else {
        return IntegerSaid::Nothing;
    };
    match integer_of(text) {
        Some(number) => IntegerSaid::Number(number),
        None => IntegerSaid::TooLarge,
    }
}
