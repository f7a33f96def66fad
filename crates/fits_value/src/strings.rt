//! The strings of single cards, without memory (FITS Standard 4.0, section 4.2.1).
ghost use Rattle.std.specs.Prelude.{◌≡◌, ◌≤◌, length, take, drop, IfSome};
ghost use Rattle.fits_value.specs.Spelling.{IsSpaces, Spells};
ghost use Rattle.fits_value.specs.Text.{normal_form};
ghost use Rattle.fits_value.specs.Scan.{undoubled};
ghost use Rattle.fits_value.specs.declared.strings.TheConstants.{MOST_CHARACTERS};
ghost use Rattle.fits_value.specs.Says.{inner, is_continue, card_string, ends_in_ampersand, link_string};
ghost use Rattle.fits_value.specs.declared.reading.ValueKind.TheVariants as kind;

use crate::characters::normal_len;
use crate::reading::ValueKind;
use crate::scan::scan_card;
use crate::spaces::trimmed_len;
use fits_card::Card;
use std::marker::Model;

/// How many characters a card's string has at most: bytes 11 to 80 without the two quotes.
pub const MOST_CHARACTERS: usize = 68;

/// The string of one card, decoded and in normal form. Contracts see it as its list of characters.
#[derive(Clone, Copy)]
pub struct CardString {
    // Spaces follow the characters.
    bytes: [u8; MOST_CHARACTERS],
    len: usize,
}

impl Model for CardString {
    ghost use Rattle.std.specs.Prelude.{◌≡◌, ◌≤◌, ◌-◌, ◌++◌, ℕ, List, length, take, replicate};
    ghost use Rattle.std.proofs.Common.{ap, ◌∙◌};
    ghost use Rattle.fits_value.specs.declared.strings.TheConstants.{MOST_CHARACTERS};

    ghost Value = { List ℕ };

    ghost view = { λ string. take string.len string.bytes };

    ghost invariant = { λ string. record {
      within : string.len ≤ MOST_CHARACTERS;
      size : length (take string.len string.bytes) ≡ string.len;
      padded : take string.len string.bytes ++ replicate (MOST_CHARACTERS - string.len) 32
          ≡ string.bytes;
    } };

    ghost inverse = { λ text. record {
      bytes = text ++ replicate (MOST_CHARACTERS - length text) 32;
      len = length text;
    } };

    ghost inverse_ok = { λ string whole i. record {
      bytes = (ap (λ n. take string.len string.bytes ++ replicate (MOST_CHARACTERS - n) 32)
          whole.size ∙ whole.padded) i;
      len = whole.size i;
    } };
}

impl CardString {
    pub fn as_bytes(&self) -> &[u8]
        ensures value { result.now ≡ self.now }
        ensures within { length self.now ≤ MOST_CHARACTERS }
    {
        let (text, _) = self.bytes.split_at(self.len);
        text
    }
}

// Writes the characters that stand between the quotes, where two quotes are one, and counts them.
fn write_decoded(characters: &mut [u8; MOST_CHARACTERS], text: &[u8]) -> usize
    requires { length text.now ≤ MOST_CHARACTERS }
    ensures value { take result characters.new ≡ undoubled text.now }
    ensures rest { drop result characters.new ≡ drop result characters.old }
    ensures within { result ≤ MOST_CHARACTERS }
{
    let mut len = 0;
    let mut i = 0;
    while i < text.len() {
        characters[len] = text[i];
        len += 1;
        if text[i] == b'\'' && i + 1 < text.len() {
            i += 2;
        } else {
            i += 1;
        }
    }
    len
}

// The string whose characters stand between the quotes, where two quotes are one.
fn decoded(text: &[u8]) -> CardString
    requires { length text.now ≤ MOST_CHARACTERS }
    ensures { result ≡ normal_form (undoubled text.now) }
{
    let mut bytes = [b' '; MOST_CHARACTERS];
    let len = write_decoded(&mut bytes, text);
    let (characters, _) = bytes.split_at(len);
    let len = normal_len(characters);
    CardString { bytes, len }
}

/// The string that a card says alone, whatever its name. It takes no memory.
pub fn card_string(card: &Card) -> Option<CardString>
    ensures { result ≡ card_string card.now }
{
    let Some(reading) = scan_card(card) else {
        return None;
    };
    let ValueKind::Str = reading.kind else {
        return None;
    };
    let [_, quoted @ .., _] = reading.value.part(card.bytes()) else {
        return None;
    };
    Some(decoded(quoted))
}

/// Whether the card is named CONTINUE and has spaces in bytes 9 and 10.
#[tactic(auto, unfolding(crate::specs::Says::is_continue))]
pub fn is_continue(card: &Card) -> bool
    ensures { result ≡ is_continue card.now }
{
    card.name().is(b"CONTINUE") && card.0[8] == b' ' && card.0[9] == b' '
}

/// The string of a proper CONTINUE card. It takes no memory.
#[tactic(auto, unfolding(crate::specs::Says::link_string))]
pub fn link_string(card: &Card) -> Option<CardString>
    ensures { result ≡ link_string card.now }
{
    if is_continue(card) {
        card_string(card)
    } else {
        None
    }
}

/// Whether a string that is spelled so ends in an ampersand: it may be continued (FITS Standard 4.0,
/// section 4.2.1.2).
pub fn is_open_string(spelling: &[u8]) -> bool
    requires { Spells kind.Str spelling.now }
    ensures { result ≡ ends_in_ampersand (normal_form (undoubled (inner spelling.now))) }
{
    let [_, quoted @ .., _] = spelling else {
        return false;
    };
    let (text, _) = quoted.split_at(trimmed_len(quoted));
    text.ends_with(b"&")
}
