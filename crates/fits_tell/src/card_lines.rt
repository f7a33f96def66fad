//! Cards as they are printed.
ghost use Rattle.std.specs.Prelude.{◌≡◌, ◌++◌, map, OnOk};
ghost use Rattle.fits_card.specs.Card.{is_text_byte};
ghost use Rattle.fits_value.specs.Text.{trimmed};
ghost use Rattle.fits_tell.specs.Cards.{after_space, card_line, card_lines, changed_at, changed_of, shown_byte, shown_text};

use crate::card_place::CardPlace;
use crate::pushing::push_number;
use crate::shown_card::ShownCard;
use fits_card::Card;
use fits_value::trimmed_len;
use std::alloc::AllocError;

/// A line for each card.
pub(crate) fn push_cards(text: &mut Vec<u8>, shown: &[ShownCard]) -> Result<(), AllocError>
    ensures { OnOk result (text.new.items ≡ text.old.items ++ card_lines shown.now) }
{
    for it in shown {
        push_card(text, it)?;
    }
    Ok(())
}

// `HDU PLACE CARD`
#[tactic(auto, unfolding(crate::specs::Cards::card_line))]
fn push_card(text: &mut Vec<u8>, it: &ShownCard) -> Result<(), AllocError>
    ensures { OnOk result (text.new.items ≡ text.old.items ++ card_line it.now) }
{
    push_number(text, b"", it.hdu as u64)?;
    push_number(text, b" ", it.place as u64)?;
    push_text(text, &it.card)?;
    text.extend_from_slice(b"\n")
}

// A space and the card without the spaces at its end, or nothing where it is blank.
#[tactic(auto, using(crate::proofs::CardLemmas::text_steps))]
fn push_text(text: &mut Vec<u8>, card: &Card) -> Result<(), AllocError>
    ensures { OnOk result (text.new.items ≡ text.old.items ++ after_space (shown_text card.now)) }
{
    let bytes = trimmed(card);
    if bytes.is_empty() {
        return Ok(());
    }
    text.extend_from_slice(b" ")?;
    push_shown(text, bytes)
}

/// The card without the spaces at its end.
pub(crate) fn push_shown_text(text: &mut Vec<u8>, card: &Card) -> Result<(), AllocError>
    ensures { OnOk result (text.new.items ≡ text.old.items ++ shown_text card.now) }
{
    push_shown(text, trimmed(card))
}

// The bytes of a card before the spaces at its end.
fn trimmed(card: &Card) -> &[u8]
    ensures { result.now ≡ trimmed card.now }
{
    let (bytes, _) = card.0.split_at(trimmed_len(&card.0));
    bytes
}

// Bytes as they are shown.
fn push_shown(text: &mut Vec<u8>, bytes: &[u8]) -> Result<(), AllocError>
    ensures { OnOk result (text.new.items ≡ text.old.items ++ map shown_byte bytes.now) }
{
    for byte in bytes {
        text.push(shown_byte(*byte))?;
    }
    Ok(())
}

// A byte as it is shown.
fn shown_byte(byte: u8) -> u8
    ensures { result ≡ shown_byte byte }
{
    match byte {
        b' '..=b'~' => byte,
        _ => b'?',
    }
}

/// Adds the places of cards that aren't shown as they are.
pub(crate) fn push_changed(
    changed: &mut Vec<CardPlace>,
    shown: &[ShownCard],
) -> Result<(), AllocError>
    ensures { OnOk result (changed.new.items ≡ changed.old.items ++ changed_of shown.now) }
{
    for it in shown {
        push_changed_at(changed, it)?;
    }
    Ok(())
}

// The place of a card, where it isn't shown as it is.
fn push_changed_at(changed: &mut Vec<CardPlace>, it: &ShownCard) -> Result<(), AllocError>
    ensures { OnOk result (changed.new.items ≡ changed.old.items ++ changed_at it.now) }
{
    if !it.card.is_text() {
        changed.push(CardPlace {
            hdu: it.hdu,
            place: it.place,
        })?;
    }
    Ok(())
}
