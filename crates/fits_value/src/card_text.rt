//! The text of a card that is being written, in place.
ghost use Rattle.std.specs.Prelude.{◌≡◌, ◌≤◌, ◌<◌, ◌+◌, [], ◌++◌, length, take, replicate, codes, IfSome, IfNone};
ghost use Rattle.fits_card.specs.Card.{card_of_text};
ghost use Rattle.fits_card.specs.declared.card.TheConstants.{CARD_LEN};
ghost use Rattle.fits_value.specs.Spelling.{doubled};
ghost use Rattle.fits_value.specs.Written.{justified, quoted, commented, card_of};

use crate::text::Text;
use fits_card::{CARD_LEN, Card};
use std::marker::Model;

// The text that a card begins with, while it is written. Contracts see it as its list of bytes.
#[derive(Drop)]
struct CardText {
    bytes: [u8; CARD_LEN],
    len: usize,
}

impl Model for CardText {
    ghost use Rattle.std.specs.Prelude.{◌≡◌, ◌≤◌, ℕ, List, length, take};
    ghost use Rattle.fits_card.specs.declared.card.TheConstants.{CARD_LEN};

    ghost Value = { List ℕ };

    ghost view = { λ text. take text.len text.bytes };

    ghost invariant = { λ text. record {
      within : text.len ≤ CARD_LEN;
      size : length (take text.len text.bytes) ≡ text.len;
    } };
}

// A text of nothing.
fn empty() -> CardText
    ensures { result ≡ [] }
{
    CardText {
        bytes: [b' '; CARD_LEN],
        len: 0,
    }
}

// Writes bytes over those after the first ones.
fn write_at(card: &mut [u8; CARD_LEN], len: usize, bytes: &[u8])
    requires { len + length bytes.now ≤ CARD_LEN }
    ensures { take (len + length bytes.now) card.new ≡ take len card.old ++ bytes.now }
{
    let (_, free) = card.split_at_mut(len);
    let (place, _) = free.split_at_mut(bytes.len());
    place.copy_from_slice(bytes);
}

// Adds bytes, where they fit.
fn add(text: &mut CardText, bytes: &[u8]) -> Option<()>
    ensures some { IfSome result (λ _. text.new ≡ text.old ++ bytes.now) }
    ensures none { IfNone result (CARD_LEN < length text.old + length bytes.now) }
{
    if CARD_LEN - text.len < bytes.len() {
        return None;
    }
    write_at(&mut text.bytes, text.len, bytes);
    text.len += bytes.len();
    Some(())
}

// Adds spaces, where they fit.
fn add_spaces(text: &mut CardText, count: usize) -> Option<()>
    requires { count ≤ 31 }
    ensures some { IfSome result (λ _. text.new ≡ text.old ++ replicate count 32) }
    ensures none { IfNone result (CARD_LEN < length text.old + count) }
{
    let (spaces, _) = [b' '; 31].split_at(count);
    add(text, spaces)
}

// Adds characters with each quote doubled, where they fit.
fn add_doubled(text: &mut CardText, characters: &[u8]) -> Option<()>
    ensures some { IfSome result (λ _. text.new ≡ text.old ++ doubled characters.now) }
    ensures none { IfNone result (CARD_LEN < length text.old + length (doubled characters.now)) }
{
    for byte in characters {
        if *byte == b'\'' {
            add(text, b"''")?;
        } else {
            add(text, &[*byte])?;
        }
    }
    Some(())
}

// Adds characters and those after them between quotes, where they fit.
fn add_quoted(text: &mut CardText, characters: &[u8], after: &[u8]) -> Option<()>
    ensures some { IfSome result (λ _.
        text.new ≡ text.old ++ quoted (characters.now ++ after.now)) }
    ensures none { IfNone result
        (CARD_LEN < length text.old + length (quoted (characters.now ++ after.now))) }
{
    add(text, b"'")?;
    add_doubled(text, characters)?;
    add_doubled(text, after)?;
    add(text, b"'")?;
    Some(())
}

// The card of a text, where it fits with the comment after it.
fn closed(mut text: CardText, comment: &Option<Text>) -> Option<Card>
    ensures some { IfSome result (λ card. card ≡ card_of_text (commented text comment.now)) }
    ensures size { IfSome result (λ card. length card ≡ CARD_LEN) }
    ensures none { IfNone result (CARD_LEN < length (commented text comment.now)) }
{
    if let Some(comment) = comment {
        let gap = 1 + 30usize.saturating_sub(text.len);
        add_spaces(&mut text, gap)?;
        add(&mut text, b"/")?;
        add(&mut text, comment.as_bytes())?;
    }
    let (written, _) = text.bytes.split_at(text.len);
    Some(Card::padded(written))
}

/// The card of a value that is no string, where it fits with its comment.
pub(crate) fn justified_card(lead: &[u8], spelling: &[u8], comment: &Option<Text>) -> Option<Card>
    ensures some { IfSome result (λ card.
        card ≡ card_of lead.now (justified spelling.now) comment.now) }
    ensures size { IfSome result (λ card. length card ≡ CARD_LEN) }
    ensures none { IfNone result
        (CARD_LEN < length (card_of lead.now (justified spelling.now) comment.now)) }
{
    let mut text = empty();
    add(&mut text, lead)?;
    add_spaces(&mut text, 20usize.saturating_sub(spelling.len()))?;
    add(&mut text, spelling)?;
    closed(text, comment)
}

/// The card of a string with these characters and those after them, where it fits with its comment.
pub(crate) fn string_card(
    lead: &[u8],
    characters: &[u8],
    after: &[u8],
    comment: &Option<Text>,
) -> Option<Card>
    ensures some { IfSome result (λ card.
        card ≡ card_of lead.now (quoted (characters.now ++ after.now)) comment.now) }
    ensures size { IfSome result (λ card. length card ≡ CARD_LEN) }
    ensures none { IfNone result
        (CARD_LEN < length (card_of lead.now (quoted (characters.now ++ after.now)) comment.now)) }
{
    let mut text = empty();
    add(&mut text, lead)?;
    add_quoted(&mut text, characters, after)?;
    closed(text, comment)
}

/// The card of a complex number, where it fits with its comment.
pub(crate) fn pair_card(
    lead: &[u8],
    real: &[u8],
    imaginary: &[u8],
    comment: &Option<Text>,
) -> Option<Card>
    ensures some { IfSome result (λ card. card ≡ card_of lead.now
        (justified (codes "(" ++ real.now ++ (codes ", " ++ imaginary.now) ++ codes ")"))
        comment.now) }
    ensures size { IfSome result (λ card. length card ≡ CARD_LEN) }
    ensures none { IfNone result (CARD_LEN < length (card_of lead.now
        (justified (codes "(" ++ real.now ++ (codes ", " ++ imaginary.now) ++ codes ")"))
        comment.now)) }
{
    let mut spelling = empty();
    add(&mut spelling, b"(")?;
    add(&mut spelling, real)?;
    add(&mut spelling, b", ")?;
    add(&mut spelling, imaginary)?;
    add(&mut spelling, b")")?;
    let (written, _) = spelling.bytes.split_at(spelling.len);
    justified_card(lead, written, comment)
}
