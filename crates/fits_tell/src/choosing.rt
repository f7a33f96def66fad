//! Which cards of a header are shown.
ghost use Rattle.std.specs.Prelude.{◌≡◌, ◌++◌, ◌∷◌, [], ◌&&◌, ◌||◌, ◌==◌, false, IfOk, OnOk, if◌then◌else◌};
ghost use Rattle.std.specs.List.{list_any};
ghost use Rattle.fits_card.specs.Card.{keyword_name};
ghost use Rattle.fits_header.specs.Links.{header_links, leaves_open, string_mark};
ghost use Rattle.fits_value.specs.Says.{ends_in_ampersand};
ghost use Rattle.fits_tell.specs.Cards.{chosen_from, chosen_in, has_hdu, has_name};

use crate::card_choice::CardChoice;
use crate::shown_card::ShownCard;
use fits_card::{Card, CardList};
use fits_value::{card_string, link_string};
use std::alloc::{AllocError, Global};

/// The cards of HDU h that are shown, where HDUs of these numbers are asked for.
#[tactic(auto, unfolding(crate::specs::Cards::chosen_in))]
pub(crate) fn chosen(
    alloc: Global,
    choice: &CardChoice,
    numbers: &[u64],
    h: usize,
    cards: &mut CardList,
) -> Result<Vec<ShownCard>, AllocError>
    ensures chosen { IfOk result (λ shown. shown.items
        ≡ chosen_in choice.now numbers.now h cards.old.header.cards) }
    ensures same { cards.new.header ≡ cards.old.header }
{
    if has_hdu(numbers, h as u64) {
        choose(alloc, choice, h, cards)
    } else {
        Ok(Vec::new(alloc))
    }
}

// Whether HDU h has one of these numbers, or there are none.
fn has_hdu(numbers: &[u64], h: u64) -> bool
    ensures { result ≡ has_hdu numbers.now h }
{
    numbers.is_empty() || is_asked(numbers, h)
}

// Whether a number is one of these.
fn is_asked(numbers: &[u64], h: u64) -> bool
    ensures { result ≡ list_any (λ asked. asked == h) numbers.now }
{
    numbers.iter().any(|asked| *asked == h)
}

// The cards that have a name that is asked for, and the links that go on with one.
#[tactic(auto, using(crate::proofs::CardLemmas::choice_steps))]
fn choose(
    alloc: Global,
    choice: &CardChoice,
    h: usize,
    cards: &mut CardList,
) -> Result<Vec<ShownCard>, AllocError>
    ensures chosen { IfOk result (λ shown. shown.items
        ≡ chosen_from choice.now h 1 false cards.old.header.cards
        (header_links cards.old.header.cards)) }
    ensures same { cards.new.header ≡ cards.old.header }
{
    let mut shown = Vec::new(alloc);
    let mut is_open = false;
    let mut before = false;
    for index in 0..cards.len() {
        let card = cards.card(index + 1);
        let link = is_link(is_open, &card);
        is_open = goes_on(&card, link);
        before = is_shown(choice, &card, link & before);
        let it = ShownCard {
            hdu: h,
            place: index + 1,
            card,
        };
        push_if(&mut shown, before, it)?;
    }
    Ok(shown)
}

// Adds a card, where it is shown.
fn push_if(shown: &mut Vec<ShownCard>, is: bool, it: ShownCard) -> Result<(), AllocError>
    ensures { OnOk result (shown.new.items
        ≡ shown.old.items ++ (if is then it ∷ [] else [])) }
{
    if is {
        shown.push(it)?;
    }
    Ok(())
}

// Whether a card is shown: it has a name that is asked for, or goes on with a card that is shown.
fn is_shown(choice: &CardChoice, card: &Card, goes_on: bool) -> bool
    ensures { result ≡ (has_name choice.now (keyword_name card.now) || goes_on) }
{
    choice.has_name(&card.name()) || goes_on
}

// Whether a card is a link, where a string is open before it or not.
fn is_link(is_open: bool, card: &Card) -> bool
    ensures { result ≡ (is_open && (string_mark card.now).continues) }
{
    is_open && link_string(card).is_some()
}

// Whether the next card may go on with the string of this one, which is a link or isn't.
fn goes_on(card: &Card, link: bool) -> bool
    ensures { result ≡ leaves_open link (string_mark card.now) }
{
    match card_string(card) {
        Some(text) => (link || card.has_value()) && ends_in_ampersand(text.as_bytes()),
        None => false,
    }
}

// Whether a text ends in an ampersand.
fn ends_in_ampersand(text: &[u8]) -> bool
    ensures { result ≡ ends_in_ampersand text.now }
{
    text.ends_with(b"&")
}
