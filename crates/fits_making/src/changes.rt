//! The change that each edit makes of the cards of its HDU, by a function of its own.
ghost use Rattle.std.specs.Prelude.{◌≡◌, ◌+◌, ◌<◌, ◌^◌, length, All, Ok, IfOk, IfErr, IsErrOf, OnOk, None, Some, ◌∷◌, []};
ghost use Rattle.fits_card.specs.Change.{new_cards};
ghost use Rattle.fits_card.specs.Header.{IsInnerCard};
ghost use Rattle.fits_rules.specs.Class.{is_primary};
ghost use Rattle.fits_passing.specs.Hdu.{IsHdu};
ghost use Rattle.fits_hdu.specs.State.{parts_of, IsDescribed, ReadsUpTo};
ghost use Rattle.fits_hdu.specs.Work.{keyword_reads};
ghost use Rattle.fits_making.specs.CardEdit.{change_of, is_keyword_name, is_splice_within, is_within, own_refusal, set_of, tested, unset_of};
ghost use Rattle.fits_making.specs.Refusal.{CardEditNeedsMemory, ChangeFails};
ghost use Rattle.fits_making.specs.Work.{own_reads, reads_to_find};

use crate::refusal::Refusal;
use fits_card::{Card, Cards, Change, Name};
use fits_edit::CardEdit;
use fits_hdu::{Hdu, replacement};
use fits_value::{Text, Value, write_value};
use std::alloc::{AllocError, Global};

/// The change that an edit makes of the cards of its HDU, or the first of its own tests that fails.
///
/// Memory is asked for after these tests.
#[tactic(auto, unfolding(crate::specs::CardEdit::change_of))]
pub(crate) fn change_of(alloc: Global, hdu: &mut Hdu, edit: &CardEdit) -> Result<Change, Refusal>
    ensures ok { IfOk result (λ change. change_of hdu.old.header.header.cards edit.now
        ≡ Ok change) }
    ensures inner { IfOk result (λ change. All IsInnerCard (new_cards change)) }
    ensures err { IfErr result (ChangeFails (change_of hdu.old.header.header.cards edit.now)) }
    ensures memory { IsErrOf result Refusal.Memory → CardEditNeedsMemory edit.now None }
    ensures work { ReadsUpTo hdu.old hdu.new (own_reads hdu.old.header.header.cards edit.now) }
    ensures whole { IsHdu (is_primary hdu.old.header.shape.class) (parts_of hdu.old) }
    ensures described { IsDescribed hdu.old }
{
    let count = hdu.card_count();
    match edit {
        CardEdit::Insert { place, card } => put_card(alloc, count, *place, 0, card),
        CardEdit::Put { place, card } => put_card(alloc, count, *place, 1, card),
        CardEdit::Delete { place } => delete_card(alloc, count, *place),
        CardEdit::Move { from, to } => move_card(count, *from, *to),
        CardEdit::Set {
            name,
            value,
            comment,
        } => set_keyword(alloc, hdu, name, value, comment),
        CardEdit::Unset { name } => unset_keyword(alloc, hdu, name),
    }
}

// A card at a place among so many others, instead of so many from there on.
fn put_card(
    alloc: Global,
    count: usize,
    place: usize,
    removed: usize,
    card: &Card,
) -> Result<Change, Refusal>
    ensures ok { IfOk result (λ change. tested count (Change.Splice place removed
        (card.now ∷ [])) ≡ Ok change) }
    ensures inner { IfOk result (λ change. All IsInnerCard (new_cards change)) }
    ensures err { IfErr result (ChangeFails (tested count (Change.Splice place removed
        (card.now ∷ [])))) }
{
    test_card(count, place, removed, card)?;
    let cards = Cards::one(alloc, *card)?;
    Ok(Change::Splice {
        place,
        removed,
        cards,
    })
}

// Tests a card that comes to a place among so many others, instead of so many from there on.
#[tactic(auto, using(crate::proofs::CardLemmas::card_steps))]
fn test_card(count: usize, place: usize, removed: usize, card: &Card) -> Result<(), Refusal>
    ensures ok { OnOk result (own_refusal count (Change.Splice place removed (card.now ∷ []))
        ≡ None) }
    ensures inner { OnOk result (IsInnerCard card.now) }
    ensures err { IfErr result (λ why. own_refusal count (Change.Splice place removed
        (card.now ∷ [])) ≡ Some why) }
{
    if !is_splice_within(count, place, removed) {
        return Err(Refusal::NoCard);
    }
    if !card.is_text() {
        return Err(Refusal::BadText);
    }
    if card.is_end() {
        return Err(Refusal::EndCard);
    }
    Ok(())
}

fn is_splice_within(count: usize, place: usize, removed: usize) -> bool
    ensures { result ≡ is_splice_within count place removed }
{
    1 <= place && place - 1 <= count && removed <= count - (place - 1)
}

// The card at a place among so many goes.
#[tactic(auto, using(crate::proofs::CardLemmas::take_steps))]
fn delete_card(alloc: Global, count: usize, place: usize) -> Result<Change, Refusal>
    ensures value { result ≡ tested count (Change.Splice place 1 []) }
    ensures inner { IfOk result (λ change. All IsInnerCard (new_cards change)) }
{
    if !is_splice_within(count, place, 1) {
        return Err(Refusal::NoCard);
    }
    Ok(removal(alloc, place, 1))
}

// So many cards from a place on go.
fn removal(alloc: Global, place: usize, removed: usize) -> Change
    ensures value { result ≡ Change.Splice place removed [] }
    ensures inner { All IsInnerCard (new_cards result) }
{
    Change::Splice {
        place,
        removed,
        cards: Cards::new(Vec::new(alloc)),
    }
}

// The card at a place among so many goes to another.
#[tactic(auto, using(crate::proofs::CardLemmas::take_steps))]
fn move_card(count: usize, from: usize, to: usize) -> Result<Change, Refusal>
    ensures value { result ≡ tested count (Change.Move from to) }
    ensures inner { IfOk result (λ change. All IsInnerCard (new_cards change)) }
{
    if !is_within(from, count) || !is_within(to, count) {
        return Err(Refusal::NoCard);
    }
    Ok(Change::Move { from, to })
}

/// Whether a number from 1 is that of one of so many.
pub fn is_within(place: usize, count: usize) -> bool
    ensures { result ≡ is_within place count }
{
    1 <= place && place <= count
}

// A keyword's value and comment instead of its cards, or after the last card.
#[tactic(auto, using(crate::proofs::KeywordLemmas::set_steps))]
fn set_keyword(
    alloc: Global,
    hdu: &mut Hdu,
    name: &Name,
    value: &Value,
    comment: &Option<Text>,
) -> Result<Change, Refusal>
    ensures ok { IfOk result (λ change. set_of hdu.old.header.header.cards name.now value.now
        comment.now ≡ Ok change) }
    ensures inner { IfOk result (λ change. All IsInnerCard (new_cards change)) }
    ensures err { IfErr result (ChangeFails (set_of hdu.old.header.header.cards name.now value.now
        comment.now)) }
    ensures work { ReadsUpTo hdu.old hdu.new (reads_to_find
        (set_of hdu.old.header.header.cards name.now value.now comment.now)
        (keyword_reads hdu.old.header.header.cards name.now)) }
{
    if !name.is_settable() {
        return Err(Refusal::BadName);
    }
    let cards = write_value(alloc, name, value, comment)?;
    let old = hdu.keyword_cards(name);
    Ok(replacement(hdu.card_count(), old, cards))
}

// A keyword's cards go.
#[tactic(auto, using(crate::proofs::KeywordLemmas::unset_steps))]
fn unset_keyword(alloc: Global, hdu: &mut Hdu, name: &Name) -> Result<Change, Refusal>
    ensures value { result ≡ unset_of hdu.old.header.header.cards name.now }
    ensures inner { IfOk result (λ change. All IsInnerCard (new_cards change)) }
    ensures work { ReadsUpTo hdu.old hdu.new (reads_to_find
        (unset_of hdu.old.header.header.cards name.now)
        (keyword_reads hdu.old.header.header.cards name.now)) }
{
    if !is_keyword_name(name) {
        return Err(Refusal::BadName);
    }
    let Some(old) = hdu.keyword_cards(name) else {
        return Err(Refusal::NoKey);
    };
    Ok(removal(alloc, old.place, old.count))
}

// Whether the name is a keyword's: spelled as the standard asks, and not of spaces alone.
fn is_keyword_name(name: &Name) -> bool
    ensures { result ≡ is_keyword_name name.now }
{
    name.is_spelled() && !name.is_blank()
}
