//! The cards of a new image, and its header.
ghost use Rattle.std.specs.Prelude.{◌≡◌, ◌≤◌, ◌<◌, ◌+◌, ◌++◌, true, length, replicate, codes, IsTrue, IfOk, OnOk};
ghost use Rattle.fits_card.specs.Header.{new_header};
ghost use Rattle.fits_card.specs.Name.{is_settable};
ghost use Rattle.fits_rules.specs.Shape.{axis_name};
ghost use Rattle.fits_value.specs.declared.value.Value.TheVariants.{Str};
ghost use Rattle.fits_image.specs.ImageCards.{are_axes, axis_cards, image_cards, offset_cards, shape_cards, written, written_number};

use crate::kind::Kind;
use fits_card::{Card, CardList, Name};
use fits_rules::axis_name;
use fits_value::{Text, Value, WriteFault, write_value};
use std::alloc::{AllocError, Global};

/// The header of a new image of this kind and with these axes (FITS Standard 4.0, section 7.1).
///
/// Err: memory was refused.
pub fn image_header(alloc: Global, kind: Kind, axes: &[u64]) -> Result<CardList, AllocError>
    requires axes { are_axes axes.now ≡ true }
    ensures header { IfOk result (λ cards. cards.header
        ≡ new_header (image_cards kind axes.now)) }
    ensures unread { IfOk result (λ cards. cards.reads ≡ 0) }
{
    let cards = image_cards(alloc, kind, axes)?;
    CardList::new(alloc, cards)
}

// The cards of a new image, in their order.
fn image_cards(alloc: Global, kind: Kind, axes: &[u64]) -> Result<Vec<Card>, AllocError>
    requires { are_axes axes.now ≡ true }
    ensures { IfOk result (λ cards. cards.items ≡ image_cards kind axes.now) }
{
    let mut cards = Vec::new(alloc);
    push_image(alloc, &mut cards, kind, axes)?;
    Ok(cards)
}

// They are pushed one after another.
#[tactic(auto, using(crate::proofs::ImageHeaderLemmas::card_steps))]
fn push_image(
    alloc: Global,
    cards: &mut Vec<Card>,
    kind: Kind,
    axes: &[u64],
) -> Result<(), AllocError>
    requires { are_axes axes.now ≡ true }
    ensures { OnOk result (cards.new.items ≡ cards.old.items ++ image_cards kind axes.now) }
{
    push_type(alloc, cards)?;
    push_shape(alloc, cards, kind, axes)?;
    push_number(alloc, cards, &Name(*b"PCOUNT  "), 0)?;
    push_number(alloc, cards, &Name(*b"GCOUNT  "), 1)?;
    push_offset(alloc, cards, kind)?;
    Ok(())
}

// XTENSION of an image.
#[tactic(auto, using(crate::proofs::ImageHeaderLemmas::xtension_settable))]
fn push_type(alloc: Global, cards: &mut Vec<Card>) -> Result<(), AllocError>
    ensures { OnOk result (cards.new.items
        ≡ cards.old.items ++ written (codes "XTENSION") (Str (codes "IMAGE"))) }
{
    let image = Value::Str(Text::new(Vec::from_slice(alloc, b"IMAGE")?));
    push_value(alloc, cards, &Name(*b"XTENSION"), &image)
}

/// How many cards the header of a new image has. It takes no memory.
#[tactic(auto, using(crate::proofs::ImageHeaderLemmas::count_steps))]
pub fn card_count(kind: Kind, axes: &[u64]) -> usize
    requires { are_axes axes.now ≡ true }
    ensures value { result ≡ length (image_cards kind axes.now) }
    ensures few { result ≤ 2000 }
{
    let offset = match kind {
        Kind::U8 | Kind::I16 | Kind::I32 | Kind::I64 => 0,
        Kind::I8 | Kind::U16 | Kind::U32 | Kind::U64 => 2,
    };
    5 + axes.len() + offset
}

/// The cards that say BITPIX, NAXIS and the axes of an image of this kind, without comments (FITS
/// Standard 4.0, section 4.4.1.1).
///
/// Err: memory was refused.
pub fn shape_cards(alloc: Global, kind: Kind, axes: &[u64]) -> Result<Vec<Card>, AllocError>
    requires { are_axes axes.now ≡ true }
    ensures { IfOk result (λ cards. cards.items ≡ shape_cards kind axes.now) }
{
    let mut cards = Vec::new(alloc);
    push_shape(alloc, &mut cards, kind, axes)?;
    Ok(cards)
}

// BITPIX, NAXIS and the axes.
#[tactic(auto, using(crate::proofs::ImageHeaderLemmas::card_steps))]
fn push_shape(
    alloc: Global,
    cards: &mut Vec<Card>,
    kind: Kind,
    axes: &[u64],
) -> Result<(), AllocError>
    requires { are_axes axes.now ≡ true }
    ensures { OnOk result (cards.new.items ≡ cards.old.items ++ shape_cards kind axes.now) }
{
    push_number(alloc, cards, &Name(*b"BITPIX  "), 8 * kind.width() as i128)?;
    push_number(alloc, cards, &Name(*b"NAXIS   "), axes.len() as i128)?;
    push_axes(alloc, cards, axes)?;
    Ok(())
}

// NAXISn of each axis.
#[tactic(auto, using(crate::proofs::ImageHeaderLemmas::axes_steps))]
fn push_axes(alloc: Global, cards: &mut Vec<Card>, axes: &[u64]) -> Result<(), AllocError>
    requires { length axes.now < 1000 }
    ensures { OnOk result (cards.new.items ≡ cards.old.items ++ axis_cards 1 axes.now) }
{
    for k in 0..axes.len() {
        push_number(alloc, cards, &axis_name(k + 1), i128::from(axes[k]))?;
    }
    Ok(())
}

// BSCALE and BZERO, where the kind has an offset.
#[tactic(auto, using(crate::proofs::ImageHeaderLemmas::card_steps))]
fn push_offset(alloc: Global, cards: &mut Vec<Card>, kind: Kind) -> Result<(), AllocError>
    ensures { OnOk result (cards.new.items ≡ cards.old.items ++ offset_cards kind) }
{
    match kind {
        Kind::U8 | Kind::I16 | Kind::I32 | Kind::I64 => Ok(()),
        Kind::I8 | Kind::U16 | Kind::U32 | Kind::U64 => {
            push_number(alloc, cards, &Name(*b"BSCALE  "), 1)?;
            push_number(alloc, cards, &Name(*b"BZERO   "), kind.offset())
        }
    }
}

/// The card of a number under a name, without a comment (FITS Standard 4.0, section 4.2.3).
///
/// Err: memory was refused.
pub fn number_cards(alloc: Global, name: &Name, number: i128) -> Result<Vec<Card>, AllocError>
    requires settable { IsTrue (is_settable name.now) }
    ensures { IfOk result (λ cards. cards.items ≡ written_number name.now number) }
{
    let mut cards = Vec::new(alloc);
    push_number(alloc, &mut cards, name, number)?;
    Ok(cards)
}

// The card of a number.
fn push_number(
    alloc: Global,
    cards: &mut Vec<Card>,
    name: &Name,
    number: i128,
) -> Result<(), AllocError>
    requires settable { IsTrue (is_settable name.now) }
    ensures { OnOk result (cards.new.items ≡ cards.old.items ++ written_number name.now number) }
{
    let text = format!(in alloc; "{number}")?;
    let value = Value::Integer(Text::new(Vec::from_slice(alloc, text.as_bytes())?));
    push_value(alloc, cards, name, &value)
}

// The cards of a value.
fn push_value(
    alloc: Global,
    cards: &mut Vec<Card>,
    name: &Name,
    value: &Value,
) -> Result<(), AllocError>
    requires settable { IsTrue (is_settable name.now) }
    ensures { OnOk result (cards.new.items ≡ cards.old.items ++ written name.now value.now) }
{
    match write_value(alloc, name, value, &None) {
        Ok(new) => cards.extend_from_slice(new.as_slice()),
        // It isn't written, and none of these values is such a one.
        Err(WriteFault::BadValue) => Ok(()),
        Err(WriteFault::Memory) => Err(AllocError),
    }
}
