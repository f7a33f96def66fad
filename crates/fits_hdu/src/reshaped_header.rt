//! The header of an array that is made another: how many cards it has then, and the change itself.
ghost use Rattle.std.specs.Prelude.{◌≡◌, ◌≤◌, ◌+◌, length};
ghost use Rattle.fits_card.specs.Change.{cards_after, new_cards};
ghost use Rattle.fits_card.specs.Header.{with_cards};
ghost use Rattle.fits_header.specs.State.{ReadsUpTo};
ghost use Rattle.fits_hdu.specs.Keyword.{keyword_cards, replacing};
ghost use Rattle.fits_hdu.specs.Reshape.{cards_reshaped, IsScaleName};
ghost use Rattle.fits_hdu.specs.Reshaping.{IsPlan};
ghost use Rattle.fits_hdu.specs.Stamp.{IsOneCard};
ghost use Rattle.fits_hdu.specs.Work.{keyword_reads, scaling_reads};

use crate::keyword::keyword_cards;
use crate::keyword_cards::{count_of, replacement};
use crate::reshaping::Reshaping;
use crate::scaling::Scaling;
use fits_card::{Cards, Name};
use fits_header::Header;

const BSCALE: Name = Name(*b"BSCALE  ");

const BZERO: Name = Name(*b"BZERO   ");

/// How many cards the header has then. It takes no memory.
#[tactic(auto, using(crate::proofs::PlanLemmas::plan_steps))]
pub(crate) fn count_reshaped(header: &mut Header, plan: &Reshaping) -> usize
    requires { IsPlan plan.now.kind plan.now.shape.axes header.old.shape header.old.header.cards
        plan.now }
    ensures value { result ≡ length (cards_reshaped plan.now.old plan.now.kind
        plan.now.shape.axes header.old.shape header.old.header.cards) }
    ensures work { ReadsUpTo header.old header.new
        (scaling_reads plan.now.old plan.now.kind header.old.header.cards) }
{
    let _described = header.shape();
    let _few = header.len();
    let written = header.count_after(&plan.change);
    if plan.scaling.is_none() {
        return written;
    }
    let scale = count_of(keyword_cards(header, &BSCALE));
    let zero = count_of(keyword_cards(header, &BZERO));
    written + 2 - scale - zero
}

/// Writes its cards. END stays, and the fill is spaces.
///
/// It takes no memory: room for two more cards than say the shape is reserved before.
#[tactic(auto, using(crate::proofs::PlanLemmas::plan_steps))]
pub(crate) fn rewrite(header: &mut Header, plan: Reshaping)
    requires plan { IsPlan plan.kind plan.shape.axes header.old.shape header.old.header.cards plan }
    requires room { length (new_cards plan.change)
        ≤ header.old.room + length header.old.shape.axes }
    ensures header { header.new.header ≡ with_cards header.old.header
        (cards_reshaped plan.old plan.kind plan.shape.axes header.old.shape
        header.old.header.cards) }
    ensures shape { header.new.shape ≡ plan.shape }
    ensures least { header.old.reads ≤ header.new.reads }
    ensures work { header.new.reads ≤ header.old.reads
        + scaling_reads plan.old plan.kind header.old.header.cards }
    ensures left { header.old.room + length header.old.shape.axes
        ≤ header.new.room + length (new_cards plan.change) }
{
    let _described = header.shape();
    let Reshaping {
        old: _,
        kind: _,
        change,
        shape,
        scaling,
    } = plan;
    header.reshape(change.cards(), shape);
    if let Some(Scaling { scale, zero }) = scaling {
        set_card(header, &BSCALE, scale);
        set_card(header, &BZERO, zero);
    }
}

// Sets BSCALE or BZERO to one card.
#[tactic(auto, using(crate::proofs::StampingLemmas::set_steps))]
fn set_card(header: &mut Header, name: &Name, new: Cards)
    requires keyword { IsScaleName name.now }
    requires one { IsOneCard name.now new }
    requires room { 1 ≤ header.old.room }
    ensures header { header.new.header ≡ with_cards header.old.header
        (cards_after header.old.header.cards (replacing (length header.old.header.cards)
        (keyword_cards header.old.header.cards name.now) new)) }
    ensures shape { header.new.shape ≡ header.old.shape }
    ensures room { header.old.room ≤ header.new.room + 1 }
    ensures least { header.old.reads ≤ header.new.reads }
    ensures work { header.new.reads
        ≤ header.old.reads + keyword_reads header.old.header.cards name.now }
{
    let _described = header.shape();
    let count = header.len();
    let old = keyword_cards(header, name);
    let change = replacement(count, old, new);
    header.apply(&change);
}
