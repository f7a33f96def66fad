//! One HDU of each of two files, as they pass by.
ghost use Rattle.std.specs.Prelude.{◌≡◌, ◌==◌, ◌++◌, IfOk, IfErr, OnOk};
ghost use Rattle.fits_stream.specs.Intake.{supply};
ghost use Rattle.fits_diff.specs.Differences.{end_text, have_one_end};
ghost use Rattle.fits_diff.specs.Matching.{TellsCards};
ghost use Rattle.fits_diff.specs.DiffSteps.{HdusStop, TakesHdus};

use crate::card_lines::card_differences;
use crate::lines::push_hdu_text;
use crate::pair_fault::PairFault;
use crate::units::{UnitLens, compare_units};
use fits_card::CardList;
use fits_passing::read_described;
use fits_stream::{Intake, Source};
use std::alloc::{AllocError, Global};

/// Takes the HDUs that come next, of this number, and adds the lines of how they differ.
pub(crate) fn compare_hdus<F: Source>(
    alloc: Global,
    text: &mut Vec<u8>,
    number: usize,
    first: &mut Intake,
    a: &mut F,
    second: &mut Intake,
    b: &mut F,
) -> Result<(), PairFault>
    ensures ok { OnOk result (TakesHdus number (number == 1)
        (supply (F.state a.old) first.old) (supply (F.state a.new) first.new)
        (supply (F.state b.old) second.old) (supply (F.state b.new) second.new)
        text.old.items text.new.items) }
    ensures err { IfErr result (HdusStop (number == 1)
        (supply (F.state a.old) first.old) (supply (F.state a.new) first.new)
        (supply (F.state b.old) second.old) (supply (F.state b.new) second.new)) }
{
    let mut head = match read_described(alloc, first, a, number == 1) {
        Ok(head) => head,
        Err(why) => return Err(PairFault::First(why)),
    };
    let mut other = match read_described(alloc, second, b, number == 1) {
        Ok(head) => head,
        Err(why) => return Err(PairFault::Second(why)),
    };
    let lines = card_differences(alloc, number, &mut head.cards, &mut other.cards)?;
    text.extend_from_slice(&lines)?;
    push_end_line(text, number, &head.cards, &other.cards)?;
    let lens = UnitLens {
        first: head.unit_len,
        second: other.unit_len,
    };
    match compare_units(text, number, lens, first, a, second, b) {
        Ok(()) => Ok(()),
        Err(why) => Err(why),
    }
}

// Adds the line of an END or a fill that differ.
fn push_end_line(
    text: &mut Vec<u8>,
    number: usize,
    cards: &CardList,
    others: &CardList,
) -> Result<(), AllocError>
    ensures { OnOk result (text.new.items
        ≡ text.old.items ++ end_text number cards.now.header others.now.header) }
{
    if have_one_end(cards, others) {
        return Ok(());
    }
    push_hdu_text(text, number, b" END or the fill after it differs\n")
}

// Whether END is the same card, and the fills are the same, or spaces.
fn have_one_end(cards: &CardList, others: &CardList) -> bool
    ensures { result ≡ have_one_end cards.now.header others.now.header }
{
    cards.end().bytes() == others.end().bytes()
        && ((cards.fill_blank() && others.fill_blank()) || cards.fill() == others.fill())
}
