//! The run of `cards`: cards of the headers of a file.
ghost use Rattle.std.specs.Prelude.{◌≡◌, ◌++◌, length, IfOk, IfErr, OnOk, Some, None};
ghost use Rattle.fits_stream.specs.Stream.{Prints};
ghost use Rattle.fits_passing.specs.Headers.{read_cards};
ghost use Rattle.fits_tell.specs.Cards.{all_chosen, card_lines, cards_text, changed_of, chosen_among, end_by, has_some, CardsAreShown, CardsEndAs, CardsStop};
ghost use Rattle.fits_tell.specs.Telling.{PrintingStops};

use crate::card_choice::CardChoice;
use crate::card_lines::{push_cards, push_changed};
use crate::card_place::CardPlace;
use crate::choosing::chosen;
use crate::end::{End, one_if};
use crate::fault::Fault;
use crate::printing::{flush, print};
use crate::seeking::numbers_asked;
use fits_card::CardList;
use fits_passing::{Headers, OpenFault, read_headers};
use fits_stream::{Sink, Source};
use std::alloc::Global;

/// How a run of `cards` ended.
#[derive(Drop)]
pub struct CardsEnd {
    pub end: End,
    /// The cards that aren't printed as they are: they have bytes that aren't text.
    pub changed: Vec<CardPlace>,
}

/// Reads the headers of a file, and prints a line for each of their cards that are asked for. Of a
/// file that doesn't open those before the fault are printed, and then it is the fault.
///
/// The status is 1 where a card has bytes that aren't text, and where none is printed though some
/// are asked for.
pub fn run_cards<F: Source, O: Sink>(
    alloc: Global,
    choice: &CardChoice,
    file: &mut F,
    out: &mut O,
) -> CardsEnd
    ensures { CardsEndAs choice.now (F.state file.old) (F.state file.new)
        (O.state out.old) (O.state out.new) result.end result.changed.items }
{
    match show_cards(alloc, choice, file, out) {
        Ok(ended) => ended,
        Err(why) => CardsEnd {
            end: End::from(why),
            changed: Vec::new(alloc),
        },
    }
}

// The run as a result: how it ended, or the fault that kept it from its end.
fn show_cards<F: Source, O: Sink>(
    alloc: Global,
    choice: &CardChoice,
    file: &mut F,
    out: &mut O,
) -> Result<CardsEnd, Fault>
    ensures ok { IfOk result (λ ended. CardsAreShown choice.now (F.state file.old)
        (F.state file.new) (O.state out.old) (O.state out.new) ended.end ended.changed.items) }
    ensures err { IfErr result (CardsStop choice.now (F.state file.old) (F.state file.new)
        (O.state out.old) (O.state out.new)) }
{
    let Headers { mut headers, fault } = match read_headers(alloc, file) {
        Ok(headers) => headers,
        Err(why) => return Err(Fault::from(why)),
    };
    let mut changed = Vec::new(alloc);
    let numbers = numbers_asked(alloc, &choice.hdus, &mut headers)?;
    let any = print_headers(alloc, choice, &numbers, &mut headers, &mut changed, out)?;
    flush(out)?;
    let end = ended(choice, !changed.is_empty(), any, fault);
    Ok(CardsEnd { end, changed })
}

// How the run ends, by whether a card isn't printed as it is, and whether one is printed.
fn ended(choice: &CardChoice, changed: bool, any: bool, fault: Option<OpenFault>) -> End
    ensures { result ≡ end_by choice.now changed any fault }
{
    match fault {
        Some(why) => End {
            status: 2,
            fault: Some(Fault::Refused(why)),
        },
        None => End {
            status: one_if(changed || (choice.is_given() && !any)),
            fault: None,
        },
    }
}

// Prints the cards of headers that are asked for, where HDUs of these numbers are, and says whether
// there is one. Room for the lines of one header is taken.
fn print_headers<O: Sink>(
    alloc: Global,
    choice: &CardChoice,
    numbers: &[u64],
    headers: &mut Vec<CardList>,
    changed: &mut Vec<CardPlace>,
    out: &mut O,
) -> Result<bool, Fault>
    ensures ok { OnOk result (Prints
        (card_lines (chosen_among choice.now numbers.now (read_cards headers.old.items)))
        (O.state out.old) (O.state out.new)) }
    ensures changed { OnOk result (changed.new.items ≡ changed.old.items
        ++ changed_of (chosen_among choice.now numbers.now (read_cards headers.old.items))) }
    ensures any { IfOk result (λ any. any
        ≡ has_some (chosen_among choice.now numbers.now (read_cards headers.old.items))) }
    ensures err { IfErr result (PrintingStops
        (card_lines (chosen_among choice.now numbers.now (read_cards headers.old.items)))
        (O.state out.old) (O.state out.new)) }
{
    let mut text = Vec::new(alloc);
    let mut any = false;
    for i in 0..headers.len() {
        let cards = &mut headers[i];
        let shown = chosen(alloc, choice, numbers, i + 1, cards)?;
        text.clear();
        push_cards(&mut text, &shown)?;
        push_changed(changed, &shown)?;
        any = any | !shown.is_empty();
        drop(shown);
        print(out, &text)?;
    }
    Ok(any)
}
