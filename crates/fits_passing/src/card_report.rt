//! The report of a file with the cards of its headers.
ghost use Rattle.std.specs.Prelude.{◌≡◌, map, IfOk, IfErr, OnOk};
ghost use Rattle.fits_passing.specs.declared.found_cards.FoundCards.{FoundCards};
ghost use Rattle.fits_stream.specs.Stream.{StaysQuiet};
ghost use Rattle.fits_passing.specs.Headers.{read_cards};
ghost use Rattle.fits_passing.specs.Reading.{GaveFault, GaveWhole, ReadStops};
ghost use Rattle.fits_passing.specs.Report.{IsCardReportOf};

use crate::findings::Findings;
use crate::found_cards::FoundCards;
use crate::problem::Problem;
use crate::read_file_fault::ReadFileFault;
use crate::reporting::report_of;
use crate::walking::read_kept;
use fits_card::CardList;
use fits_stream::{Reach, Source};
use std::alloc::{AllocError, Global};

/// The report of a file, and the cards of each of its HDUs.
#[derive(Drop)]
pub struct CardReport {
    pub problems: Vec<Problem>,
    pub cards: Vec<CardList>,
}

/// The same of the file that a source has, which is read as by `read_outlines`.
///
/// No data unit and no tail is kept.
pub fn read_card_report<R: Source>(
    alloc: Global,
    source: &mut R,
) -> Result<CardReport, ReadFileFault>
    ensures ok { IfOk result (λ it. GaveWhole (R.state source.old) (R.state source.new)
        (IsCardReportOf it.problems.items (read_cards it.cards.items))) }
    ensures quiet { OnOk result (StaysQuiet (R.state source.old) (R.state source.new)) }
    ensures err { IfErr result (ReadStops (R.state source.old) (R.state source.new)) }
    ensures gave { IfErr result (GaveFault (R.state source.old) (R.state source.new)) }
{
    let (kept, followed) = read_kept::<FoundCards, R>(alloc, source, Reach::Piece)?;
    let (found, cards) = parted(alloc, kept)?;
    let problems = report_of(alloc, &found, followed)?;
    Ok(CardReport { problems, cards })
}

// What is found of HDUs, and their cards.
fn parted(
    alloc: Global,
    kept: Vec<FoundCards>,
) -> Result<(Vec<Findings>, Vec<CardList>), AllocError>
    ensures found { IfOk result (λ parts. parts.0.items
        ≡ map (λ (it : FoundCards). it.found) kept.items) }
    ensures cards { IfOk result (λ parts. parts.1.items
        ≡ map (λ (it : FoundCards). it.cards) kept.items) }
{
    let mut found = Vec::new(alloc);
    let mut cards = Vec::new(alloc);
    for it in kept {
        let FoundCards {
            found: of_hdu,
            cards: of_header,
        } = it;
        found.push(of_hdu)?;
        cards.push(of_header)?;
    }
    Ok((found, cards))
}
