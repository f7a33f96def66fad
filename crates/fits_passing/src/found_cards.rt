ghost use Rattle.std.specs.Prelude.{◌≡◌, ◌≤◌, ◌^◌, length, Ok, IfOk};
ghost use Rattle.fits_card.specs.Header.{header_bytes, IsHeader};
ghost use Rattle.fits_rules.specs.Class.{is_primary};
ghost use Rattle.fits_rules.specs.Shape.{shape_of};
ghost use Rattle.fits_header.specs.Findings.{card_findings};
ghost use Rattle.fits_passing.specs.ExtensionName.{extension_name};
ghost use Rattle.fits_passing.specs.Findings.{whole_codes};
ghost use Rattle.fits_passing.specs.Layout.{layout_of_bytes};
ghost use Rattle.fits_passing.specs.HduReading.{passed_parts};

use crate::called::extension_name;
use crate::described::Described;
use crate::findings::Findings;
use crate::found::with_data_codes;
use crate::hdu_fault::HduFault;
use crate::read_hdu_fault::ReadHduFault;
use crate::summed::{Summed, read_summed};
use crate::sums::{sum_keywords, verdicts_by, whole_sum};
use fits_card::CardList;
use fits_codes::judge_header_mark;
use fits_header::Header;
use fits_stream::{Intake, Source};
use fits_sum::fold;
use fits_unit::PassedUnit;
use std::alloc::{AllocError, Global};

/// What is found of an HDU, and its cards.
#[derive(Drop)]
pub struct FoundCards {
    pub found: Findings,
    pub cards: CardList,
}

impl FoundCards {
    ghost use Rattle.std.specs.Prelude.{◌≡◌, ◌+◌, ◌<◌, ◌≤◌, ◌^◌, length, IfOk, IfErr, OnOk};
    ghost use Rattle.fits_stream.specs.Intake.{supply};
    ghost use Rattle.fits_passing.specs.Findings.{AreFoundCards};
    ghost use Rattle.fits_passing.specs.HduReading.{HduStops, TakesHdu};

    /// What is found of the HDU that comes next in a source, as `Kept` says, and its cards. Its data
    /// unit passes by: one piece of it is held at a time.
    pub fn read<R: Source>(
        alloc: Global,
        intake: &mut Intake,
        source: &mut R,
        primary: bool,
    ) -> Result<FoundCards, ReadHduFault>
        requires { length intake.old.ahead + intake.old.left ≤ 2 ^ 34 }
        ensures ok { IfOk result (λ it. TakesHdu (AreFoundCards
            it.found.whole it.found.of_cards.items it.found.name it.cards.header.cards) primary
            (supply (R.state source.old) intake.old) (supply (R.state source.new) intake.new)) }
        ensures err { IfErr result (HduStops primary
            (supply (R.state source.old) intake.old) (supply (R.state source.new) intake.new)) }
    {
        let Summed { head, unit } = read_summed(alloc, intake, source, primary)?;
        match found_cards_of(alloc, head, &unit) {
            Ok(it) => Ok(it),
            Err(_) => Err(ReadHduFault::Hdu(HduFault::Memory)),
        }
    }
}

// What is found of an HDU of this header and this data unit, and its cards.
#[tactic(auto, using(crate::proofs::FindingLemmas::few_codes))]
fn found_cards_of(
    alloc: Global,
    head: Described,
    unit: &PassedUnit,
) -> Result<FoundCards, AllocError>
    requires whole { IsHeader head.cards.header }
    requires small { length (header_bytes head.cards.header) ≤ 2 ^ 34 }
    requires described { shape_of (is_primary head.shape.class) head.cards.header.cards
        ≡ Ok head.shape }
    requires layout { unit.now.layout ≡ layout_of_bytes head.shape }
    ensures whole { IfOk result (λ it. it.found.whole
        ≡ whole_codes head.shape (passed_parts head.cards.header unit.now)) }
    ensures cards { IfOk result (λ it. it.found.of_cards.items
        ≡ card_findings head.shape head.cards.header.cards) }
    ensures name { IfOk result (λ it. it.found.name
        ≡ extension_name (is_primary head.shape.class) head.cards.header.cards) }
    ensures header { IfOk result (λ it. it.cards.header ≡ head.cards.header) }
{
    let Described { cards, shape, .. } = head;
    let mut header = Header::open(alloc, cards, shape)?;
    let said = sum_keywords(&mut header);
    let total = unit.total();
    let verdicts = verdicts_by(said, fold(total), whole_sum(header.total(), total));
    let mark = header.mark();
    let codes = judge_header_mark(&mark, header.shape());
    let whole = with_data_codes(codes, unit.fill_ok(), verdicts);
    let name = extension_name(&mut header);
    let of_cards = header.findings(alloc);
    let cards = header.into_cards();
    let found = Findings {
        whole,
        of_cards: of_cards?,
        name,
    };
    Ok(FoundCards { found, cards })
}
