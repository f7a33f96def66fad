//! What DATASUM and CHECKSUM say, and whether it is so.
ghost use Rattle.std.specs.Prelude.{◌≡◌, ◌≤◌, ◌+◌, ◌*◌, length};
ghost use Rattle.std.specs.List.{list_all, prefix_len};
ghost use Rattle.fits_header.specs.State.{ReadsUpTo};
ghost use Rattle.fits_rules.specs.Reads.{value_said};
ghost use Rattle.fits_sum.specs.OnesComplement.{ones_complement};
ghost use Rattle.fits_value.specs.Number.{value_of};
ghost use Rattle.fits_value.specs.Spelling.{is_digit, is_space, IsDigits};
ghost use Rattle.fits_passing.specs.Sums.{checksum_verdict, datasum_verdict, right_if, sum_keywords, sum_of_lead, sum_of_number, sum_of_text, sum_of_value, verdicts_by};

use crate::keywords::SumKeywords;
use crate::sum_said::SumSaid;
use crate::verdict::Verdict;
use crate::verdicts::Verdicts;
use fits_card::{Card, CardList, Name};
use fits_header::Header;
use fits_sum::fold;
use fits_value::{ValueKind, card_string, scan_card};

pub const DATASUM: Name = Name(*b"DATASUM ");

pub const CHECKSUM: Name = Name(*b"CHECKSUM");

/// What the leads of DATASUM and CHECKSUM say. It takes no memory.
#[tactic(auto, unfolding(crate::specs::Sums::sum_keywords))]
pub fn sum_keywords(header: &mut Header) -> SumKeywords
    ensures value { result ≡ sum_keywords header.old.header.cards }
    ensures work { ReadsUpTo header.old header.new 2 }
{
    let datasum = header.lead_card(&DATASUM);
    let checksum = header.lead_card(&CHECKSUM);
    SumKeywords {
        datasum: sum_of_lead(datasum),
        checksum: sum_of_lead(checksum),
    }
}

/// The same of the cards of a header, by two searches among them.
#[tactic(auto, unfolding(crate::specs::Sums::sum_keywords))]
pub(crate) fn sum_keywords_in(cards: &mut CardList) -> SumKeywords
    ensures value { result ≡ sum_keywords cards.old.header.cards }
    ensures header { cards.new.header ≡ cards.old.header }
    ensures work { cards.new.reads ≤ cards.old.reads + 2 * (length cards.old.header.cards + 1) }
{
    let datasum = fits_rules::lead_card(cards, &DATASUM);
    let checksum = fits_rules::lead_card(cards, &CHECKSUM);
    SumKeywords {
        datasum: sum_of_lead(datasum),
        checksum: sum_of_lead(checksum),
    }
}

// What a lead says of a sum, if there is one.
fn sum_of_lead(lead: Option<Card>) -> SumSaid
    ensures { result ≡ sum_of_lead lead }
{
    match lead {
        Some(card) => sum_of_card(&card),
        None => SumSaid::Nothing,
    }
}

// What the value of a card says of a sum.
#[tactic(auto, using(crate::proofs::SumLemmas::card_steps))]
fn sum_of_card(card: &Card) -> SumSaid
    ensures { result ≡ sum_of_value (value_said card.now) }
{
    if !card.has_value() {
        return SumSaid::Other;
    }
    if let Some(text) = card_string(card) {
        return sum_of_text(text.as_bytes());
    }
    let Some(reading) = scan_card(card) else {
        return SumSaid::Other;
    };
    match reading.kind {
        ValueKind::Undefined => SumSaid::Nothing,
        _ => SumSaid::Other,
    }
}

// What a text says of a sum.
fn sum_of_text(text: &[u8]) -> SumSaid
    ensures { result ≡ sum_of_text text.now }
{
    if are_spaces(text) {
        return SumSaid::Nothing;
    }
    let (_, digits) = text.split_at(spaces_len(text));
    if are_digits(digits) {
        sum_of_digits(digits)
    } else {
        SumSaid::Other
    }
}

// Whether each byte is a space.
fn are_spaces(text: &[u8]) -> bool
    ensures { result ≡ list_all is_space text.now }
{
    text.iter().all(|byte| *byte == b' ')
}

// Whether each byte is a digit.
fn are_digits(text: &[u8]) -> bool
    ensures { result ≡ list_all is_digit text.now }
{
    text.iter().all(|byte| b'0' <= *byte && *byte <= b'9')
}

// How many spaces a text begins with.
fn spaces_len(text: &[u8]) -> usize
    ensures value { result ≡ prefix_len is_space text.now }
    ensures within { result ≤ length text.now }
{
    for (i, byte) in text.iter().enumerate() {
        if *byte != b' ' {
            return i;
        }
    }
    text.len()
}

// The sum that digits stand for. Zeros may come first.
#[tactic(auto, using(crate::proofs::SumLemmas::digit_steps))]
fn sum_of_digits(digits: &[u8]) -> SumSaid
    requires { IsDigits digits.now }
    ensures { result ≡ sum_of_number (value_of digits.now) }
{
    let mut number = 0u64;
    for digit in digits {
        number = number * 10 + u64::from(*digit - b'0');
        if number > u64::from(u32::MAX) {
            return SumSaid::Other;
        }
    }
    SumSaid::Number(number as u32)
}

/// The sum of a header and a data unit together, by the totals of their words. No total is so large
/// that it can't be added.
#[tactic(auto, using(crate::proofs::SumLemmas::total_steps))]
pub fn whole_sum(header: u64, unit: u64) -> u32
    ensures { result ≡ ones_complement (header + unit) }
{
    fold(u64::from(fold(header)) + u64::from(fold(unit)))
}

/// Both verdicts, by what the keywords say, the sum of the data unit and that of the HDU.
pub fn verdicts_by(said: SumKeywords, unit: u32, whole: u32) -> Verdicts
    ensures { result ≡ verdicts_by said unit whole }
{
    Verdicts {
        datasum: datasum_verdict(said.datasum, unit),
        checksum: checksum_verdict(said.checksum, whole),
    }
}

// Whether DATASUM says the sum of the data unit.
fn datasum_verdict(said: SumSaid, sum: u32) -> Verdict
    ensures { result ≡ datasum_verdict said sum }
{
    match said {
        SumSaid::Nothing => Verdict::Missing,
        SumSaid::Number(number) => right_if(number == sum),
        SumSaid::Other => Verdict::Wrong,
    }
}

// Whether CHECKSUM, whatever its text, makes the sum of the HDU all ones.
fn checksum_verdict(said: SumSaid, sum: u32) -> Verdict
    ensures { result ≡ checksum_verdict said sum }
{
    match said {
        SumSaid::Nothing => Verdict::Missing,
        _ => right_if(sum == u32::MAX),
    }
}

// The verdict on what is so or isn't.
fn right_if(holds: bool) -> Verdict
    ensures { result ≡ right_if holds }
{
    if holds {
        Verdict::Right
    } else {
        Verdict::Wrong
    }
}
