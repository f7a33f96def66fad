//! What the index of a header's keywords answers.

use fits_card::Name;
use fits_codes::Code;
use fits_fixtures::{P0, header_of, holds, name_of, same};
use fits_header::{Counts, Header, KeyIndex};
use fits_rules::shape;
use std::alloc::Global;
use std::process::Abort;
use std::test::Fail;

/// Eight cards.
const CARDS: &str =
    "SIMPLE  = T|BITPIX  = 8|NAXIS   = 0|KEY|COMMENT = 1|KEY     = 1|COMMENT|KEY     = 2|END";

/// A name, the places of its cards, and that of its lead.
type Places<'a> = (&'a str, &'a [usize], Option<usize>);

const PLACES: &[Places<'static>] = &[
    ("KEY     ", &[4, 6, 8], Some(6)),
    ("COMMENT ", &[5, 7], None),
    ("SIMPLE  ", &[1], Some(1)),
    ("KEYS    ", &[], None),
    ("key     ", &[], None),
];

/// Whether an index answers what is wanted.
fn check_places<R: Abort>(
    rt: &R,
    alloc: Global,
    index: &KeyIndex,
    wanted: &Places<'_>,
) -> Result<(), Fail> {
    let (name, places, lead) = wanted;
    let found = index.positions(alloc, &name_of(name))?;
    same!(rt; found.as_slice(), *places, name);
    same!(rt; index.lead(&name_of(name)), *lead, name);
    Ok(())
}

#[test]
fn a_name_has_the_places_of_its_cards(rt: HostRuntime) -> Result<(), Fail> {
    let mut header = header_of(rt.alloc(), CARDS)?;
    let index = KeyIndex::open(rt.alloc(), &mut header)?;
    for wanted in PLACES {
        check_places(&rt, rt.alloc(), &index, wanted)?;
    }
    Ok(())
}

/// The cards of a header, and their names.
const NAMES: &[(&str, &[&str])] = &[
    (
        CARDS,
        &["BITPIX  ", "COMMENT ", "KEY     ", "NAXIS   ", "SIMPLE  "],
    ),
    (P0, &["BITPIX  ", "NAXIS   ", "SIMPLE  "]),
    (
        "SIMPLE|BITPIX  = 8|NAXIS   = 0|b| |B|AB|A|A|END",
        &[
            "        ", "A       ", "AB      ", "B       ", "BITPIX  ", "NAXIS   ", "SIMPLE  ",
            "b       ",
        ],
    ),
];

#[test]
fn a_header_has_each_name_once_ascending(rt: HostRuntime) -> Result<(), Fail> {
    for (cards, wanted) in NAMES {
        let header = opened(rt.alloc(), cards)?;
        check_names(&rt, &header.names(rt.alloc())?, wanted);
    }
    Ok(())
}

// Whether these are the names of these texts.
fn check_names<R: Abort>(rt: &R, names: &[Name], wanted: &[&str]) {
    same!(rt; names.len(), wanted.len(), wanted);
    for (name, text) in names.iter().zip(wanted) {
        same!(rt; *name, name_of(text), wanted);
    }
}

/// A header, and of each card whether it is a link and its code, if it has one.
const JUDGED: &str = "SIMPLE  =                    T|BITPIX  =                    8|\
    NAXIS   =                    0|KEY     = 'a&'|CONTINUE  'b&'|CONTINUE  'c'|CONTINUE  'd'|KEY     =2|KEY     = 3|END";

const CARD_CODES: &[(bool, Option<Code>)] = &[
    (false, None),
    (false, None),
    (false, None),
    (false, None),
    (true, None),
    (true, None),
    (false, Some(Code::StrayContinue)),
    (false, Some(Code::NoSpaceAfterEquals)),
    (false, Some(Code::KeywordRepeated)),
];

/// The header that has these cards.
#[tactic(auto, using(fits_rules::proofs::LawLemmas::laws))]
fn opened(alloc: Global, cards: &str) -> Result<Header, Fail> {
    let mut list = header_of(alloc, cards)?;
    let found = shape(alloc, &mut list, cards.starts_with("SIMPLE"))?;
    Ok(Header::open(alloc, list, found)?)
}

#[test]
fn each_card_has_its_codes(rt: HostRuntime) -> Result<(), Fail> {
    let mut header = opened(rt.alloc(), JUDGED)?;
    same!(rt; header.len(), CARD_CODES.len());
    for (index, (is_link, code)) in CARD_CODES.iter().enumerate() {
        check_card(&rt, &mut header, index, *is_link, *code);
    }
    Ok(())
}

// Whether the card after so many is a link or not, and has this code first, if it has one.
fn check_card<R: Abort>(
    rt: &R,
    header: &mut Header,
    index: usize,
    is_link: bool,
    code: Option<Code>,
) {
    if index < header.len() {
        same!(rt; header.is_link(index + 1), is_link, index);
        let codes = header.codes(index + 1);
        let found = codes.as_slice().first().map(|code| code.label());
        same!(rt; found, code.map(Code::label), index);
    }
}

/// The header that has these cards, if there is memory for it.
#[tactic(auto, using(fits_rules::proofs::LawLemmas::laws))]
fn opened_if_any(alloc: Global, cards: &str) -> Option<Header> {
    let Ok(mut list) = header_of(alloc, cards) else {
        return None;
    };
    let Ok(found) = shape(alloc, &mut list, cards.starts_with("SIMPLE")) else {
        return None;
    };
    Header::open(alloc, list, found).ok()
}

// Whether a header is as it was opened.
#[tactic(auto, using(fits_header::proofs::TotalLemmas::header_steps))]
fn check_judged<R: Abort>(rt: &R, header: &mut Header) {
    for (index, (is_link, code)) in CARD_CODES.iter().enumerate() {
        check_card(rt, header, index, *is_link, *code);
    }
    same!(rt; header.lead(&name_of("KEY     ")), Some(4));
    let is_judged = header.len() == CARD_CODES.len();
    holds!(rt; is_judged);
    same!(rt; header.counts(), Counts { errors: 0, warnings: 3 });
    same!(rt; header.total(), 402_558_622_878);
}

#[test]
fn refused_memory_at_the_room_of_a_header(rt: HostRuntime) {
    let Some(mut header) = opened_if_any(rt.alloc(), JUDGED) else {
        return;
    };
    for additional in [1usize, 40, 1000] {
        let _ = header.reserve(additional);
        check_judged(&rt, &mut header);
    }
}

#[test]
#[tactic(auto, using(fits_header::proofs::TotalLemmas::header_steps))]
fn a_header_has_the_total_of_its_words(rt: HostRuntime) -> Result<(), Fail> {
    let header = opened(rt.alloc(), CARDS)?;
    let is_small = header.len() < 1000;
    holds!(rt; is_small);
    // 720 words of spaces have 388062927360, and what isn't a space adds the rest.
    same!(rt; header.total(), 400_698_905_827);
    Ok(())
}
