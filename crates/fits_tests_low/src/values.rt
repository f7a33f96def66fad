//! What fields, cards and places of headers say, and where in the card.

use fits_card::Card;
use fits_fixtures::{card_of, card_of_bytes, header_of, holds, line_of, same};
use fits_value::{
    CardString, Span, Text, Value, ValueKind, card_string, link_count, link_string, long_value,
    read_value, scan_card,
};
use std::alloc::{AllocError, Global};
use std::process::Abort;
use std::test::Fail;

// The card with a value indicator and this field.
fn field_card(alloc: Global, field: &str) -> Result<Card, AllocError> {
    let mut bytes = b"KEYWORD = ".to_vec(alloc)?;
    bytes.extend_from_slice(field.as_bytes())?;
    Ok(card_of_bytes(&bytes))
}

// Whether this was read.
fn check_line<R: Abort + AllocGlobal>(
    rt: &R,
    said: Result<Option<(Value, Option<Text>)>, AllocError>,
    wanted: &str,
) -> Result<(), AllocError> {
    let line = line_of(rt.alloc(), &said?)?;
    same!(rt; line.as_slice(), wanted.as_bytes(), wanted);
    Ok(())
}

/// A card, whatever its name and its indicator, and what it says.
const CARDS: &[(&str, &str)] = &[
    ("CONTINUE  'more' / c", "string [more] / c"),
    ("HIERARCH= 5", "integer [5]"),
    ("COMMENT   7", "integer [7]"),
    ("SIMPLE  =                    T", "logical T"),
    ("NAME    =5", "undefined"),
    ("\u{7f}AME    = 5", "none"),
];

#[test]
fn a_card_says_what_its_field_does(rt: HostRuntime) -> Result<(), Fail> {
    for (text, wanted) in CARDS {
        check_line(&rt, read_value(rt.alloc(), &card_of(text)), wanted)?;
    }
    Ok(())
}

/// A field, its kind, and where its value and its comment stand in the card.
const SPANS: &[(&str, ValueKind, (usize, usize), Option<(usize, usize)>)] = &[
    ("   1.5D3 / x  ", ValueKind::Real, (13, 18), Some((20, 22))),
    ("'it''s'", ValueKind::Str, (10, 17), None),
    ("      / x", ValueKind::Undefined, (10, 10), Some((17, 19))),
    ("", ValueKind::Undefined, (10, 10), None),
    ("T/", ValueKind::Logical, (10, 11), Some((12, 12))),
    (" (1, 2) /c", ValueKind::Complex, (11, 17), Some((19, 20))),
    ("-7", ValueKind::Integer, (10, 12), None),
];

fn places(span: Span) -> (usize, usize) {
    (span.start, span.end)
}

#[test]
fn a_scan_finds_the_places_in_the_card(rt: HostRuntime) -> Result<(), Fail> {
    for (field, kind, value, comment) in SPANS {
        let card = field_card(rt.alloc(), field)?;
        let found = scan_card(&card).map(|it| (it.kind, places(it.value), it.comment.map(places)));
        same!(rt; found, Some((*kind, *value, *comment)), field);
    }
    Ok(())
}

/// Cards, what the first of them says, and how many CONTINUE cards belong to its string.
const LONG_STRINGS: &[(&str, &str, usize)] = &[
    (
        "A       = 'one &' / first|CONTINUE  'two &'|CONTINUE  'three' / last|END",
        "string [one two three] / last",
        2,
    ),
    (
        "A       = 'one&'|CONTINUE  'two&' / last|B       = 'three'|END",
        "string [onetwo&] / last",
        1,
    ),
    (
        "A       = 'one&  '|CONTINUE  '' / empty|CONTINUE  'three'|END",
        "string [one] / empty",
        1,
    ),
    (
        "A       = 'one&&'|CONTINUE  ''|CONTINUE  'three'|END",
        "string [one&]",
        1,
    ),
    (
        "A       = 'one&' / own|CONTINUE= 'two'|CONTINUE  'three'|END",
        "string [one&] / own",
        0,
    ),
    (
        "A       = 'one&'|CONTINUE  5|CONTINUE  'three'|END",
        "string [one&]",
        0,
    ),
    (
        "A       = 'one&'|CONTINU   'two'|CONTINUE  'three'|END",
        "string [one&]",
        0,
    ),
    (
        "A       = 'one'|CONTINUE  'two'|CONTINUE  'three'|END",
        "string [one]",
        0,
    ),
    (
        "A       = '&'|CONTINUE  '&'|CONTINUE  '  '|END",
        "string [ ]",
        2,
    ),
    (
        "A         'one&'|CONTINUE  'two'|CONTINUE  'three'|END",
        "string [one&]",
        0,
    ),
    (
        "CONTINUE  'one&'|CONTINUE  'two'|CONTINUE  'three'|END",
        "string [one&]",
        0,
    ),
    (
        "A       = 5 / &|CONTINUE  'two'|CONTINUE  'three'|END",
        "integer [5] / &",
        0,
    ),
    (
        "A       = 'it''s &'|CONTINUE  '''two''&'|CONTINUE  'x   '|END",
        "string [it's 'two'x]",
        2,
    ),
    (
        "A       = 1e3|CONTINUE  'two'|CONTINUE  'three'|END",
        "none",
        0,
    ),
];

#[test]
fn a_long_string_goes_on_over_its_continue_cards(rt: HostRuntime) -> Result<(), Fail> {
    for (cards, wanted, links) in LONG_STRINGS {
        check_long_string(&rt, cards, wanted, *links)?;
    }
    Ok(())
}

// Whether the first of three cards says this, over so many others.
fn check_long_string<R: Abort + AllocGlobal>(
    rt: &R,
    cards: &str,
    wanted: &str,
    links: usize,
) -> Result<(), Fail> {
    let mut header = header_of(rt.alloc(), cards)?;
    holds!(rt; header.len() == 3, cards);
    same!(rt; link_count(&mut header, 1), links, cards);
    holds!(rt; header.len() == 3, cards);
    let said = long_value(rt.alloc(), &mut header, 1);
    drop(header);
    Ok(check_line(rt, said, wanted)?)
}

/// A card, the string that it says alone, and whether that may continue another.
const STRINGS: &[(&str, Option<&str>, bool)] = &[
    ("CONTINUE  'it''s  ' / c", Some("it's"), true),
    ("CONTINUE  '   '", Some(" "), true),
    ("CONTINUE  ''", Some(""), true),
    ("CONTINUE= 'a'", Some("a"), false),
    ("CONTINUE  5", None, true),
    ("KEY     = 'a&'", Some("a&"), false),
    ("KEY     = T", None, false),
    ("KEY     = 'a", None, false),
];

#[test]
fn a_card_says_its_string_without_memory(rt: HostRuntime) {
    for (text, wanted, may_continue) in STRINGS {
        let card = card_of(text);
        check_string(&rt, card_string(&card), *wanted, text);
        check_string(
            &rt,
            link_string(&card),
            wanted.filter(|_| *may_continue),
            text,
        );
    }
}

// Whether a string is the one that is wanted.
fn check_string<R: Abort>(rt: &R, found: Option<CardString>, wanted: Option<&str>, text: &str) {
    match found {
        Some(found) => same!(rt; Some(found.as_bytes()), wanted.map(str::as_bytes), text),
        None => holds!(rt; wanted.is_none(), text),
    }
}
