//! Cards, and the header at the front of bytes.

use fits_card::{HeaderFault, cut_header};
use fits_fixtures::{COMMENTS, add_cards, card_of, end_header, name_of, same};
use std::test::Fail;

/// A card, its name, and whether it has a value, ends a header, is text.
const CARDS: &[(&str, &str, (bool, bool, bool))] = &[
    (
        "SIMPLE  =                    T",
        "SIMPLE",
        (true, false, true),
    ),
    ("KEY     =5", "KEY", (false, false, true)),
    ("KEY     = ", "KEY", (true, false, true)),
    ("COMMENT = 5", "COMMENT", (false, false, true)),
    ("HISTORY = 5", "HISTORY", (false, false, true)),
    ("CONTINUE= 'x'", "CONTINUE", (false, false, true)),
    ("        = 5", "", (false, false, true)),
    ("END", "END", (false, true, true)),
    ("END     / the end", "END", (false, true, true)),
    ("ENDING  = '\x7f'", "ENDING", (true, false, false)),
    (" END", " END", (false, false, true)),
    ("KEY     = '\x1f'", "KEY", (true, false, false)),
    ("KEY     = ' ~'", "KEY", (true, false, true)),
    ("KEY     = '\u{e9}'", "KEY", (true, false, false)),
];

#[test]
fn a_card_has_its_parts(rt: HostRuntime) {
    for (text, name, parts) in CARDS {
        let card = card_of(text);
        same!(rt; card.name(), name_of(name), text);
        same!(rt; (card.has_value(), card.is_end(), card.is_text()), *parts, text);
    }
}

/// A name, whether it is spelled as the standard asks, and whether its card may be given a value.
const NAMES: &[(&str, (bool, bool))] = &[
    ("KEY", (true, true)),
    ("DATE-OBS", (true, true)),
    ("A_9", (true, true)),
    ("COMMENT", (true, false)),
    ("HISTORY", (true, false)),
    ("CONTINUE", (true, false)),
    ("END", (true, false)),
    ("", (true, false)),
    ("key", (false, false)),
    ("K Y", (false, false)),
    (" KEY", (false, false)),
    ("K.Y", (false, false)),
];

#[test]
fn a_name_of_capitals_and_digits_is_settable(rt: HostRuntime) {
    for (text, wanted) in NAMES {
        let name = name_of(text);
        same!(rt; (name.is_spelled(), name.is_settable()), *wanted, text);
    }
}

/// Texts of cards, what follows their block, and how many cards and bytes the header has.
const HEADERS: &[(&[&str], &str, Option<(usize, usize)>)] = &[
    (&["END"], "what follows", Some((0, 2880))),
    (&["COMMENT x|COMMENT y|END"], "", Some((2, 2880))),
    (&["END|COMMENT x|END"], "", Some((0, 2880))),
    (&[COMMENTS, "A|B|C|END"], "", Some((35, 2880))),
    (&[COMMENTS, "A|B|C|D|END"], "END", Some((36, 5760))),
    (&["COMMENT x"], "", None),
    (&["COMMENT x| END|ENDING"], "END", None),
    (&[], "END", None),
];

#[test]
fn a_header_ends_with_the_block_of_its_end(rt: HostRuntime) -> Result<(), Fail> {
    for (texts, rest, wanted) in HEADERS {
        let mut bytes = Vec::new(rt.alloc());
        for text in *texts {
            add_cards(&mut bytes, text)?;
        }
        end_header(&mut bytes)?;
        bytes.extend_from_slice(rest.as_bytes())?;
        let found = match cut_header(rt.alloc(), &bytes) {
            Ok((header, len)) => Some((header.len(), len)),
            Err(HeaderFault::NoEnd) => None,
            Err(HeaderFault::Memory) => Some((0, 0)),
        };
        same!(rt; found, *wanted, wanted);
    }
    Ok(())
}
