//! Values that no field says, which are written to no card.

use fits_card::Cards;
use fits_fixtures::{add_cards, holds, name_of, same};
use fits_value::{Text, Value, WriteFault, read_field, write_value};
use std::alloc::{AllocError, Global};
use std::process::Abort;
use std::test::Fail;

// Writes a value of `KEY`.
fn write<R: Abort + AllocGlobal>(
    rt: &R,
    value: &Value,
    comment: &Option<Text>,
) -> Result<Cards, WriteFault> {
    let name = name_of("KEY");
    holds!(rt; name.is_settable());
    write_value(rt.alloc(), &name, value, comment)
}

// Whether these are the cards.
fn check_cards<R: Abort + AllocGlobal>(
    rt: &R,
    cards: &Cards,
    wanted: &str,
) -> Result<(), AllocError> {
    let mut texts = Vec::new(rt.alloc());
    add_cards(&mut texts, wanted)?;
    let mut bytes = Vec::new(rt.alloc());
    for card in cards.as_slice() {
        bytes.extend_from_slice(card.bytes())?;
    }
    holds!(rt; bytes.as_slice() == texts.as_slice(), wanted);
    Ok(())
}

/// The kinds of value that hold one text.
#[derive(Clone, Copy)]
enum Kind {
    Integer,
    Real,
    Str,
}

use Kind::{Integer, Real, Str};

/// Texts that no field says, as values of a kind.
const UNSAID: &[(&str, Kind)] = &[
    ("", Integer),
    ("1.5", Integer),
    ("5 ", Integer),
    ("1e3", Real),
    ("5", Real),
    ("a ", Str),
    ("  ", Str),
    ("\t", Str),
    ("&", Str),
];

/// Comments that no field has.
const UNSAID_COMMENTS: &[&str] = &["x ", "\t"];

#[test]
fn what_no_field_says_is_not_written(rt: HostRuntime) -> Result<(), Fail> {
    for (text, kind) in UNSAID {
        let value = value_of(rt.alloc(), text, *kind)?;
        check_unsaid(&rt, &value, &None, text);
    }
    for text in UNSAID_COMMENTS {
        let comment = Some(Text::new(text.as_bytes().to_vec(rt.alloc())?));
        check_unsaid(&rt, &Value::Undefined, &comment, text);
    }
    Ok(())
}

// Whether a value and its comment aren't written.
fn check_unsaid<R: Abort + AllocGlobal>(rt: &R, value: &Value, comment: &Option<Text>, text: &str) {
    let fault = write(rt, value, comment).err();
    same!(rt; fault, Some(WriteFault::BadValue), text);
}

// The value of a kind with this text.
fn value_of(alloc: Global, text: &str, kind: Kind) -> Result<Value, AllocError> {
    let text = Text::new(text.as_bytes().to_vec(alloc)?);
    Ok(match kind {
        Integer => Value::Integer(text),
        Real => Value::Real(text),
        Str => Value::Str(text),
    })
}

#[test]
fn refused_memory_at_a_written_value(rt: HostRuntime) -> Result<(), Fail> {
    let field = b"'it''s' / c";
    let Ok(Some((value, comment))) = read_field(rt.alloc(), field) else {
        return Ok(());
    };
    for _ in 0..2 {
        match write(&rt, &value, &comment) {
            Ok(cards) => {
                let wanted = "KEY     = 'it''s   '           / c";
                let _ = check_cards(&rt, &cards, wanted);
            }
            Err(fault) => same!(rt; fault, WriteFault::Memory),
        }
    }
    Ok(())
}
