//! The fields of a line, each after a tab.
ghost use Rattle.std.specs.Prelude.{◌≡◌, ◌++◌, [], IfOk, OnOk};
ghost use Rattle.fits_keys.specs.Keys.{bare_text, field_of, fields_of, heading_line};

use fits_card::{CardList, Name};
use fits_rules::lead;
use fits_tell::push_both;
use fits_value::{Value, long_value, trimmed_len};
use std::alloc::{AllocError, Global};

/// The line above those of files: `file`, and the names that are asked for, each after a tab and
/// without the spaces at its end.
#[tactic(auto, using(crate::proofs::FieldLemmas::field_steps))]
pub fn heading(alloc: Global, names: &[Name]) -> Result<Vec<u8>, AllocError>
    ensures { IfOk result (λ line. line.items ≡ heading_line names.now) }
{
    let mut line = Vec::new(alloc);
    line.extend_from_slice(b"file")?;
    for name in names {
        let (text, _) = name.0.split_at(trimmed_len(&name.0));
        push_both(&mut line, b"\t", text)?;
    }
    line.push(b'\n')?;
    Ok(line)
}

/// Adds the fields of names in a header.
#[tactic(auto, using(crate::proofs::FieldLemmas::field_steps))]
pub(crate) fn push_fields(
    alloc: Global,
    line: &mut Vec<u8>,
    cards: &mut CardList,
    names: &[Name],
) -> Result<(), AllocError>
    ensures { OnOk result (line.new.items
        ≡ line.old.items ++ fields_of cards.old.header.cards names.now) }
{
    for name in names {
        line.push(b'\t')?;
        push_field(alloc, line, cards, name)?;
    }
    Ok(())
}

/// Adds those of a header that isn't there: they are empty.
#[tactic(auto, using(crate::proofs::FieldLemmas::field_steps))]
pub(crate) fn push_empty(line: &mut Vec<u8>, names: &[Name]) -> Result<(), AllocError>
    ensures { OnOk result (line.new.items ≡ line.old.items ++ fields_of [] names.now) }
{
    for _name in names {
        line.push(b'\t')?;
    }
    Ok(())
}

// Adds the field of a name: what its lead says, with the CONTINUE cards of its string.
#[tactic(auto, using(crate::proofs::FieldLemmas::field_steps))]
fn push_field(
    alloc: Global,
    line: &mut Vec<u8>,
    cards: &mut CardList,
    name: &Name,
) -> Result<(), AllocError>
    ensures text { OnOk result (line.new.items
        ≡ line.old.items ++ field_of cards.old.header.cards name.now) }
    ensures same { cards.new.header ≡ cards.old.header }
{
    let Some(place) = lead(cards, name) else {
        return Ok(());
    };
    match long_value(alloc, cards, place)? {
        Some((value, _)) => push_bare(line, &value),
        None => Ok(()),
    }
}

// Adds a value by its characters alone.
fn push_bare(line: &mut Vec<u8>, value: &Value) -> Result<(), AllocError>
    ensures { OnOk result (line.new.items ≡ line.old.items ++ bare_text value.now) }
{
    match value {
        Value::Undefined => Ok(()),
        Value::Logical(true) => line.extend_from_slice(b"T"),
        Value::Logical(false) => line.extend_from_slice(b"F"),
        Value::Integer(text) | Value::Real(text) | Value::Str(text) => {
            line.extend_from_slice(text.as_bytes())
        }
        Value::Complex(real, imaginary) => {
            push_both(line, b"(", real.as_bytes())?;
            push_both(line, b", ", imaginary.as_bytes())?;
            line.extend_from_slice(b")")
        }
    }
}
