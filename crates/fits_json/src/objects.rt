//! A line of output as one JSON object.
ghost use Rattle.std.specs.Prelude.{◌≡◌, IfOk, OnOk};
ghost use Rattle.serde_json.specs.View.{view, members_view};
ghost use Rattle.fits_json.specs.Columns.{form_of};
ghost use Rattle.fits_json.specs.Values.{told_field};
ghost use Rattle.fits_json.specs.Objects.{data_of_line, ReadsAsLine, with_fields, with_line};
ghost use Rattle.fits_json.specs.JsonLines.{json_line};

use crate::column::{Column, Kind};
use crate::columns::{cut, form_for};
use crate::values::{text, value_of};
use serde_json::{Map, Value, put};
use std::alloc::{AllocError, Global};

/// The JSON of a line of a file, with a line feed. Its object has the file's name, and the fields
/// of the first of these forms that the line has; where it has none the line as it is.
pub fn json_of_line(
    alloc: Global,
    name: &str,
    forms: &[&[Column]],
    line: &[u8],
) -> Result<Vec<u8>, AllocError>
    ensures value { IfOk result (λ it. it.items ≡ json_line name.now forms.now line.now) }
    ensures reads { IfOk result (λ it. ReadsAsLine name.now forms.now line.now) }
{
    let object = object_of(alloc, name, forms, line)?;
    let mut text = object.to_vec(alloc)?;
    text.push(b'\n')?;
    Ok(text)
}

fn object_of(
    alloc: Global,
    name: &str,
    forms: &[&[Column]],
    line: &[u8],
) -> Result<Value, AllocError>
    ensures { IfOk result (λ it. view it ≡ data_of_line name.now forms.now line.now) }
{
    let mut members = Map::new(alloc);
    put(
        &mut members,
        alloc,
        "file",
        Value::try_from_str(alloc, name)?,
    )?;
    put_line(alloc, forms, line, &mut members)?;
    Ok(Value::Object(members))
}

// Puts in what a line says.
fn put_line(
    alloc: Global,
    forms: &[&[Column]],
    line: &[u8],
    members: &mut Map<String, Value>,
) -> Result<(), AllocError>
    ensures { OnOk result (members_view members.new.entries
        ≡ with_line (form_of forms.now line.now) line.now (members_view members.old.entries)) }
{
    match form_for(forms, line) {
        Some(columns) => put_fields(alloc, columns, line, members),
        None => put(members, alloc, "line", text(alloc, line)?),
    }
}

// Puts in the fields of columns.
fn put_fields(
    alloc: Global,
    columns: &[Column],
    line: &[u8],
    members: &mut Map<String, Value>,
) -> Result<(), AllocError>
    ensures { OnOk result (members_view members.new.entries
        ≡ with_fields columns.now line.now (members_view members.old.entries)) }
{
    let mut rest = line;
    for column in columns {
        if let Some((field, behind)) = cut(column, rest) {
            put_field(alloc, column, field, members)?;
            rest = behind;
        }
    }
    Ok(())
}

// Puts in the field of a column, if it is told.
fn put_field(
    alloc: Global,
    column: &Column,
    field: &[u8],
    members: &mut Map<String, Value>,
) -> Result<(), AllocError>
    ensures { OnOk result (members_view members.new.entries
        ≡ told_field column.now field.now (members_view members.old.entries)) }
{
    if let Kind::Nothing = column.kind {
        return Ok(());
    }
    put(members, alloc, column.name, value_of(alloc, column, field)?)
}
