//! The value of a keyword, in numbers and texts.
ghost use Rattle.std.specs.Prelude.{◌≡◌, IfOk};
ghost use Rattle.std.specs.Option.{option_copied};
ghost use Rattle.fits_c.specs.Values.{comment_by, imaginary_of, kind_of, text_of};

use crate::bytes::Bytes;
use crate::live::Live;
use crate::undone::refusal_number;
use crate::valued::Valued;
use fits_card::Name;
use fits_session::Refusal;
use fits_value::{Text, Value};
use std::alloc::{AllocError, Global};

impl Live {
    ghost use Rattle.std.specs.Prelude.{IfOk, IfErr};
    ghost use Rattle.fits_session.specs.Query.{value_in, QueryFails};
    ghost use Rattle.fits_session.specs.Session.{file_of};
    ghost use Rattle.fits_c.specs.Session.{Stays};
    ghost use Rattle.fits_c.specs.Values.{IsValueOf, ValueComesTo};

    /// Gives the value of a keyword in HDU h, and its comment.
    pub fn value(&mut self, alloc: Global, h: usize, name: &[u8; 8], valued: &mut Valued) -> u8
        ensures { ValueComesTo self.old h name.now result valued.new self.new }
    {
        match self.find(alloc, h, name) {
            Ok(found) => {
                *valued = found;
                0
            }
            Err(why) => refusal_number(why),
        }
    }

    // The same as a result.
    fn find(&mut self, alloc: Global, h: usize, name: &[u8; 8]) -> Result<Valued, Refusal>
        ensures ok { IfOk result (λ valued. IsValueOf (value_in (file_of self.old.session) h name.now)
            valued self.new) }
        ensures err { IfErr result (QueryFails (value_in (file_of self.old.session) h name.now)) }
        ensures stays { Stays self.old self.new }
    {
        let (value, comment) = self.session.value(h, &Name(*name))?;
        let text = text_of(alloc, &value)?;
        let imaginary = imaginary_of(alloc, &value)?;
        let (commented, comment) = comment_of(alloc, comment.as_ref())?;
        self.text = text;
        self.imaginary = imaginary;
        self.comment = comment;
        Ok(Valued {
            text: Bytes::of(&self.text),
            imaginary: Bytes::of(&self.imaginary),
            comment: Bytes::of(&self.comment),
            commented,
            kind: kind_of(&value),
        })
    }
}

// The number of a value's kind.
fn kind_of(value: &Value) -> u8
    ensures { result ≡ kind_of value.now }
{
    match value {
        Value::Undefined => 0,
        Value::Logical(false) => 1,
        Value::Logical(true) => 2,
        Value::Integer(_) => 3,
        Value::Real(_) => 4,
        Value::Complex(_, _) => 5,
        Value::Str(_) => 6,
    }
}

// Its text.
fn text_of(alloc: Global, value: &Value) -> Result<Vec<u8>, AllocError>
    ensures { IfOk result (λ text. text.items ≡ text_of value.now) }
{
    match value {
        Value::Undefined | Value::Logical(_) => Ok(Vec::new(alloc)),
        Value::Integer(text) | Value::Real(text) | Value::Complex(text, _) | Value::Str(text) => {
            text.as_bytes().to_vec(alloc)
        }
    }
}

// That of its imaginary part.
fn imaginary_of(alloc: Global, value: &Value) -> Result<Vec<u8>, AllocError>
    ensures { IfOk result (λ text. text.items ≡ imaginary_of value.now) }
{
    match value {
        Value::Complex(_, imaginary) => imaginary.as_bytes().to_vec(alloc),
        _ => Ok(Vec::new(alloc)),
    }
}

// 1 and that of a comment; 0 where there is none.
fn comment_of(alloc: Global, comment: Option<&Text>) -> Result<(u8, Vec<u8>), AllocError>
    ensures { IfOk result (λ told. option_copied comment.entry ≡ comment_by told.0 told.1.items) }
{
    match comment {
        Some(comment) => Ok((1, comment.as_bytes().to_vec(alloc)?)),
        None => Ok((0, Vec::new(alloc))),
    }
}
