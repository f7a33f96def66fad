//! How the text of TFORMn says a form (FITS Standard 4.0, sections 7.2.1, 7.3.1 and 7.3.5).
ghost use Rattle.std.specs.Prelude.{◌≡◌};
ghost use Rattle.fits_table.specs.FormSteps.{decimals_of, field_of, ascii_form, count_of, array_of, counted_form, binary_form, form_of};

use crate::descriptor::Descriptor;
use crate::element::element_of;
use crate::form::Form;
use crate::format::{Format, format_of};
use crate::numerals::{numeral, split_digits};
use crate::table_kind::TableKind;

// [. d]
fn decimals_of(format: Format, rest: &[u8]) -> Option<u64>
    ensures { result ≡ decimals_of format rest.now }
{
    match (format, rest) {
        (Format::Text | Format::Whole, []) => Some(0),
        (Format::Text | Format::Whole, _) => None,
        (_, [b'.', digits @ ..]) => numeral(digits),
        _ => None,
    }
}

// w [. d]
fn field_of(format: Format, text: &[u8]) -> Option<Form>
    ensures { result ≡ field_of format text.now }
{
    let (digits, rest) = split_digits(text);
    let width = numeral(digits)?;
    let decimals = decimals_of(format, rest)?;
    if decimals < width {
        Some(Form::Field {
            format,
            width,
            decimals,
        })
    } else {
        None
    }
}

// Aw, Iw, Fw.d, Ew.d, Dw.d
#[tactic(auto, unfolding(crate::specs::FormSteps::ascii_form))]
fn ascii_form(text: &[u8]) -> Option<Form>
    ensures { result ≡ ascii_form text.now }
{
    match text {
        [] => None,
        [letter, rest @ ..] => field_of(format_of(*letter)?, rest),
    }
}

// [r]
fn count_of(digits: &[u8]) -> Option<u64>
    ensures { result ≡ count_of digits.now }
{
    if digits.is_empty() {
        Some(1)
    } else {
        numeral(digits)
    }
}

// t, and additional characters
fn array_of(count: u64, descriptor: Descriptor, rest: &[u8]) -> Option<Form>
    ensures { result ≡ array_of count descriptor rest.now }
{
    let [letter, ..] = rest else {
        return None;
    };
    if count > 1 {
        return None;
    }
    let element = element_of(*letter)?;
    Some(Form::Array {
        count,
        descriptor,
        element,
    })
}

// Ta, Pta, Qta
fn counted_form(count: u64, rest: &[u8]) -> Option<Form>
    ensures { result ≡ counted_form count rest.now }
{
    match rest {
        [] => None,
        [b'P', rest @ ..] => array_of(count, Descriptor::Narrow, rest),
        [b'Q', rest @ ..] => array_of(count, Descriptor::Wide, rest),
        [letter, ..] => Some(Form::Elements {
            count,
            element: element_of(*letter)?,
        }),
    }
}

// rTa, rPta, rQta
#[tactic(auto, unfolding(crate::specs::FormSteps::binary_form))]
fn binary_form(text: &[u8]) -> Option<Form>
    ensures { result ≡ binary_form text.now }
{
    let (digits, rest) = split_digits(text);
    counted_form(count_of(digits)?, rest)
}

/// The form that the text of TFORMn says in a table of this kind. It takes no memory.
pub fn form_of(kind: TableKind, text: &[u8]) -> Option<Form>
    ensures { result ≡ form_of kind text.now }
{
    match kind {
        TableKind::Ascii => ascii_form(text),
        TableKind::Binary => binary_form(text),
    }
}
