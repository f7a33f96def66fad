//! Keywords that a column can't have.
ghost use Rattle.std.specs.Prelude.{◌≡◌, None, Some};
ghost use Rattle.fits_codes.specs.Alone.{kind_said};
ghost use Rattle.fits_rules.specs.Reads.{string_said};
ghost use Rattle.fits_table.specs.Misfit.{null_suits, scale_suits, dimensions_suit, may_display, display_suits, is_defined, kind_misfits, text_misfits, has_misfit};

use crate::column_leads::ColumnLeads;
use crate::content::{Content, content_of};
use crate::dimensions::limited_volume;
use crate::display::{DISPLAYS, Display, is_display};
use crate::form::Form;
use crate::said::{kind_said, string_said};
use fits_card::Card;
use fits_value::ValueKind;

// Whether TNULLn may have a value of this type.
fn null_suits(form: Form, kind: ValueKind) -> bool
    ensures { result ≡ null_suits form kind }
{
    match form {
        Form::Field { .. } => matches!(kind, ValueKind::Undefined | ValueKind::Str),
        Form::Elements { .. } | Form::Array { .. } => {
            matches!(content_of(form), Content::Integers)
                && matches!(kind, ValueKind::Undefined | ValueKind::Integer)
        }
    }
}

// Whether TSCALn and TZEROn may have one.
fn scale_suits(form: Form, kind: ValueKind) -> bool
    ensures { result ≡ scale_suits form kind }
{
    matches!(content_of(form), Content::Integers | Content::Reals)
        && matches!(
            kind,
            ValueKind::Undefined | ValueKind::Integer | ValueKind::Real
        )
}

// Whether TDIMn may have this text.
#[tactic(auto, using(crate::proofs::MisfitLemmas::dimension_steps))]
fn dimensions_suit(form: Form, text: &[u8]) -> bool
    ensures { result ≡ dimensions_suit form text.now }
{
    match form {
        Form::Field { .. } => false,
        Form::Elements { count, .. } => match limited_volume(text) {
            Some(volume) => volume <= count as u128,
            None => false,
        },
        Form::Array { .. } => limited_volume(text).is_some(),
    }
}

// Whether values are displayed so.
fn may_display(content: Content, display: Display) -> bool
    ensures { result ≡ may_display content display }
{
    match display {
        Display::Text => matches!(content, Content::Characters),
        Display::Logical => matches!(content, Content::Logicals),
        Display::Binary | Display::Octal | Display::Hexadecimal => {
            matches!(content, Content::Integers | Content::Bits)
        }
        _ => matches!(content, Content::Integers | Content::Bits | Content::Reals),
    }
}

// Whether TDISPn may have this text.
fn display_suits(form: Form, text: &[u8]) -> bool
    ensures { result ≡ display_suits form text.now }
{
    let content = content_of(form);
    DISPLAYS.iter().any(|display| may_display(content, *display) && is_display(text, *display))
}

// Whether a value is there.
fn is_defined(kind: Option<ValueKind>) -> bool
    ensures { result ≡ is_defined kind }
{
    !matches!(kind, None | Some(ValueKind::Undefined))
}

// Whether TNULLn has a value whose type isn't suited.
fn null_misfits(form: Form, lead: &Option<Card>) -> bool
    ensures { result ≡ kind_misfits (null_suits form) lead.now }
{
    match lead {
        None => false,
        Some(card) => match kind_said(card) {
            None => false,
            Some(kind) => !null_suits(form, kind),
        },
    }
}

// Whether TSCALn or TZEROn has one.
fn scale_misfits(form: Form, lead: &Option<Card>) -> bool
    ensures { result ≡ kind_misfits (scale_suits form) lead.now }
{
    match lead {
        None => false,
        Some(card) => match kind_said(card) {
            None => false,
            Some(kind) => !scale_suits(form, kind),
        },
    }
}

// Whether TDIMn has a value that is no string, or whose text isn't suited.
fn dimensions_misfit(form: Form, lead: &Option<Card>) -> bool
    ensures { result ≡ text_misfits (dimensions_suit form) lead.now }
{
    match lead {
        None => false,
        Some(card) => match string_said(card) {
            None => is_defined(kind_said(card)),
            Some(text) => !dimensions_suit(form, text.as_bytes()),
        },
    }
}

// Whether TDISPn has one.
fn display_misfits(form: Form, lead: &Option<Card>) -> bool
    ensures { result ≡ text_misfits (display_suits form) lead.now }
{
    match lead {
        None => false,
        Some(card) => match string_said(card) {
            None => is_defined(kind_said(card)),
            Some(text) => !display_suits(form, text.as_bytes()),
        },
    }
}

/// Whether a column of this form has a TDIM, TNULL, TSCAL, TZERO or TDISP that it can't have.
pub(crate) fn has_misfit(form: Form, leads: &ColumnLeads) -> bool
    ensures { result ≡ has_misfit form leads.now }
{
    dimensions_misfit(form, &leads.dimensions)
        || display_misfits(form, &leads.display)
        || null_misfits(form, &leads.null)
        || scale_misfits(form, &leads.scale)
        || scale_misfits(form, &leads.zero)
}
