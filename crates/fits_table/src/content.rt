ghost use Rattle.std.specs.Prelude.{◌≡◌};
ghost use Rattle.fits_table.specs.Content.{format_content, element_content, content_of};

use crate::element::Element;
use crate::form::Form;
use crate::format::Format;

/// What stands in a column, as far as rules of its keywords ask.
#[derive(Clone, Copy)]
pub enum Content {
    Characters,
    Logicals,
    Bits,
    Integers,
    /// Complex numbers too, each of two reals.
    Reals,
}

// What a field of this format holds.
fn format_content(format: Format) -> Content
    ensures { result ≡ format_content format }
{
    match format {
        Format::Text => Content::Characters,
        Format::Whole => Content::Integers,
        Format::Fixed | Format::Exponential | Format::DoubleExponential => Content::Reals,
    }
}

// What elements of this type are.
fn element_content(element: Element) -> Content
    ensures { result ≡ element_content element }
{
    match element {
        Element::Logical => Content::Logicals,
        Element::Bit => Content::Bits,
        Element::Byte | Element::Integer16 | Element::Integer32 | Element::Integer64 => {
            Content::Integers
        }
        Element::Character => Content::Characters,
        Element::Single | Element::Double | Element::SingleComplex | Element::DoubleComplex => {
            Content::Reals
        }
    }
}

/// What a column of this form holds, in its rows or in the heap.
pub(crate) fn content_of(form: Form) -> Content
    ensures { result ≡ content_of form }
{
    match form {
        Form::Field { format, .. } => format_content(format),
        Form::Elements { element, .. } | Form::Array { element, .. } => element_content(element),
    }
}
