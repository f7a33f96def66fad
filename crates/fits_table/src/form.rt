use crate::descriptor::Descriptor;
use crate::element::{Element, elements_width};
use crate::format::Format;

/// What TFORMn says of a column.
#[derive(Clone, Copy, PartialEq, Eq, Debug)]
pub enum Form {
    /// Aw, Iw, Fw.d, Ew.d, Dw.d: a field of an ASCII table (FITS Standard 4.0, section 7.2.1).
    Field {
        format: Format,
        /// In characters.
        width: u64,
        /// Digits after the decimal point; 0 of text and integers.
        decimals: u64,
    },
    /// rT: elements of a binary table (7.3.1).
    Elements {
        count: u64,
        element: Element,
    },
    /// rPt(e), rQt(e): an array of such elements in the heap, or none (7.3.5).
    Array {
        /// 0 or 1.
        count: u64,
        descriptor: Descriptor,
        element: Element,
    },
}

impl Form {
    ghost use Rattle.std.specs.Prelude.{◌≡◌, ◌<◌, ◌^◌};
    ghost use Rattle.fits_table.specs.Form.{form_width};

    /// How many bytes of a row the column takes.
    #[tactic(auto, unfolding(crate::specs::Form::form_width))]
    pub fn width(self) -> u128
        ensures value { result ≡ form_width self }
        ensures within { result < 2 ^ 69 }
    {
        match self {
            Form::Field { width, .. } => width as u128,
            Form::Elements { count, element } => elements_width(element, count),
            Form::Array {
                count,
                descriptor,
                ..
            } => match descriptor {
                Descriptor::Narrow => 8 * (count as u128),
                Descriptor::Wide => 16 * (count as u128),
            },
        }
    }
}
