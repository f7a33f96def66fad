//! How the data unit of a header is read.
ghost use Rattle.std.specs.Prelude.{◌≡◌, ◌≤◌, ◌^◌, Ok};
ghost use Rattle.fits_codes.specs.HeaderCodes.{blank_said};
ghost use Rattle.fits_header.specs.State.{ReadsUpTo};
ghost use Rattle.fits_rules.specs.Class.{is_primary};
ghost use Rattle.fits_rules.specs.Shape.{shape_of};
ghost use Rattle.fits_rules.specs.Size.{data_size};
ghost use Rattle.fits_passing.specs.Layout.{blank_number, fill_byte, layout_of, layout_of_bytes};

use fits_card::Name;
use fits_header::Header;
use fits_pixels::Layout;
use fits_rules::{Class, IntegerSaid, Shape, data_bytes, image_bits, integer_said};

const BLANK: Name = Name(*b"BLANK   ");

/// The layout of the data unit that a header describes. It takes no memory.
#[tactic(auto, using(crate::proofs::LayoutLemmas::layout_steps))]
pub fn layout_of(header: &mut Header) -> Layout
    requires small { data_size header.old.shape ≤ 2 ^ 34 }
    ensures value { result ≡ layout_of header.old.shape header.old.header.cards }
    ensures described { shape_of (is_primary header.old.shape.class) header.old.header.cards
        ≡ Ok header.old.shape }
    ensures work { ReadsUpTo header.old header.new 1 }
{
    let bytes = layout_of_bytes(header.shape());
    let Some(bits) = image_bits(header.shape()) else {
        return bytes;
    };
    let width = (bits / 8) as usize;
    Layout {
        width,
        pixels: bytes.used / width,
        blank: blank_number(header),
        ..bytes
    }
}

/// The layout of a data unit of which no pixels are read.
pub(crate) fn layout_of_bytes(shape: &Shape) -> Layout
    requires { data_size shape.now ≤ 2 ^ 34 }
    ensures { result ≡ layout_of_bytes shape.now }
{
    Layout {
        width: 0,
        pixels: 0,
        used: data_bytes(shape).unwrap_or(0) as usize,
        fill: fill_byte(shape.class),
        blank: None,
    }
}

/// The stored number of undefined pixels that BLANK says, where it says an integer of 64 bits.
pub fn blank_number(header: &mut Header) -> Option<i64>
    ensures value { result ≡ blank_number (blank_said header.old.header.cards) }
    ensures work { ReadsUpTo header.old header.new 1 }
{
    match header.lead_card(&BLANK) {
        Some(card) => match integer_said(&card) {
            IntegerSaid::Number(number) => Some(number),
            _ => None,
        },
        None => None,
    }
}

/// The byte that fills the last block of data.
pub(crate) fn fill_byte(class: Class) -> u8
    ensures { result ≡ fill_byte class }
{
    match class {
        Class::Table => b' ',
        _ => 0,
    }
}
