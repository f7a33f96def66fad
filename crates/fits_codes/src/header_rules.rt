//! The codes of a header as a whole.
ghost use Rattle.std.specs.Prelude.{◌≡◌};
ghost use Rattle.fits_codes.specs.HeaderCodes.{has_counts_elsewhere, has_image_counts, is_simple_false, has_blank_with_reals, is_stored, is_out_of_range, is_outside, header_judged};

use crate::code::Code;
use crate::code_set::CodeSet;
use crate::header_mark::HeaderMark;
use fits_rules::{Class, IntegerSaid, Shape, image_bits};

// Whether PCOUNT and GCOUNT of an extension don't follow its axes.
fn has_counts_elsewhere(mark: &HeaderMark, shape: &Shape) -> bool
    ensures { result ≡ has_counts_elsewhere mark.now shape.now }
{
    !shape.class.is_primary() && !mark.counts_in_place
}

// Whether an IMAGE extension has other counts than 0 and 1.
fn has_image_counts(class: Class, pcount: u64, gcount: u64) -> bool
    ensures { result ≡ has_image_counts class pcount gcount }
{
    matches!(class, Class::Image) && !(pcount == 0 && gcount == 1)
}

// Whether the primary HDU says that the file doesn't conform.
fn is_simple_false(mark: &HeaderMark, shape: &Shape) -> bool
    ensures { result ≡ is_simple_false mark.now shape.now }
{
    shape.class.is_primary() && mark.begins_false
}

// Whether BLANK has a value, and the pixels are reals.
fn has_blank_with_reals(mark: &HeaderMark, shape: &Shape) -> bool
    ensures { result ≡ has_blank_with_reals mark.now shape.now }
{
    shape.bitpix < 0 && mark.blank.is_some()
}

// Whether an array of integers of so many bits can hold the number.
fn is_stored(bits: u64, number: i64) -> bool
    ensures { result ≡ is_stored bits number }
{
    match bits {
        8 => u8::try_from(number).is_ok(),
        16 => i16::try_from(number).is_ok(),
        32 => i32::try_from(number).is_ok(),
        _ => true,
    }
}

// Whether it is an integer that an array of so many bits can't hold.
fn is_out_of_range(bits: u64, said: IntegerSaid) -> bool
    ensures { result ≡ is_out_of_range bits said }
{
    match said {
        IntegerSaid::Nothing => false,
        IntegerSaid::TooLarge => true,
        IntegerSaid::Number(number) => !is_stored(bits, number),
    }
}

// Whether both are there, and it is such an integer.
fn is_outside(bits: Option<u64>, said: Option<IntegerSaid>) -> bool
    ensures { result ≡ is_outside bits said }
{
    match (bits, said) {
        (Some(bits), Some(said)) => is_out_of_range(bits, said),
        _ => false,
    }
}

/// The codes of a header by its mark: exactly those whose fact holds. It takes no memory and reads
/// no card.
pub fn judge_header_mark(mark: &HeaderMark, shape: &Shape) -> CodeSet
    ensures { result ≡ header_judged mark.now shape.now }
{
    let has_counts = has_image_counts(shape.class, shape.pcount, shape.gcount);
    let mut found = CodeSet::new();
    found.push_where(Code::EndNotBlank, !mark.end_blank);
    found.push_where(Code::FillNotSpaces, !mark.fill_blank);
    found.push_where(Code::CountsOutOfPlace, has_counts_elsewhere(mark, shape));
    found.push_where(Code::ImageCountsNotPlain, has_counts);
    found.push_where(Code::WrongKindOfHdu, mark.has_other_first);
    found.push_where(Code::SimpleIsFalse, is_simple_false(mark, shape));
    found.push_where(Code::BlankWithReals, has_blank_with_reals(mark, shape));
    found.push_where(
        Code::BlankOutOfRange,
        is_outside(image_bits(shape), mark.blank),
    );
    found
}
