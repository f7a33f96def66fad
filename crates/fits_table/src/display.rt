ghost use Rattle.std.specs.Prelude.{◌≡◌, take, drop};
ghost use Rattle.fits_table.specs.Display.{display_letters, is_point, is_exponent, is_point_exponent, is_numeral, may_follow, has_width, is_display};

use crate::numerals::{numeral, split_digits};

/// How the values of a column are displayed (FITS Standard 4.0, tables 16 and 20).
#[derive(Clone, Copy)]
pub enum Display {
    /// Aw
    Text,
    /// Lw
    Logical,
    /// Iw.m
    Whole,
    /// Bw.m
    Binary,
    /// Ow.m
    Octal,
    /// Zw.m
    Hexadecimal,
    /// Fw.d
    Fixed,
    /// Ew.dEe
    Exponential,
    /// ENw.d
    Engineering,
    /// ESw.d
    Scientific,
    /// Gw.dEe
    General,
    /// Dw.dEe
    Double,
}

/// All ways of display.
pub(crate) const DISPLAYS: [Display; 12] = [
    Display::Text,
    Display::Logical,
    Display::Whole,
    Display::Binary,
    Display::Octal,
    Display::Hexadecimal,
    Display::Fixed,
    Display::Exponential,
    Display::Engineering,
    Display::Scientific,
    Display::General,
    Display::Double,
];

// The letters of a way of display.
fn letters_of(display: Display) -> &'static [u8]
    ensures { result.now ≡ display_letters display }
{
    match display {
        Display::Text => b"A",
        Display::Logical => b"L",
        Display::Whole => b"I",
        Display::Binary => b"B",
        Display::Octal => b"O",
        Display::Hexadecimal => b"Z",
        Display::Fixed => b"F",
        Display::Exponential => b"E",
        Display::Engineering => b"EN",
        Display::Scientific => b"ES",
        Display::General => b"G",
        Display::Double => b"D",
    }
}

// Whether the text is a number.
fn is_numeral(text: &[u8]) -> bool
    ensures { result ≡ is_numeral text.now }
{
    numeral(text).is_some()
}

// . digits
fn is_point(text: &[u8]) -> bool
    ensures { result ≡ is_point text.now }
{
    match text {
        [b'.', digits @ ..] => is_numeral(digits),
        _ => false,
    }
}

// [E digits]
fn is_exponent(text: &[u8]) -> bool
    ensures { result ≡ is_exponent text.now }
{
    match text {
        [] => true,
        [b'E', digits @ ..] => is_numeral(digits),
        _ => false,
    }
}

// . digits [E digits]
fn is_point_exponent(text: &[u8]) -> bool
    ensures { result ≡ is_point_exponent text.now }
{
    let [b'.', text @ ..] = text else {
        return false;
    };
    let (digits, rest) = split_digits(text);
    is_numeral(digits) && is_exponent(rest)
}

// Whether the text may follow the width.
fn may_follow(display: Display, rest: &[u8]) -> bool
    ensures { result ≡ may_follow display rest.now }
{
    match display {
        Display::Text | Display::Logical => rest.is_empty(),
        Display::Whole | Display::Binary | Display::Octal | Display::Hexadecimal => {
            rest.is_empty() || is_point(rest)
        }
        Display::Fixed | Display::Engineering | Display::Scientific => is_point(rest),
        Display::Exponential | Display::General | Display::Double => is_point_exponent(rest),
    }
}

// Whether the text is a width, and what may follow it.
fn has_width(display: Display, text: &[u8]) -> bool
    ensures { result ≡ has_width display text.now }
{
    let (width, rest) = split_digits(text);
    is_numeral(width) && may_follow(display, rest)
}

// The text before a place, or all of it, and the rest.
fn split(text: &[u8], place: usize) -> (&[u8], &[u8])
    ensures front { result.0.now ≡ take place text.now }
    ensures back { result.1.now ≡ drop place text.now }
{
    text.split_at(place.min(text.len()))
}

/// Whether a text is spelled as this way of display asks.
#[tactic(auto, unfolding(crate::specs::Display::is_display))]
pub(crate) fn is_display(text: &[u8], display: Display) -> bool
    ensures { result ≡ is_display text.now display }
{
    let letters = letters_of(display);
    let (front, rest) = split(text, letters.len());
    front == letters && has_width(display, rest)
}
