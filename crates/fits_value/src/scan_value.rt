//! The value at the front of a text (FITS Standard 4.0, section 4.2).
ghost use Rattle.std.specs.Prelude.{◌≡◌, ◌≤◌, ◌<◌, ◌+◌, length, IfSome};
ghost use Rattle.fits_value.specs.Scan.{closing_of, front_value};

use crate::decimal::scan_number;
use crate::reading::ValueKind;
use crate::runs::gap_len;
use crate::scan_complex::scan_pair;

// The place of the quote that closes a string, whose opening quote stands before the text.
fn closing_place(text: &[u8]) -> Option<usize>
    ensures value { result ≡ closing_of text.now }
    ensures within { IfSome result (λ place. place < length text.now) }
{
    let mut place = 0;
    while place < text.len() {
        let (_, rest) = text.split_at(place);
        let quote = place + gap_len(rest, b'\'');
        if quote == text.len() {
            return None;
        }
        if quote + 1 == text.len() || text[quote + 1] != b'\'' {
            return Some(quote);
        }
        place = quote + 2;
    }
    None
}

/// The kind of the value at the front and how many bytes it has: none of them for no value.
// Each card is scanned by it: the second call, of texts that are no values, would keep it out of line.
#[inline(always)]
pub(crate) fn scan_value(text: &[u8]) -> Option<(ValueKind, usize)>
    ensures value { result ≡ front_value text.now }
    ensures within { IfSome result (λ value. value.1 ≤ length text.now) }
{
    match text {
        [] | [b'/', ..] => Some((ValueKind::Undefined, 0)),
        [b'\'', rest @ ..] => {
            let place = closing_place(rest)?;
            Some((ValueKind::Str, place + 2))
        }
        [b'T' | b'F', ..] => Some((ValueKind::Logical, 1)),
        [b'(', rest @ ..] => {
            let pair = scan_pair(rest)?;
            Some((ValueKind::Complex, pair.len))
        }
        _ => scan_number(text),
    }
}
