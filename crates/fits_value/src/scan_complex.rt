//! Complex numbers (FITS Standard 4.0, sections 4.2.5 and 4.2.6).
ghost use Rattle.std.specs.Prelude.{◌≡◌, ◌+◌, ◌≤◌, length, IfSome};
ghost use Rattle.fits_value.specs.Scan.{element_of, closed_of, comma_of, pair_of, IsOrdered};

use crate::decimal::scan_number;
use crate::reading::Span;
use crate::spaces::spaces_len;

/// A number at the front of a text: where it stands, and how far it goes with the spaces round it.
#[derive(Clone, Copy)]
pub(crate) struct Element {
    pub(crate) start: usize,
    pub(crate) end: usize,
    pub(crate) len: usize,
}

/// A complex number at the front of a text: where its two parts stand, and how many bytes it has.
#[derive(Clone, Copy)]
pub(crate) struct Pair {
    pub(crate) real: Span,
    pub(crate) imaginary: Span,
    pub(crate) len: usize,
}

// spaces number spaces
#[tactic(auto, unfolding(crate::specs::Scan::element_of))]
fn scan_element(text: &[u8]) -> Option<Element>
    ensures value { result ≡ element_of text.now }
    ensures within { IfSome result (λ element. element.len ≤ length text.now) }
    ensures order { IfSome result (λ element. element.end ≤ element.len) }
    ensures begins { IfSome result (λ element. element.start ≤ element.end) }
{
    let start = spaces_len(text);
    let (_, body) = text.split_at(start);
    let (_, size) = scan_number(body)?;
    let (_, rest) = body.split_at(size);
    let end = start + size;
    Some(Element {
        start,
        end,
        len: end + spaces_len(rest),
    })
}

// )
fn closed(real: Element, imaginary: Element, text: &[u8]) -> Option<Pair>
    requires first { real.start ≤ real.end }
    requires first_end { real.end ≤ real.len }
    requires second { imaginary.start ≤ imaginary.end }
    requires second_end { imaginary.end ≤ imaginary.len }
    requires room { 2 + real.len + imaginary.len + length text.now ≤ usize.MAX }
    ensures value { result ≡ closed_of real imaginary text.now }
    ensures within { IfSome result (λ pair.
        pair.len ≤ 2 + real.len + imaginary.len + length text.now) }
    ensures order { IfSome result IsOrdered }
{
    match text {
        [b')', ..] => Some(Pair {
            real: Span {
                start: 1 + real.start,
                end: 1 + real.end,
            },
            imaginary: Span {
                start: 2 + real.len + imaginary.start,
                end: 2 + real.len + imaginary.end,
            },
            len: 3 + real.len + imaginary.len,
        }),
        _ => None,
    }
}

// , spaces number spaces )
fn scan_second(real: Element, text: &[u8]) -> Option<Pair>
    requires first { real.start ≤ real.end }
    requires first_end { real.end ≤ real.len }
    requires room { 1 + real.len + length text.now ≤ usize.MAX }
    ensures value { result ≡ comma_of real text.now }
    ensures within { IfSome result (λ pair. pair.len ≤ 1 + real.len + length text.now) }
    ensures order { IfSome result IsOrdered }
{
    match text {
        [b',', rest @ ..] => {
            let imaginary = scan_element(rest)?;
            let (_, last) = rest.split_at(imaginary.len);
            closed(real, imaginary, last)
        }
        _ => None,
    }
}

/// The complex number whose opening bracket stands before this text.
// number , number )
#[tactic(auto, unfolding(crate::specs::Scan::pair_of))]
pub(crate) fn scan_pair(text: &[u8]) -> Option<Pair>
    requires room { 1 + length text.now ≤ usize.MAX }
    ensures value { result ≡ pair_of text.now }
    ensures within { IfSome result (λ pair. pair.len ≤ 1 + length text.now) }
    ensures order { IfSome result IsOrdered }
{
    let real = scan_element(text)?;
    let (_, rest) = text.split_at(real.len);
    scan_second(real, rest)
}
