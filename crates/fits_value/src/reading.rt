ghost use Rattle.std.specs.Prelude.{◌≡◌, ◌≤◌, length};

/// The type of a card's value (FITS Standard 4.0, section 4.2).
#[derive(Clone, Copy, PartialEq, Eq, Debug)]
pub enum ValueKind {
    /// No value at all (4.1.2.3).
    Undefined,
    Logical,
    Integer,
    Real,
    /// A complex number, of two integers or reals (4.2.5, 4.2.6).
    Complex,
    /// A character string (4.2.1).
    Str,
}

/// A part of a text: its first byte, and the byte after its last, counted from 0.
#[derive(Clone, Copy)]
pub struct Span {
    pub start: usize,
    pub end: usize,
}

impl Span {
    ghost use Rattle.fits_value.specs.Field.{part};

    /// The bytes of a text that stand here.
    pub fn part(self, text: &[u8]) -> &[u8]
        requires order { self.start ≤ self.end }
        requires within { self.end ≤ length text.now }
        ensures { result.now ≡ part text.now self }
    {
        &text[self.start..self.end]
    }
}

/// What a card says, by the places of its bytes in the card.
///
/// The span of a string has its quotes; the span of no value at all is (10, 10).
#[derive(Clone, Copy)]
pub struct Reading {
    pub kind: ValueKind,
    pub value: Span,
    /// The bytes past the slash, without the spaces at the card's end.
    pub comment: Option<Span>,
}
