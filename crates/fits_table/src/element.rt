ghost use Rattle.std.specs.Prelude.{◌≡◌, ◌<◌, ◌^◌};
ghost use Rattle.fits_table.specs.Element.{element_letter, element_of, elements_width};

/// The type of an element of a binary table's column (FITS Standard 4.0, section 7.3.1, table 18).
#[derive(Clone, Copy, PartialEq, Eq, Debug)]
pub enum Element {
    /// L
    Logical,
    /// X
    Bit,
    /// B
    Byte,
    /// I
    Integer16,
    /// J
    Integer32,
    /// K
    Integer64,
    /// A
    Character,
    /// E
    Single,
    /// D
    Double,
    /// C
    SingleComplex,
    /// M
    DoubleComplex,
}

/// All types.
const ELEMENTS: [Element; 11] = [
    Element::Logical,
    Element::Bit,
    Element::Byte,
    Element::Integer16,
    Element::Integer32,
    Element::Integer64,
    Element::Character,
    Element::Single,
    Element::Double,
    Element::SingleComplex,
    Element::DoubleComplex,
];

/// The letter of a type.
pub(crate) fn element_letter(element: Element) -> u8
    ensures { result ≡ element_letter element }
{
    match element {
        Element::Logical => b'L',
        Element::Bit => b'X',
        Element::Byte => b'B',
        Element::Integer16 => b'I',
        Element::Integer32 => b'J',
        Element::Integer64 => b'K',
        Element::Character => b'A',
        Element::Single => b'E',
        Element::Double => b'D',
        Element::SingleComplex => b'C',
        Element::DoubleComplex => b'M',
    }
}

/// The type that a letter names.
#[tactic(auto, unfolding(crate::specs::Element::element_of))]
pub(crate) fn element_of(letter: u8) -> Option<Element>
    ensures { result ≡ element_of letter }
{
    ELEMENTS
        .iter()
        .copied()
        .find(|element| element_letter(*element) == letter)
}

/// How many bytes of a row so many elements take.
pub(crate) fn elements_width(element: Element, count: u64) -> u128
    ensures value { result ≡ elements_width element count }
    ensures within { result < 2 ^ 69 }
{
    let count = count as u128;
    match element {
        Element::Bit => (count + 7) / 8,
        Element::Logical | Element::Byte | Element::Character => count,
        Element::Integer16 => 2 * count,
        Element::Integer32 | Element::Single => 4 * count,
        Element::Integer64 | Element::Double | Element::SingleComplex => 8 * count,
        Element::DoubleComplex => 16 * count,
    }
}
