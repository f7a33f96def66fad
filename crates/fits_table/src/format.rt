ghost use Rattle.std.specs.Prelude.{◌≡◌};
ghost use Rattle.fits_table.specs.Format.{format_letter, format_of};

/// How a field of an ASCII table is written (FITS Standard 4.0, section 7.2.1, table 15).
#[derive(Clone, Copy, PartialEq, Eq, Debug)]
pub enum Format {
    /// Aw: characters.
    Text,
    /// Iw: a decimal integer.
    Whole,
    /// Fw.d: a number in fixed decimal notation.
    Fixed,
    /// Ew.d: a number in exponential notation.
    Exponential,
    /// Dw.d: the same, for numbers of double precision.
    DoubleExponential,
}

/// All formats.
const FORMATS: [Format; 5] = [
    Format::Text,
    Format::Whole,
    Format::Fixed,
    Format::Exponential,
    Format::DoubleExponential,
];

/// The letter of a format.
pub(crate) fn format_letter(format: Format) -> u8
    ensures { result ≡ format_letter format }
{
    match format {
        Format::Text => b'A',
        Format::Whole => b'I',
        Format::Fixed => b'F',
        Format::Exponential => b'E',
        Format::DoubleExponential => b'D',
    }
}

/// The format that a letter names.
#[tactic(auto, unfolding(crate::specs::Format::format_of))]
pub(crate) fn format_of(letter: u8) -> Option<Format>
    ensures { result ≡ format_of letter }
{
    FORMATS
        .iter()
        .copied()
        .find(|format| format_letter(*format) == letter)
}
