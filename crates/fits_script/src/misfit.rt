use fits_value::{Excerpt, Unreadable};

/// Why a line says no command, for whoever wrote it. Bytes of the line count from 1.
#[derive(Drop)]
pub enum Misfit<'a> {
    /// It ends in a carriage return.
    CarriageReturn,
    /// A space that separates no words stands at this byte.
    SpaceTooMany { byte: usize },
    /// The first word is a command's, but not in lower case.
    CapitalVerb(Excerpt<'a>),
    /// The first word is no command's.
    NoVerb(Excerpt<'a>),
    /// It ends where a word is wanted.
    WordMissing,
    /// This word follows where it would end.
    WordTooMany(Excerpt<'a>),
    /// This isn't the number of an HDU.
    NotHdu(Excerpt<'a>),
    /// This isn't a place.
    NotPlace(Excerpt<'a>),
    /// A keyword name has more than 8 characters (FITS Standard 4.0, section 4.1.2.1).
    LongName,
    /// A card has so many bytes, more than 80.
    LongCard { bytes: usize },
    /// What follows the keyword name says no value and comment.
    NotValue(Unreadable<'a>),
    /// This isn't `lo:hi` for each axis.
    NotRectangle(Excerpt<'a>),
    /// This isn't a value of a pixel.
    NotPixelValue(Excerpt<'a>),
    /// This isn't a kind of pixels.
    NotKind(Excerpt<'a>),
    /// This isn't the length of each axis.
    NotAxes(Excerpt<'a>),
}
