use fits_card::Name;
use fits_edit::{Corner, Edit};

/// What a line of a script asks for. HDUs and places count from 1.
#[derive(Drop)]
pub enum Command {
    /// An empty line, or a comment.
    Nothing,
    /// `ins`, `put`, `del`, `mov`, `set`, `unset`, `fill`, `write`, `reshape`, `new`, `rm`, `stamp`,
    /// `keep` or `release`: the file changes, or which HDUs are kept stamped.
    Edit(Edit),
    /// `off`: where each HDU and its data begin, and where it ends.
    Offsets,
    /// `get H NAME`: the value of the first card of this name that has one.
    Get { hdu: usize, name: Name },
    /// `pos H NAME`: the places of the cards of this name.
    Positions { hdu: usize, name: Name },
    /// `rep`: what is wrong with the file.
    Report,
    /// `stat H`: how many pixels are defined, and their least, greatest and sum.
    Statistics { hdu: usize },
    /// `rect H RECT`: the values of a rectangle.
    Rectangle { hdu: usize, lo: Corner, hi: Corner },
    /// `sum H`: the sum of the data unit, and whether DATASUM and CHECKSUM are right.
    Sums { hdu: usize },
    /// `kept H`: whether the HDU is kept stamped.
    Kept { hdu: usize },
}
