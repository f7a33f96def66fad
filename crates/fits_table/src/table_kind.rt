ghost use Rattle.std.specs.Prelude.{◌≡◌};
ghost use Rattle.fits_rules.specs.Reads.{string_said};
ghost use Rattle.fits_table.specs.TableKind.{kind_named};

use crate::said::string_said;
use fits_card::Card;

/// Which of the two kinds of tables an extension is, by its XTENSION.
#[derive(Clone, Copy, PartialEq, Eq, Debug)]
pub enum TableKind {
    /// TABLE: rows of characters (FITS Standard 4.0, section 7.2).
    Ascii,
    /// BINTABLE: rows of bytes, and perhaps a heap (7.3).
    Binary,
}

/// The kind of the table whose XTENSION card this is.
pub fn table_kind_of(card: &Card) -> Option<TableKind>
    ensures { result ≡ kind_named (string_said card.now) }
{
    let Some(text) = string_said(card) else {
        return None;
    };
    if text.as_bytes() == b"TABLE".as_slice() {
        Some(TableKind::Ascii)
    } else if text.as_bytes() == b"BINTABLE".as_slice() {
        Some(TableKind::Binary)
    } else {
        None
    }
}
