/// A finding of a report of tables: one of the rules that a table's header breaks.
///
/// The numbers are those of the printed labels.
#[derive(Clone, Copy)]
pub enum TableCode {
    /// 7.2.1, 7.3.1: TFIELDS follows GCOUNT, and says 0 to 999 columns.
    BadFieldCount = 27,
    /// 7.2.1, 7.3.1: each column has a TFORM, in a TABLE a TBCOL too.
    NoForm,
    /// 7.2.1, 7.3.1: rows are of bytes, and the columns of a BINTABLE make them up, those of a TABLE
    /// lie within.
    NotARow,
    /// 7.3.2: the heap follows the rows, within the data.
    HeapOutside,
    /// 7.2.2, 7.3.2: a TDIM, TNULL, TSCAL, TZERO or TDISP suits its column.
    KeywordMisfit,
    /// 7.2.2, 7.3.2: names of columns are unique, whatever their case.
    DuplicateName,
    /// 7.2.1, 7.3.1: columns are numbered up to TFIELDS.
    PastFields,
    /// 7.2.2, 7.3.2: names of columns have letters, digits and underscores.
    OddName,
}

/// All codes of tables, by number.
pub const TABLE_CODES: [TableCode; 8] = [
    TableCode::BadFieldCount,
    TableCode::NoForm,
    TableCode::NotARow,
    TableCode::HeapOutside,
    TableCode::KeywordMisfit,
    TableCode::DuplicateName,
    TableCode::PastFields,
    TableCode::OddName,
];

impl TableCode {
    ghost use Rattle.std.specs.Prelude.{◌≡◌};
    ghost use Rattle.fits_table.specs.TableCode.{number, label, text, is_error};

    /// The number of its label. A report lists the codes of a place by it.
    pub fn number(self) -> u8
        ensures { result ≡ number self }
    {
        self as u8
    }

    /// How a report prints it: `E27` for an error, `W32` for a warning.
    pub fn label(self) -> &'static str
        ensures { result.now ≡ label self }
    {
        match self {
            TableCode::BadFieldCount => "E27",
            TableCode::NoForm => "E28",
            TableCode::NotARow => "E29",
            TableCode::HeapOutside => "E30",
            TableCode::KeywordMisfit => "E31",
            TableCode::DuplicateName => "W32",
            TableCode::PastFields => "W33",
            TableCode::OddName => "W34",
        }
    }

    /// What a report says of it.
    pub fn text(self) -> &'static str
        ensures { result.now ≡ text self }
    {
        match self {
            TableCode::BadFieldCount => "TFIELDS missing, out of place or out of range",
            TableCode::NoForm => "column without a readable TFORM or TBCOL",
            TableCode::NotARow => "columns don't make up the row",
            TableCode::HeapOutside => "heap not within the data",
            TableCode::KeywordMisfit => "keyword that its column can't have",
            TableCode::DuplicateName => "two columns of one name",
            TableCode::PastFields => "column keyword past TFIELDS",
            TableCode::OddName => "column name with other characters than recommended",
        }
    }

    /// Whether it is an error. The others are warnings.
    pub fn is_error(self) -> bool
        ensures { result ≡ is_error self }
    {
        !matches!(
            self,
            TableCode::DuplicateName | TableCode::PastFields | TableCode::OddName
        )
    }
}
