/// A finding of a report: one of its rules that a card, a header or a file breaks.
///
/// The numbers are those of the printed labels.
#[derive(Clone, Copy, PartialEq, Eq)]
pub enum Code {
    /// 4.1.2.3: every byte of a card is a character of text.
    NotText = 1,
    /// 4.1.2.1: a name is capital letters, digits, hyphens and underscores.
    BadName,
    /// 4.2: a value is spelled as one of the types.
    UnreadableValue,
    /// 4.1.2.3: a value field may be empty; its value is then undefined.
    UndefinedValue,
    /// 4.4: many keywords have values of one type.
    WrongType,
    /// 4.4.1: mandatory keywords are written in fixed format.
    NotFixedFormat,
    /// 4.4.1: a mandatory keyword is written once.
    MandatoryRepeated,
    /// 4.4.2: the value of a repeated keyword is indeterminate.
    KeywordRepeated,
    /// 4.2.1.2: CONTINUE continues a string that ends in an ampersand.
    StrayContinue,
    /// 4.2.1.2: a string that ends in an ampersand may be continued.
    AmpersandNotContinued,
    /// 4.1.2.2: a value indicator is an equals sign and a space.
    NoSpaceAfterEquals,
    /// 9.1.1: dates are written `CCYY-MM-DD`, with a time or without.
    BadDate,
    /// 4.4.2.1, 8.3: BLOCKED and EPOCH are deprecated.
    DeprecatedKeyword,
    /// 4.4.1: bytes 9 to 80 of END are spaces.
    EndNotBlank,
    /// 3.3.1: spaces fill the last block of a header.
    FillNotSpaces,
    /// 4.4.1.2: PCOUNT and GCOUNT follow the axes of an extension.
    CountsOutOfPlace,
    /// 7.1.1: an IMAGE extension has PCOUNT 0 and GCOUNT 1.
    ImageCountsNotPlain,
    /// 4.4.1: SIMPLE is for the primary HDU, XTENSION for extensions.
    WrongKindOfHdu,
    /// 4.4.1.1: a file that conforms says T.
    SimpleIsFalse,
    /// 4.4.2.5: BLANK is for arrays of integers.
    BlankWithReals,
    /// 4.4.2.5: BLANK is a number that the array can hold.
    BlankOutOfRange,
    /// 3.3.2: zeros fill the last block of data, spaces that of a TABLE.
    BadDataFill,
    /// 4.4.2.7: DATASUM is the sum of the data.
    WrongDatasum,
    /// 4.4.2.7: CHECKSUM makes the sum of the HDU all ones.
    WrongChecksum,
    /// 4.4.2.6: EXTVER tells extensions of one name and type apart.
    DuplicateExtension,
    /// 3.5: nothing but special records follows the last HDU.
    TrailingBytes,
}

impl Code {
    ghost use Rattle.std.specs.Prelude.{◌≡◌};
    ghost use Rattle.fits_codes.specs.Code.{number, label, text, is_error};

    /// The number of its label. A report lists the codes of a place by it.
    pub fn number(self) -> u8
        ensures { result ≡ number self }
    {
        self as u8
    }

    /// How a report prints it: `E06` for an error, `W08` for a warning.
    pub fn label(self) -> &'static str
        ensures { result.now ≡ label self }
    {
        match self {
            Code::NotText => "E01",
            Code::BadName => "E02",
            Code::UnreadableValue => "E03",
            Code::UndefinedValue => "W04",
            Code::WrongType => "E05",
            Code::NotFixedFormat => "E06",
            Code::MandatoryRepeated => "E07",
            Code::KeywordRepeated => "W08",
            Code::StrayContinue => "W09",
            Code::AmpersandNotContinued => "W10",
            Code::NoSpaceAfterEquals => "W11",
            Code::BadDate => "E12",
            Code::DeprecatedKeyword => "W13",
            Code::EndNotBlank => "E14",
            Code::FillNotSpaces => "E15",
            Code::CountsOutOfPlace => "E16",
            Code::ImageCountsNotPlain => "E17",
            Code::WrongKindOfHdu => "E18",
            Code::SimpleIsFalse => "W19",
            Code::BlankWithReals => "E20",
            Code::BlankOutOfRange => "W21",
            Code::BadDataFill => "E22",
            Code::WrongDatasum => "W23",
            Code::WrongChecksum => "W24",
            Code::DuplicateExtension => "W25",
            Code::TrailingBytes => "W26",
        }
    }

    /// What a report says of it.
    pub fn text(self) -> &'static str
        ensures { result.now ≡ text self }
    {
        match self {
            Code::NotText => "byte outside ASCII text",
            Code::BadName => "bad keyword name",
            Code::UnreadableValue => "unreadable value",
            Code::UndefinedValue => "undefined value",
            Code::WrongType => "value of the wrong type",
            Code::NotFixedFormat => "mandatory card not in fixed format",
            Code::MandatoryRepeated => "mandatory keyword repeated",
            Code::KeywordRepeated => "keyword repeated",
            Code::StrayContinue => "CONTINUE without an open string",
            Code::AmpersandNotContinued => "ampersand not continued",
            Code::NoSpaceAfterEquals => "no space after the equals sign",
            Code::BadDate => "bad date",
            Code::DeprecatedKeyword => "deprecated keyword",
            Code::EndNotBlank => "END card not blank",
            Code::FillNotSpaces => "header fill not spaces",
            Code::CountsOutOfPlace => "PCOUNT or GCOUNT out of place",
            Code::ImageCountsNotPlain => "IMAGE counts are not 0 and 1",
            Code::WrongKindOfHdu => "SIMPLE or XTENSION in the wrong kind of HDU",
            Code::SimpleIsFalse => "SIMPLE is F",
            Code::BlankWithReals => "BLANK with real pixels",
            Code::BlankOutOfRange => "BLANK out of range",
            Code::BadDataFill => "bad data fill",
            Code::WrongDatasum => "DATASUM is wrong",
            Code::WrongChecksum => "CHECKSUM is wrong",
            Code::DuplicateExtension => "two extensions of one type, name and version",
            Code::TrailingBytes => "bytes after the last HDU",
        }
    }

    /// Whether it is an error. The others are warnings.
    pub fn is_error(self) -> bool
        ensures { result ≡ is_error self }
    {
        match self {
            Code::UndefinedValue
            | Code::KeywordRepeated
            | Code::StrayContinue
            | Code::AmpersandNotContinued
            | Code::NoSpaceAfterEquals
            | Code::DeprecatedKeyword
            | Code::SimpleIsFalse
            | Code::BlankOutOfRange
            | Code::WrongDatasum
            | Code::WrongChecksum
            | Code::DuplicateExtension
            | Code::TrailingBytes => false,
            _ => true,
        }
    }
}
