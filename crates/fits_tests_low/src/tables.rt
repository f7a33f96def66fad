//! What headers of tables say of their columns. Forms, widths and rules are those of tables 15, 16, 18
//! and 20 of the FITS Standard 4.0 and of its sections 7.2 and 7.3, as are the examples '60A' with
//! '(5,4,3)', and TIME with Time.

use fits_fixtures::{card_of, header_of, same};
use fits_table::{
    ColumnLeads, Descriptor, Element, Form, Format, TableCode, TableKind, column_of, form_of,
    judge_table, table_kind_of,
};
use std::test::Fail;

/// A text of TFORMn in a TABLE, its format, width and decimals.
const FIELDS: &[(&str, Option<(Format, u64, u64)>)] = &[
    ("A8", Some((Format::Text, 8, 0))),
    ("I6", Some((Format::Whole, 6, 0))),
    ("F8.3", Some((Format::Fixed, 8, 3))),
    ("E15.7", Some((Format::Exponential, 15, 7))),
    ("D25.17", Some((Format::DoubleExponential, 25, 17))),
    ("F3.0", Some((Format::Fixed, 3, 0))),
    ("A1", Some((Format::Text, 1, 0))),
    ("", None),
    ("A", None),
    ("A0", None),
    ("a8", None),
    ("8A", None),
    (" A8", None),
    ("A8 ", None),
    ("I6.2", None),
    ("F8", None),
    ("F8.", None),
    ("F.3", None),
    ("F8.8", None),
    ("E15.7E3", None),
    ("G15.7", None),
    ("I+6", None),
];

#[test]
fn a_field_has_the_format_of_its_letter(rt: HostRuntime) {
    for (text, wanted) in FIELDS {
        let form = match *wanted {
            Some((format, width, decimals)) => Some(Form::Field {
                format,
                width,
                decimals,
            }),
            None => None,
        };
        same!(rt; form_of(TableKind::Ascii, text.as_bytes()), form, text);
    }
}

/// A text of TFORMn in a BINTABLE, its count and type, and how many bytes that makes.
const ELEMENTS: &[(&str, (u64, Element), u128)] = &[
    ("L", (1, Element::Logical), 1),
    ("X", (1, Element::Bit), 1),
    ("8X", (8, Element::Bit), 1),
    ("9X", (9, Element::Bit), 2),
    ("0X", (0, Element::Bit), 0),
    ("3B", (3, Element::Byte), 3),
    ("2I", (2, Element::Integer16), 4),
    ("500J", (500, Element::Integer32), 2000),
    ("2K", (2, Element::Integer64), 16),
    ("20A", (20, Element::Character), 20),
    ("20A10", (20, Element::Character), 20),
    ("1E", (1, Element::Single), 4),
    ("3D", (3, Element::Double), 24),
    ("2C", (2, Element::SingleComplex), 16),
    ("2M", (2, Element::DoubleComplex), 32),
    ("0J", (0, Element::Integer32), 0),
    ("007J", (7, Element::Integer32), 28),
    (
        "9223372036854775807B",
        (9223372036854775807, Element::Byte),
        9223372036854775807,
    ),
];

#[test]
fn elements_have_the_width_of_their_type(rt: HostRuntime) {
    for (text, (count, element), width) in ELEMENTS {
        let wanted = Form::Elements {
            count: *count,
            element: *element,
        };
        same!(rt; form_of(TableKind::Binary, text.as_bytes()), Some(wanted), text);
        same!(rt; wanted.width(), *width, text);
    }
}

/// A text of TFORMn in a BINTABLE, its descriptor and the type of its elements, and how many bytes
/// that makes.
const ARRAYS: &[(&str, (u64, Descriptor, Element), u128)] = &[
    ("1PE(300)", (1, Descriptor::Narrow, Element::Single), 8),
    ("PB", (1, Descriptor::Narrow, Element::Byte), 8),
    ("0PJ(0)", (0, Descriptor::Narrow, Element::Integer32), 0),
    ("1QD(1000000)", (1, Descriptor::Wide, Element::Double), 16),
    ("QX()", (1, Descriptor::Wide, Element::Bit), 16),
];

#[test]
fn a_descriptor_has_8_or_16_bytes(rt: HostRuntime) {
    for (text, (count, descriptor, element), width) in ARRAYS {
        let wanted = Form::Array {
            count: *count,
            descriptor: *descriptor,
            element: *element,
        };
        same!(rt; form_of(TableKind::Binary, text.as_bytes()), Some(wanted), text);
        same!(rt; wanted.width(), *width, text);
    }
}

/// Texts of TFORMn that say nothing in a BINTABLE.
const NO_FORMS: &[&str] = &[
    "",
    "3",
    "j",
    "S",
    " 1J",
    "-1J",
    "+1J",
    "1.5E",
    "1 J",
    "P",
    "1P",
    "2PJ(5)",
    "1PP(3)",
    "1P(3)",
    "1PS(3)",
    "9223372036854775808B",
    "rubbish",
];

#[test]
fn other_texts_have_no_form(rt: HostRuntime) {
    for text in NO_FORMS {
        same!(rt; form_of(TableKind::Binary, text.as_bytes()), None, text);
    }
}

// The leads of a column with a form, and another of its cards.
fn leads_with(form: &str, other: &str) -> ColumnLeads {
    let card = Some(card_of(other));
    let mut leads = ColumnLeads {
        form: Some(card_of(form)),
        start: None,
        name: None,
        dimensions: None,
        null: None,
        scale: None,
        zero: None,
        display: None,
    };
    if other.starts_with("TBCOL") {
        leads.start = card;
    } else if other.starts_with("TTYPE") {
        leads.name = card;
    } else if other.starts_with("TDIM") {
        leads.dimensions = card;
    } else if other.starts_with("TNULL") {
        leads.null = card;
    } else if other.starts_with("TSCAL") {
        leads.scale = card;
    } else if other.starts_with("TZERO") {
        leads.zero = card;
    } else {
        leads.display = card;
    }
    leads
}

/// The form of a column of a BINTABLE, another of its cards, and whether the column can't have it.
const BINARY_MISFITS: &[(&str, &str, bool)] = &[
    ("TFORM1  = '60A'", "TDIM1   = '(5,4,3)'", false),
    ("TFORM1  = '61A'", "TDIM1   = '(5,4,3)'", false),
    ("TFORM1  = '59A'", "TDIM1   = '(5,4,3)'", true),
    ("TFORM1  = '1J'", "TDIM1   = '(1)'", false),
    ("TFORM1  = '1J'", "TDIM1   = '(0)'", false),
    ("TFORM1  = '1J'", "TDIM1   = '1'", true),
    ("TFORM1  = '1J'", "TDIM1   = '(1,)'", true),
    ("TFORM1  = '1J'", "TDIM1   = '(1;1)'", true),
    ("TFORM1  = '1J'", "TDIM1   = '()'", true),
    ("TFORM1  = '1J'", "TDIM1   = ')('", true),
    ("TFORM1  = '1J'", "TDIM1   = 1", true),
    (
        "TFORM1  = '1J'",
        "TDIM1   = '(9223372036854775807,9223372036854775807,9223372036854775807)'",
        true,
    ),
    (
        "TFORM1  = '1J'",
        "TDIM1   = '(9223372036854775807,9223372036854775807,0)'",
        false,
    ),
    ("TFORM1  = '1PJ(9)'", "TDIM1   = '(3,3)'", false),
    ("TFORM1  = '1PJ(9)'", "TDIM1   = '3,3'", true),
    ("TFORM1  = 'rubbish'", "TDIM1   = 'rubbish'", false),
    ("TFORM1  = '1J'", "TNULL1  = -1", false),
    ("TFORM1  = '1J'", "TNULL1  = ", false),
    ("TFORM1  = '1J'", "TNULL1  = 'x'", true),
    ("TFORM1  = '1J'", "TNULL1  = 1.0", true),
    ("TFORM1  = '1E'", "TNULL1  = 0", true),
    ("TFORM1  = '1X'", "TNULL1  = 0", true),
    ("TFORM1  = '1L'", "TNULL1  = 0", true),
    ("TFORM1  = '1A'", "TNULL1  = 'x'", true),
    ("TFORM1  = '1PI(4)'", "TNULL1  = 0", false),
    ("TFORM1  = '1QE(4)'", "TNULL1  = 0", true),
    ("TFORM1  = '1I'", "TSCAL1  = 0.5", false),
    ("TFORM1  = '1I'", "TZERO1  = 32768", false),
    ("TFORM1  = '1I'", "TSCAL1  = 'x'", true),
    ("TFORM1  = '1C'", "TZERO1  = 1.0", false),
    ("TFORM1  = '8A'", "TSCAL1  = 1.0", true),
    ("TFORM1  = '1L'", "TZERO1  = 0", true),
    ("TFORM1  = '8X'", "TZERO1  = 0", true),
    ("TFORM1  = '1E'", "TDISP1  = 'F8.3'", false),
    ("TFORM1  = '1E'", "TDISP1  = 'E15.7E3'", false),
    ("TFORM1  = '1D'", "TDISP1  = 'EN12.3'", false),
    ("TFORM1  = '1D'", "TDISP1  = 'ES12.3'", false),
    ("TFORM1  = '1D'", "TDISP1  = 'G15.7'", false),
    ("TFORM1  = '1D'", "TDISP1  = 'D25.17E3'", false),
    ("TFORM1  = '1J'", "TDISP1  = 'I5'", false),
    ("TFORM1  = '1J'", "TDISP1  = 'I5.3'", false),
    ("TFORM1  = '1J'", "TDISP1  = 'Z8.8'", false),
    ("TFORM1  = '8X'", "TDISP1  = 'B8'", false),
    ("TFORM1  = '8A'", "TDISP1  = 'A8'", false),
    ("TFORM1  = '1L'", "TDISP1  = 'L3'", false),
    ("TFORM1  = '1E'", "TDISP1  = 'Z8'", true),
    ("TFORM1  = '8A'", "TDISP1  = 'I8'", true),
    ("TFORM1  = '1J'", "TDISP1  = 'L3'", true),
    ("TFORM1  = '1J'", "TDISP1  = 'A3'", true),
    ("TFORM1  = '1E'", "TDISP1  = 'f8.3'", true),
    ("TFORM1  = '1E'", "TDISP1  = 'F8'", true),
    ("TFORM1  = '1E'", "TDISP1  = 'EN12'", true),
    ("TFORM1  = '1E'", "TDISP1  = 'E15.7E'", true),
    ("TFORM1  = '1E'", "TDISP1  = 'F8.3E2'", true),
    ("TFORM1  = '1E'", "TDISP1  = ''", true),
];

/// The same in a TABLE.
const ASCII_MISFITS: &[(&str, &str, bool)] = &[
    ("TFORM1  = 'A8'", "TDIM1   = '(2,4)'", true),
    ("TFORM1  = 'I5'", "TNULL1  = '---'", false),
    ("TFORM1  = 'I5'", "TNULL1  = -1", true),
    ("TFORM1  = 'F8.3'", "TSCAL1  = 2.0", false),
    ("TFORM1  = 'A8'", "TSCAL1  = 2.0", true),
    ("TFORM1  = 'I5'", "TDISP1  = 'O5'", false),
    ("TFORM1  = 'F8.3'", "TDISP1  = 'O5'", true),
    ("TFORM1  = 'A8'", "TDISP1  = 'A8'", false),
    ("TFORM1  = 'A8'", "TDISP1  = 'L8'", true),
];

#[test]
fn a_keyword_suits_its_column_or_not(rt: HostRuntime) {
    for (form, other, wanted) in BINARY_MISFITS {
        let column = column_of(TableKind::Binary, &leads_with(form, other));
        same!(rt; column.has_misfit, *wanted, (*form, *other));
    }
    for (form, other, wanted) in ASCII_MISFITS {
        let column = column_of(TableKind::Ascii, &leads_with(form, other));
        same!(rt; column.has_misfit, *wanted, (*form, *other));
    }
}

/// A card TBCOLn, and the character of a row that it says.
const STARTS: &[(&str, Option<u64>)] = &[
    ("TBCOL1  = 1", Some(1)),
    ("TBCOL1  = 80", Some(80)),
    ("TBCOL1  = 0", None),
    ("TBCOL1  = -1", None),
    ("TBCOL1  = '1'", None),
    ("TBCOL1  = 1.0", None),
    ("TBCOL1  = 9223372036854775808", None),
];

#[test]
fn characters_of_a_row_count_from_1(rt: HostRuntime) {
    for (card, wanted) in STARTS {
        let column = column_of(TableKind::Ascii, &leads_with("TFORM1  = 'A8'", card));
        same!(rt; column.start, *wanted, card);
    }
}

/// The cards of a table in front of TFIELDS, the others, and the codes that it has.
const TABLES: &[(&str, &str, &str)] = &[
    (
        BINTABLE,
        "TFIELDS = 2|TFORM1  = '1J'|TTYPE1  = 'c1'|TFORM2  = '4A'|TTYPE2  = 'c2'",
        "",
    ),
    (
        BINTABLE,
        "TFIELDS = 2|TFORM2  = '1J'|TFORM1  = '4A'|TFORM1  = '9A'",
        "",
    ),
    (BINTABLE, "TFIELDS = 1|TFORM1  = '1D'|THEAP   = 80", ""),
    (BINTABLE, "TFIELDS = 1|TFORM1  = '1D'|THEAP   = 85", ""),
    (BINTABLE, "TFIELDS = 1|TFORM1  = '1D'|THEAP   = 79", "E30"),
    (BINTABLE, "TFIELDS = 1|TFORM1  = '1D'|THEAP   = 86", "E30"),
    (BINTABLE, "TFIELDS = 1|TFORM1  = '1D'|THEAP   = 'x'", "E30"),
    (EMPTY, "TFIELDS = 1|TFORM1  = '1D'", ""),
    (EMPTY, "TFIELDS = 1|TFORM1  = '1D'|THEAP   = 80", "E30"),
    (BINTABLE, "TFIELDS = 99|TFORM1  = '1D'", "E28"),
    (BINTABLE, "TFIELDS = 999|TFORM1  = '1D'", "E28"),
    (BINTABLE, "TFIELDS = 1000|TFORM1  = '1D'", "E27"),
    (BINTABLE, "TFIELDS = -1|TFORM1  = '1D'", "E27"),
    (BINTABLE, "TFIELDS = '1'|TFORM1  = '1D'", "E27"),
    (BINTABLE, "TFORM1  = '1D'", "E27"),
    (BINTABLE, "COMMENT x|TFIELDS = 1|TFORM1  = '1D'", "E27"),
    (BINTABLE, "TFIELDS = 1|TFORM1  = '500J'", "E29"),
    (BINTABLE, "TFIELDS = 1|TFORM1  = '1J'", "E29"),
    (BINTABLE, "TFIELDS = 1|TFORM1  = 'rubbish'", "E28"),
    (BINTABLE, "TFIELDS = 1", "E28"),
    (BINTABLE, "TFIELDS = 1|TFORM1  = 5", "E28"),
    (BINTABLE, "TFIELDS = 0", "E29"),
    (BINTABLE, "TFIELDS = 1|TFORM1  = '1D'|TNULL1  = 0", "E31"),
    (
        BINTABLE,
        "TFIELDS = 2|TFORM1  = '4A'|TDIM1   = '(2,2)'|TFORM2  = '4A'|TDIM2   = '(2,3)'",
        "E31",
    ),
    (
        BINTABLE,
        "TFIELDS = 2|TFORM1  = '1J'|TTYPE1  = 'TIME'|TFORM2  = '4A'|TTYPE2  = 'Time'",
        "W32",
    ),
    (
        BINTABLE,
        "TFIELDS = 3|TFORM1  = '4A'|TFORM2  = '2A'|TFORM3  = '2A'|TTYPE1  = 'a'|TTYPE2  = 'b'|TTYPE3  = 'a   '",
        "W32",
    ),
    (
        BINTABLE,
        "TFIELDS = 2|TFORM1  = '4A'|TFORM2  = '4A'|TTYPE1  = ' '|TTYPE2  = ' '",
        "W34",
    ),
    (
        BINTABLE,
        "TFIELDS = 2|TFORM1  = '4A'|TFORM2  = '4A'|TTYPE1  = ''|TTYPE2  = ''",
        "",
    ),
    (
        BINTABLE,
        "TFIELDS = 2|TFORM1  = '4A'|TFORM2  = '4A'|TTYPE1  = 5|TTYPE2  = 5",
        "",
    ),
    (
        BINTABLE,
        "TFIELDS = 1|TFORM1  = '1D'|TTYPE1  = 'a-b'",
        "W34",
    ),
    (BINTABLE, "TFIELDS = 1|TFORM1  = '1D'|TTYPE1  = 'Az_09'", ""),
    (BINTABLE, "TFIELDS = 1|TFORM1  = '1D'|TFORM2  = '1D'", "W33"),
    (
        BINTABLE,
        "TFIELDS = 1|TFORM1  = '1D'|TDIM10  = '(1)'",
        "W33",
    ),
    (BINTABLE, "TFIELDS = 1|TFORM1  = '1D'|TLMAX2  = 5", "W33"),
    (
        BINTABLE,
        "TFIELDS = 1|TFORM1  = '1D'|TFORM02 = '1D'|TFORM2|TFORM2A = 1|TFOO2   = 1",
        "",
    ),
    (
        TABLE,
        "TFIELDS = 2|TFORM1  = 'A4'|TBCOL1  = 1|TFORM2  = 'I4'|TBCOL2  = 5",
        "",
    ),
    (TABLE, "TFIELDS = 1|TFORM1  = 'A4'|TBCOL1  = 3", ""),
    (
        TABLE,
        "TFIELDS = 2|TFORM1  = 'A8'|TBCOL1  = 1|TFORM2  = 'I4'|TBCOL2  = 5",
        "",
    ),
    (TABLE, "TFIELDS = 1|TFORM1  = 'A4'|TBCOL1  = 6", "E29"),
    (TABLE, "TFIELDS = 1|TFORM1  = 'A4'", "E28"),
    (TABLE, "TFIELDS = 1|TFORM1  = '4A'|TBCOL1  = 1", "E28"),
    (TABLE, "TFIELDS = 0|THEAP   = 7", ""),
    (HEAPED, "TFIELDS = 0", "E29"),
    (WORDS, "TFIELDS = 1|TFORM1  = '1D'", "E29"),
];

/// Ten rows of eight bytes, and a heap of five.
const BINTABLE: &str =
    "XTENSION= 'BINTABLE'|BITPIX  = 8|NAXIS   = 2|NAXIS1  = 8|NAXIS2  = 10|PCOUNT  = 5|GCOUNT  = 1";

/// Ten rows of eight characters.
const TABLE: &str =
    "XTENSION= 'TABLE'|BITPIX  = 8|NAXIS   = 2|NAXIS1  = 8|NAXIS2  = 10|PCOUNT  = 0|GCOUNT  = 1";

/// Ten rows of eight bytes alone.
const EMPTY: &str =
    "XTENSION= 'BINTABLE'|BITPIX  = 8|NAXIS   = 2|NAXIS1  = 8|NAXIS2  = 10|PCOUNT  = 0|GCOUNT  = 1";

/// Rows of characters, and five more.
const HEAPED: &str =
    "XTENSION= 'TABLE'|BITPIX  = 8|NAXIS   = 2|NAXIS1  = 8|NAXIS2  = 10|PCOUNT  = 5|GCOUNT  = 1";

/// Rows of words.
const WORDS: &str =
    "XTENSION= 'BINTABLE'|BITPIX  = 16|NAXIS   = 2|NAXIS1  = 8|NAXIS2  = 10|PCOUNT  = 0|GCOUNT  = 1";

/// A card of XTENSION, and the kind of table that it says.
const KINDS: &[(&str, Option<TableKind>)] = &[
    ("XTENSION= 'TABLE   '", Some(TableKind::Ascii)),
    ("XTENSION= 'BINTABLE'", Some(TableKind::Binary)),
    ("XTENSION= 'IMAGE   '", None),
    ("XTENSION= 'bintable'", None),
    ("XTENSION= ' TABLE  '", None),
    ("XTENSION= 5", None),
];

#[test]
fn a_table_is_named_by_its_extension(rt: HostRuntime) {
    for (card, wanted) in KINDS {
        same!(rt; table_kind_of(&card_of(card)), *wanted, card);
    }
}

#[test]
fn a_table_has_the_codes_of_its_header(rt: HostRuntime) -> Result<(), Fail> {
    for (front, columns, wanted) in TABLES {
        let texts = format!(in rt.alloc(); "{front}|{columns}|END")?;
        let judged = judge_table(rt.alloc(), header_of(rt.alloc(), &texts)?, false)?;
        let mut labels = String::new(rt.alloc());
        for code in &judged.codes {
            labels.push_str(code.label())?;
        }
        same!(rt; labels.as_str(), *wanted, *columns);
    }
    Ok(())
}

#[test]
fn a_code_has_its_label_and_text(rt: HostRuntime) {
    let past = TableCode::PastFields;
    same!(rt; (past.number(), past.label(), past.is_error()), (33, "W33", false));
    same!(rt; past.text(), "column keyword past TFIELDS");
    same!(rt; TableCode::KeywordMisfit.is_error(), true);
}
