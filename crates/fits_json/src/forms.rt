//! The forms of the lines that are printed.
use crate::column::{Column, Kind};

macro_rules! column {
    ($lead:literal, $name:literal, $kind:expr) => {
        Column {
            lead: $lead,
            name: $name,
            kind: $kind,
            may_lack: false,
        }
    };
    (perhaps $lead:literal, $name:literal, $kind:expr) => {
        Column {
            lead: $lead,
            name: $name,
            kind: $kind,
            may_lack: true,
        }
    };
}

// The columns of an answer of one HDU, or of one among those of others, which has its number first.
macro_rules! answer {
    ($($column:expr),* $(,)?) => {
        &[
            column!(perhaps "", "hdu", Kind::Number),
            column!(perhaps " ", "", Kind::Nothing),
            $($column),*
        ]
    };
}

/// The lines of `list`.
pub const LISTS: &[&[Column]] = &[HDU];

/// Those of `sum`.
pub const SUMS: &[&[Column]] = &[SUM];

/// Those of `stat`.
pub const STATISTICS: &[&[Column]] = &[PIXELS, NO_PIXELS_OF_HDU];

/// Those of `verify`. The closing line comes first, since that of a count would take it.
pub const REPORTS: &[&[Column]] = &[COUNTS, PROBLEM, COUNT];

/// Those of `cards`.
pub const CARDS: &[&[Column]] = &[CARD, BLANK_CARD];

/// The answers to the lines of a script.
pub const ANSWERS: &[&[Column]] = &[
    UNDEFINED, TRUE, FALSE, INTEGER, REAL, COMPLEX, STRING, NUMBERS, PIXELS, SUMMED, KEPT,
    NOT_KEPT, REFUSED, COMPLAINT, PROBLEM, COUNTS,
];

// `hdu N CLASS bitpix B axes A cards C type 'T' name 'N' ver V at H D E`
const HDU: &[Column] = &[
    column!("hdu ", "hdu", Kind::Number),
    column!(" ", "class", Kind::Text(b' ')),
    column!(" bitpix ", "bitpix", Kind::Number),
    column!(perhaps " axes -", "axes", Kind::Empty),
    column!(perhaps " axes ", "axes", Kind::Numbers(b'x')),
    column!(" cards ", "cards", Kind::Number),
    column!(perhaps " type ", "type", Kind::Quoted),
    column!(perhaps " name ", "name", Kind::Quoted),
    column!(perhaps " ver ", "ver", Kind::Number),
    column!(" at ", "header", Kind::Number),
    column!(" ", "data", Kind::Number),
    column!(" ", "end", Kind::Number),
];

// `N DATASUM A B`
const SUM: &[Column] = &[
    column!("", "hdu", Kind::Number),
    column!(" ", "datasum", Kind::Number),
    column!(" ", "datasum_verdict", Kind::Number),
    column!(" ", "checksum_verdict", Kind::Number),
];

// `N -`
const NO_PIXELS_OF_HDU: &[Column] = &[
    column!("", "hdu", Kind::Number),
    column!(" -", "", Kind::Nothing),
];

// `N defined D blank B min X max Y sum S`, or without the number
const PIXELS: &[Column] = answer![
    column!("defined ", "defined", Kind::Number),
    column!(" blank ", "blank", Kind::Number),
    column!(" min ", "min", Kind::Number),
    column!(" max ", "max", Kind::Number),
    column!(" sum ", "sum", Kind::Number),
];

// `datasum N verdicts A B`
const SUMMED: &[Column] = answer![
    column!("datasum ", "datasum", Kind::Number),
    column!(" verdicts ", "datasum_verdict", Kind::Number),
    column!(" ", "checksum_verdict", Kind::Number),
];

// `CODE HDU PLACE TEXT` or `CODE HDU PLACE TEXT: CARD`
const PROBLEM: &[Column] = &[
    column!("", "code", Kind::Text(b' ')),
    column!(" ", "hdu", Kind::Number),
    column!(" ", "place", Kind::Number),
    column!(" ", "text", Kind::Text(b':')),
    column!(perhaps ": ", "card", Kind::Rest),
];

// `CODE COUNT TEXT`
const COUNT: &[Column] = &[
    column!("", "code", Kind::Text(b' ')),
    column!(" ", "count", Kind::Number),
    column!(" ", "text", Kind::Rest),
];

// `errors N warnings M`
const COUNTS: &[Column] = &[
    column!("errors ", "errors", Kind::Number),
    column!(" warnings ", "warnings", Kind::Number),
];

// `HDU PLACE CARD`
const CARD: &[Column] = &[
    column!("", "hdu", Kind::Number),
    column!(" ", "place", Kind::Number),
    column!(" ", "card", Kind::Rest),
];

// `HDU PLACE`
const BLANK_CARD: &[Column] = &[
    column!("", "hdu", Kind::Number),
    column!(" ", "place", Kind::Number),
    column!("", "card", Kind::Rest),
];

// `undefined / COMMENT`
const UNDEFINED: &[Column] = answer![
    column!("undefined", "type", Kind::Lead),
    column!("", "value", Kind::Null),
    column!(perhaps " / ", "comment", Kind::Rest),
    column!(perhaps " /", "comment", Kind::Rest),
];

// `logical T / COMMENT`
const TRUE: &[Column] = answer![
    column!("logical", "type", Kind::Lead),
    column!(" T", "value", Kind::True),
    column!(perhaps " / ", "comment", Kind::Rest),
    column!(perhaps " /", "comment", Kind::Rest),
];

// `logical F / COMMENT`
const FALSE: &[Column] = answer![
    column!("logical", "type", Kind::Lead),
    column!(" F", "value", Kind::False),
    column!(perhaps " / ", "comment", Kind::Rest),
    column!(perhaps " /", "comment", Kind::Rest),
];

// `integer TEXT / COMMENT`
const INTEGER: &[Column] = answer![
    column!("integer", "type", Kind::Lead),
    column!(" ", "value", Kind::Number),
    column!(perhaps " / ", "comment", Kind::Rest),
    column!(perhaps " /", "comment", Kind::Rest),
];

// `real TEXT / COMMENT`
const REAL: &[Column] = answer![
    column!("real", "type", Kind::Lead),
    column!(" ", "value", Kind::Text(b' ')),
    column!(perhaps " / ", "comment", Kind::Rest),
    column!(perhaps " /", "comment", Kind::Rest),
];

// `complex (RE, IM) / COMMENT`
const COMPLEX: &[Column] = answer![
    column!("complex", "type", Kind::Lead),
    column!(" ", "value", Kind::Through(b')')),
    column!(perhaps " / ", "comment", Kind::Rest),
    column!(perhaps " /", "comment", Kind::Rest),
];

// `string 'TEXT' / COMMENT`
const STRING: &[Column] = answer![
    column!("string", "type", Kind::Lead),
    column!(" ", "value", Kind::Quoted),
    column!(perhaps " / ", "comment", Kind::Rest),
    column!(perhaps " /", "comment", Kind::Rest),
];

// Places, offsets, or values of pixels.
const NUMBERS: &[Column] = &[column!("", "numbers", Kind::Numbers(b' '))];

const KEPT: &[Column] = answer![column!("yes", "kept", Kind::True)];

const NOT_KEPT: &[Column] = answer![column!("no", "kept", Kind::False)];

// `line L: refused N WORD`
const REFUSED: &[Column] = &[
    column!("line ", "line", Kind::Number),
    column!(": refused ", "refused", Kind::Rest),
];

// `line L: WHY`
const COMPLAINT: &[Column] = &[
    column!("line ", "line", Kind::Number),
    column!(": ", "complaint", Kind::Rest),
];
