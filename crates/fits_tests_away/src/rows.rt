//! HDUs of each kind, and files in which they stand.

use fits_fixtures::{P0, hdu_of, unit_of};
use std::alloc::{AllocError, Global};

/// An HDU: its cards, which fit in one block, how many bytes of data it has, and the byte that fills their last block.
pub type HduRow<'a> = (&'a str, usize, u8);

pub const NO_DATA: HduRow<'static> = (P0, 0, 0);

pub const BYTES: HduRow<'static> = (
    "SIMPLE  =                    T|BITPIX  =                    8|NAXIS   =                    2|\
    NAXIS1  =                  100|NAXIS2  =                   30|COMMENT|END",
    3000,
    0,
);

/// Of its pixels 6 are 1, and so undefined.
pub const BLANKED: HduRow<'static> = (
    "XTENSION= 'IMAGE   '|BITPIX  =                   16|NAXIS   =                    1|\
    NAXIS1  =                 1500|PCOUNT  =                    0|GCOUNT  =                    1|\
    BLANK   =                    1|END",
    3000,
    0,
);

/// Its only pixel is 66051, and so is the sum of its words.
pub const SUMMED: HduRow<'static> = (
    "XTENSION= 'IMAGE   '|BITPIX  =                   32|NAXIS   =                    1|\
    NAXIS1  =                    1|PCOUNT  =                    0|GCOUNT  =                    1|\
    DATASUM = '66051   '|END",
    4,
    0,
);

pub const REALS: HduRow<'static> = (
    "XTENSION= 'IMAGE   '|BITPIX  =                  -32|NAXIS   =                    1|\
    NAXIS1  =                   10|PCOUNT  =                    0|GCOUNT  =                    1|\
    BLANK   =                    1|END",
    40,
    0,
);

pub const TABLE: HduRow<'static> = (
    "XTENSION= 'TABLE   '|BITPIX  =                    8|NAXIS   =                    2|\
    NAXIS1  =                   10|NAXIS2  =                    2|PCOUNT  =                    0|\
    GCOUNT  =                    1|TFIELDS =                    0|END",
    20,
    b' ',
);

/// Its fill should be zeros.
pub const ILL_FILLED: HduRow<'static> = (
    "XTENSION= 'IMAGE   '|BITPIX  =                    8|NAXIS   =                    1|\
    NAXIS1  =                   10|PCOUNT  =                    0|GCOUNT  =                    1|END",
    10,
    1,
);

/// Unsigned numbers, in 42 blocks: more than a piece of a source.
pub const LARGE: HduRow<'static> = (
    "XTENSION= 'IMAGE   '|BITPIX  =                   16|NAXIS   =                    2|\
    NAXIS1  =                  300|NAXIS2  =                  200|PCOUNT  =                    0|\
    GCOUNT  =                    1|BZERO   =                32768|END",
    120_000,
    0,
);

pub const HDUS: &[HduRow<'static>] = &[
    NO_DATA, BYTES, BLANKED, SUMMED, REALS, TABLE, ILL_FILLED, LARGE,
];

/// Where an HDU begins in a file.
pub const HDU_AT: usize = 2880;

/// And its data unit.
pub const DATA_AT: usize = 5760;

/// What a file has after an HDU.
const TAIL: &[u8] = b"tail";

/// A file with an HDU after another.
pub fn file_with(alloc: Global, row: HduRow<'_>) -> Result<Vec<u8>, AllocError> {
    let (cards, used, filling) = row;
    let mut file = hdu_of(alloc, P0, 0)?;
    file.extend_from_slice(&hdu_of(alloc, cards, 0)?)?;
    file.extend_from_slice(&unit_of(alloc, used, filling)?)?;
    file.extend_from_slice(TAIL)?;
    Ok(file)
}

/// The HDU in a file, with the bytes after it.
pub fn from_hdu(file: &[u8]) -> &[u8] {
    let (_, rest) = file.split_at(HDU_AT.min(file.len()));
    rest
}

/// And without.
pub fn hdu_in(file: &[u8]) -> &[u8] {
    let rest = from_hdu(file);
    rest.strip_suffix(TAIL).unwrap_or(rest)
}

pub fn is_primary(row: HduRow<'_>) -> bool {
    row.0.starts_with("SIMPLE")
}
