//! Data units of which pieces are taken into memory, each call once.
ghost use Rattle.fits_plane.specs.Painting.{Suits};

use crate::parts::{Painted, paint_of, suits};
use fits_fixtures::{SMOOTH, holds, same, unit_of, writer};
use fits_pieces::{PIECE_LEN, PassingPieces, PieceWork, PiecedUnit};
use fits_pixels::{Layout, PixelSummary};
use fits_plane::{Painting, Plane};
use fits_stream::Count;
use std::alloc::AllocError;
use std::process::Abort;
use std::test::Fail;

/// Three pieces, of which the last is one block.
const LEN: usize = 2 * PIECE_LEN + 2880;

/// Pixels of 16 bits, and a fill of 880 bytes.
const LAYOUT: Layout = Layout {
    width: 2,
    pixels: LEN / 2 - 440,
    used: LEN - 880,
    fill: 0,
    blank: Some(7),
};

/// What is painted, and how many pieces are loaded for it.
const PAINTED: &[(Painted<'static>, usize)] = &[
    ((1, 2, &[7, -7]), 1),
    ((23_040, 23_041, &[-32_768, 32_767]), 1),
    ((46_500, 46_600, &[5]), 1),
    ((1, 46_640, &[6]), 0),
];

#[test]
fn pieces_are_painted_as_a_plane(rt: HostRuntime) -> Result<(), Fail> {
    let bytes = unit_of(rt.alloc(), LAYOUT.used, 0)?;
    holds!(rt; LAYOUT.fits(&bytes));
    let mut wanted = Plane::open(rt.alloc(), &bytes, LAYOUT)?;
    let mut unit = passed(&rt, &bytes)?;
    unit.go_on(Count::new());
    for (row, count) in PAINTED {
        check_painted(&rt, &mut unit, &mut wanted, &bytes, *row, *count)?;
        check_answers(&rt, &unit, &wanted);
    }
    check_pieces(&rt, &unit, &wanted)?;
    let PieceWork {
        scans,
        reads,
        joins,
    } = unit.into_work();
    Ok(())
}

// A data unit that passed by.
fn passed<R: Abort + AllocGlobal>(rt: &R, bytes: &[u8]) -> Result<PiecedUnit, Fail> {
    holds!(rt; bytes.len() == LEN);
    let zeros = vec![in rt.alloc(); 0u8; LEN]?;
    holds!(rt; LAYOUT.fits(zeros.as_slice()));
    let (first, rest) = bytes.split_at(PIECE_LEN);
    let (second, third) = rest.split_at(PIECE_LEN);
    let mut unit = PassingPieces::new(rt.alloc(), LAYOUT, LEN)?;
    unit.add(first);
    unit.add(second);
    unit.add(third);
    Ok(unit.end(rt.alloc())?)
}

// Paints pixels of a data unit, for which so many pieces are loaded, and of a plane, and reads them.
fn check_painted<R: Abort + AllocGlobal>(
    rt: &R,
    unit: &mut PiecedUnit,
    wanted: &mut Plane,
    bytes: &[u8],
    row: Painted<'_>,
    count: usize,
) -> Result<(), Fail> {
    let (first, last, values) = row;
    let painting = Painting {
        axes: &[LAYOUT.pixels as u64],
        lo: &[first],
        hi: &[last],
        paint: &paint_of(values),
        offset: 0,
    };
    holds!(rt; suits(unit.layout(), &painting), row);
    same!(rt; load_missing(rt, unit, bytes, &painting)?, count, row);
    holds!(rt; suits(unit.layout(), &painting), row);
    let read = paint_unit(rt, unit, &painting)?;
    holds!(rt; suits(wanted.layout(), &painting), row);
    wanted.paint_rect(&painting);
    let again = wanted.rect(rt.alloc(), painting.axes, painting.lo, painting.hi, 0)?;
    same!(rt; read, again, row);
    Ok(())
}

// Loads the pieces that are missing, and says how many they are.
fn load_missing<R: Abort + AllocGlobal>(
    rt: &R,
    unit: &mut PiecedUnit,
    bytes: &[u8],
    painting: &Painting,
) -> Result<usize, Fail>
    requires { Suits unit.old.plane.layout painting.now }
{
    let missing = unit.missing(rt.alloc(), painting.axes, painting.lo, painting.hi)?;
    for n in 0..missing.len() {
        load_piece(rt, unit, bytes, missing[n])?;
    }
    Ok(missing.len())
}

// Loads a piece.
fn load_piece<R: Abort + AllocGlobal>(
    rt: &R,
    unit: &mut PiecedUnit,
    bytes: &[u8],
    index: usize,
) -> Result<(), Fail> {
    holds!(rt; index < unit.piece_count() && index < 3, index);
    holds!(rt; !unit.is_held(index), index);
    let (_, rest) = bytes.split_at((PIECE_LEN * index).min(bytes.len()));
    let (piece, _) = rest.split_at(unit.piece_len(index).min(rest.len()));
    let loaded = unit.load(rt.alloc(), index, piece.to_vec(rt.alloc())?);
    holds!(rt; loaded.is_ok(), index);
    Ok(())
}

// Paints pixels that are in memory, and reads them.
fn paint_unit<R: Abort + AllocGlobal>(
    rt: &R,
    unit: &mut PiecedUnit,
    painting: &Painting,
) -> Result<Vec<i128>, Fail>
    requires { Suits unit.old.plane.layout painting.now }
{
    let (axes, lo, hi) = (painting.axes, painting.lo, painting.hi);
    let (_layout, _count) = (unit.layout(), unit.piece_count());
    let missing = unit.missing(rt.alloc(), axes, lo, hi)?;
    holds!(rt; missing.is_empty());
    unit.paint_rect(painting);
    Ok(unit.rect(rt.alloc(), axes, lo, hi, 0)?)
}

// Whether a data unit has the total and the statistics of a plane.
fn check_answers<R: Abort>(rt: &R, unit: &PiecedUnit, wanted: &Plane) {
    let case = unit.piece_count();
    same!(rt; unit.byte_len(), wanted.byte_len(), case);
    same!(rt; unit.total(), wanted.total(), case);
    same!(rt; numbers(unit.stats()), numbers(wanted.stats()), case);
    same!(rt; unit.value_stats(32768), wanted.value_stats(32768), case);
}

// How many pixels are defined and blank, the least, the greatest and the sum of the defined ones.
fn numbers(stats: PixelSummary) -> (u64, u64, Option<i64>, Option<i64>, i128) {
    (
        stats.defined,
        stats.blank,
        stats.least,
        stats.greatest,
        stats.sum,
    )
}

// Whether the pieces of a data unit, which are all in memory, are those of a plane.
fn check_pieces<R: Abort + AllocGlobal>(
    rt: &R,
    unit: &PiecedUnit,
    wanted: &Plane,
) -> Result<(), AllocError> {
    holds!(rt; unit.piece_count() == 3);
    holds!(rt; unit.is_held(0) && unit.is_held(1) && unit.is_held(2));
    holds!(rt; unit.layout().used >= 2 * PIECE_LEN);
    same!(rt; unit.fill_ok(), wanted.fill_ok());
    let (mut sink, mut all) = (writer(rt.alloc(), SMOOTH), writer(rt.alloc(), SMOOTH));
    let mut bytes = Vec::new(rt.alloc());
    let mut total = 0u64;
    for index in 0usize..3 {
        holds!(rt; unit.emit_piece(index, &mut sink).is_ok(), index);
        bytes.extend_from_slice(unit.piece_bytes(index))?;
        total = total.wrapping_add(unit.piece_total(index));
    }
    holds!(rt; wanted.emit(&mut all).is_ok());
    let (written, _) = sink.into_inner().into_parts();
    let (wanted_bytes, _) = all.into_inner().into_parts();
    holds!(rt; written.as_slice() == wanted_bytes.as_slice());
    holds!(rt; bytes.as_slice() == wanted_bytes.as_slice());
    same!(rt; total, wanted.total());
    Ok(())
}
