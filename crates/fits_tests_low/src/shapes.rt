//! Which shape a header has; how many bytes that makes; and which changes keep it.
//! Sizes were computed by hand.

use fits_card::{Change, cut_header};
use fits_fixtures::ChangeText::{Move, Splice};
use fits_fixtures::{
    ChangeText, add_cards, change_of, end_header, fill_up, header_of, holds, name_of, same,
};
use fits_header::Header;
use fits_rules::{Axes, Class, Shape, data_bytes, lead, shape};
use std::alloc::{AllocError, Global};
use std::process::Abort;
use std::test::Fail;

/// A shape: its class, BITPIX, axes, PCOUNT and GCOUNT.
type ShapeText<'a> = (Class, i64, &'a [u64], u64, u64);

/// Whether a shape is the one that is wanted.
fn check_shape<R: Abort>(rt: &R, shape: &Shape, wanted: ShapeText<'_>, cards: &str) {
    let axes = shape.axes.as_slice();
    let found = (shape.class, shape.bitpix, axes, shape.pcount, shape.gcount);
    same!(rt; found, wanted, cards);
}

/// The shape that a text describes.
fn shape_of(alloc: Global, text: ShapeText<'_>) -> Result<Shape, AllocError> {
    let (class, bitpix, axes, pcount, gcount) = text;
    Ok(Shape {
        class,
        bitpix,
        axes: Axes::new(axes.to_vec(alloc)?),
        pcount,
        gcount,
    })
}

/// Cards, their shape, and how many bytes of data it has.
const SHAPES: &[(&str, ShapeText<'static>, u64)] = &[
    (
        "SIMPLE  =                    T|BITPIX  =                    8|NAXIS   =                    0|END",
        (Class::Primary, 8, &[], 0, 1),
        0,
    ),
    (
        "SIMPLE  = F|BITPIX  = -32/ floating point|NAXIS   = 2|NAXIS1  = 10|NAXIS2  = 20|PCOUNT  = 7|GCOUNT  = 'x'|END",
        (Class::Primary, -32, &[10, 20], 0, 1),
        800,
    ),
    (
        "SIMPLE|BITPIX  = -064|NAXIS   = +1|NAXIS1  = 00000000000000000000003|END",
        (Class::Primary, -64, &[3], 0, 1),
        24,
    ),
    (
        "SIMPLE  = T|BITPIX  = 64|NAXIS   = 3|NAXIS1  = 4000000000|NAXIS2  = 4000000000|NAXIS3  = 0|END",
        (Class::Primary, 64, &[4000000000, 4000000000, 0], 0, 1),
        0,
    ),
    (
        "SIMPLE  = T|BITPIX  = 16|NAXIS   = 2|NAXIS1  = 0|NAXIS2  = 3|GROUPS  = T|PCOUNT  = 1|GCOUNT  = 2|END",
        (Class::Groups, 16, &[0, 3], 1, 2),
        16,
    ),
    (
        "SIMPLE  = T|BITPIX  = 32|NAXIS   = 3|NAXIS1  = 0|NAXIS2  = 5|NAXIS3  = 6|COMMENT x|GROUPS    T|GROUPS  = T|GROUPS  = F|END",
        (Class::Groups, 32, &[0, 5, 6], 0, 1),
        120,
    ),
    (
        "SIMPLE  = T|BITPIX  = 16|NAXIS   = 2|NAXIS1  = 0|NAXIS2  = 3|GROUPS  = F|GROUPS  = T|END",
        (Class::Primary, 16, &[0, 3], 0, 1),
        0,
    ),
    (
        "SIMPLE  = T|BITPIX  = 16|NAXIS   = 2|NAXIS1  = 0|NAXIS2  = 3|GROUPS  = 'T'|END",
        (Class::Primary, 16, &[0, 3], 0, 1),
        0,
    ),
    (
        "SIMPLE  = T|BITPIX  = 16|NAXIS   = 1|NAXIS1  = 0|GROUPS  = T|END",
        (Class::Primary, 16, &[0], 0, 1),
        0,
    ),
    (
        "SIMPLE  = T|BITPIX  = 16|NAXIS   = 2|NAXIS1  = 1|NAXIS2  = 3|GROUPS  = T|PCOUNT  = 1|GCOUNT  = 2|END",
        (Class::Primary, 16, &[1, 3], 0, 1),
        6,
    ),
    (
        "XTENSION= 'IMAGE   '|BITPIX  = 64|NAXIS   = 3|NAXIS1  = 2|NAXIS2  = 3|NAXIS3  = 4|END",
        (Class::Image, 64, &[2, 3, 4], 0, 1),
        192,
    ),
    (
        "XTENSION= 'IMAGE'|BITPIX  = 16|NAXIS   = 1|NAXIS1  = 5|PCOUNT    9|PCOUNT  = 2|GCOUNT  = 3|PCOUNT  = 4|END",
        (Class::Image, 16, &[5], 2, 3),
        42,
    ),
    (
        "XTENSION= 'TABLE   ' / text|BITPIX  = 8|NAXIS   = 2|NAXIS1  = 80|NAXIS2  = 10|PCOUNT  = 0|GCOUNT  = 1|END",
        (Class::Table, 8, &[80, 10], 0, 1),
        800,
    ),
    (
        "XTENSION= 'BINTABLE'|BITPIX  = 8|NAXIS   = 0|PCOUNT  = 5|GCOUNT  = 1|END",
        (Class::Other, 8, &[], 5, 1),
        5,
    ),
    (
        "XTENSION= 'IMAGE'|BITPIX  = 64|NAXIS   = 2|NAXIS1  = 9223372036854775807|NAXIS2  = 9223372036854775807|GCOUNT  = 0|END",
        (
            Class::Image,
            64,
            &[9223372036854775807, 9223372036854775807],
            0,
            0,
        ),
        0,
    ),
    (
        "XTENSION= 'image'|BITPIX  = 8|NAXIS   = 0|END",
        (Class::Other, 8, &[], 0, 1),
        0,
    ),
    (
        "XTENSION= ' IMAGE'|BITPIX  = 8|NAXIS   = 0|END",
        (Class::Other, 8, &[], 0, 1),
        0,
    ),
    (
        "XTENSION= 'IMAGES'|BITPIX  = 8|NAXIS   = 0|END",
        (Class::Other, 8, &[], 0, 1),
        0,
    ),
    (
        "XTENSION= 'IMAG'|BITPIX  = 8|NAXIS   = 0|END",
        (Class::Other, 8, &[], 0, 1),
        0,
    ),
    (
        "XTENSION= 'IMAGE&'|BITPIX  = 8|NAXIS   = 0|END",
        (Class::Other, 8, &[], 0, 1),
        0,
    ),
    (
        "XTENSION= 'IMAGE''  '|BITPIX  = 8|NAXIS   = 0|END",
        (Class::Other, 8, &[], 0, 1),
        0,
    ),
    (
        "XTENSION= 'TABLE' x|BITPIX  = 8|NAXIS   = 0|END",
        (Class::Other, 8, &[], 0, 1),
        0,
    ),
    (
        "XTENSION= IMAGE|BITPIX  = 8|NAXIS   = 0|END",
        (Class::Other, 8, &[], 0, 1),
        0,
    ),
    (
        "XTENSION= ''|BITPIX  = 8|NAXIS   = 0|END",
        (Class::Other, 8, &[], 0, 1),
        0,
    ),
    (
        "XTENSION= 5|BITPIX  = 8|NAXIS   = 0|END",
        (Class::Other, 8, &[], 0, 1),
        0,
    ),
    (
        "XTENSION|BITPIX  = 8|NAXIS   = 0|END",
        (Class::Other, 8, &[], 0, 1),
        0,
    ),
    (
        "XTENSION  'IMAGE'|BITPIX  = 8|NAXIS   = 0|END",
        (Class::Other, 8, &[], 0, 1),
        0,
    ),
];

#[test]
fn a_header_has_the_shape_of_its_mandatory_cards(rt: HostRuntime) -> Result<(), Fail> {
    for (cards, wanted, size) in SHAPES {
        let mut header = header_of(rt.alloc(), cards)?;
        let found = shape(rt.alloc(), &mut header, cards.starts_with("SIMPLE"))?;
        check_shape(&rt, &found, *wanted, cards);
        same!(rt; data_bytes(&found), Some(*size), cards);
    }
    Ok(())
}

/// The number of each of 999 axes of 64 bits, and how many bytes that makes.
const MANY_AXES: &[(&str, u64, Option<u64>)] = &[
    ("1", 1, Some(8)),
    ("9223372036854775807", 9223372036854775807, None),
    ("0", 0, Some(0)),
];

// Adds the digits of a number below 1000.
fn add_number(bytes: &mut Vec<u8>, n: usize) -> Result<(), AllocError> {
    if 100 <= n {
        bytes.push(b'0' + (n / 100 % 10) as u8)?;
    }
    if 10 <= n {
        bytes.push(b'0' + (n / 10 % 10) as u8)?;
    }
    bytes.push(b'0' + (n % 10) as u8)?;
    Ok(())
}

// The bytes of a header with 999 axes of this number.
fn many_axes(alloc: Global, number: &str) -> Result<Vec<u8>, AllocError> {
    let mut bytes = Vec::new(alloc);
    add_cards(&mut bytes, "SIMPLE  = T|BITPIX  = 64|NAXIS   = 999")?;
    for n in 1..1000 {
        bytes.extend_from_slice(b"NAXIS")?;
        add_number(&mut bytes, n)?;
        fill_up(&mut bytes, 8, b' ')?;
        bytes.extend_from_slice(b"= ")?;
        add_cards(&mut bytes, number)?;
    }
    add_cards(&mut bytes, "END")?;
    end_header(&mut bytes)?;
    Ok(bytes)
}

#[test]
fn a_header_may_have_999_axes(rt: HostRuntime) -> Result<(), Fail> {
    for (number, axis, size) in MANY_AXES {
        let bytes = many_axes(rt.alloc(), number)?;
        let found = cut_shape(rt.alloc(), &bytes)?;
        same!(rt; found.axes.as_slice().len(), 999);
        holds!(rt; found.axes.as_slice().iter().all(|found| found == axis));
        same!(rt; data_bytes(&found), *size);
    }
    Ok(())
}

// The shape of the primary HDU that bytes begin with.
fn cut_shape(alloc: Global, bytes: &[u8]) -> Result<Shape, Fail> {
    let (mut header, _) = cut_header(alloc, bytes)?;
    let found = shape(alloc, &mut header, true);
    drop(header);
    Ok(found?)
}

/// A shape, and how many bytes its data have, where that fits 64 bits.
const SIZES: &[(ShapeText<'static>, Option<u64>)] = &[
    (
        (
            Class::Primary,
            8,
            &[3, 5, 17, 257, 641, 65537, 6700417],
            0,
            1,
        ),
        Some(18446744073709551615),
    ),
    (
        (Class::Image, 8, &[], 18446744073709551615, 1),
        Some(18446744073709551615),
    ),
    ((Class::Primary, 8, &[4294967296, 4294967296], 0, 1), None),
    ((Class::Primary, 16, &[4294967296, 2147483648], 0, 1), None),
    ((Class::Image, 8, &[1], 18446744073709551615, 1), None),
    ((Class::Other, 8, &[4294967296], 0, 4294967296), None),
    (
        (Class::Primary, 8, &[4294967296, 2147483648], 0, 1),
        Some(9223372036854775808),
    ),
    (
        (Class::Primary, 64, &[4294967296, 4294967296, 3], 0, 1),
        None,
    ),
    (
        (Class::Primary, 64, &[4000000000, 4000000000, 1], 0, 1),
        None,
    ),
    (
        (
            Class::Primary,
            64,
            &[9223372036854775807, 9223372036854775807, 0],
            0,
            1,
        ),
        Some(0),
    ),
    (
        (
            Class::Primary,
            64,
            &[
                9223372036854775807,
                0,
                9223372036854775807,
                9223372036854775807,
            ],
            0,
            1,
        ),
        Some(0),
    ),
    (
        (
            Class::Primary,
            64,
            &[
                0,
                9223372036854775807,
                9223372036854775807,
                9223372036854775807,
            ],
            0,
            1,
        ),
        Some(0),
    ),
    (
        (
            Class::Image,
            -64,
            &[9223372036854775807, 9223372036854775807],
            9223372036854775807,
            0,
        ),
        Some(0),
    ),
    (
        (Class::Image, -64, &[9223372036854775807, 0], 3, 2),
        Some(48),
    ),
    (
        (
            Class::Groups,
            64,
            &[0, 9223372036854775807, 9223372036854775807, 0],
            0,
            1,
        ),
        Some(0),
    ),
    ((Class::Primary, 32, &[6, 7], 5, 3), Some(168)),
    ((Class::Groups, 32, &[6, 7], 5, 3), Some(144)),
    ((Class::Image, 32, &[6, 7], 5, 3), Some(564)),
    ((Class::Table, 8, &[6, 7], 5, 3), Some(141)),
    ((Class::Other, -32, &[6, 7], 5, 3), Some(564)),
    ((Class::Primary, 8, &[], 0, 1), Some(0)),
    ((Class::Other, 8, &[], 5, 3), Some(15)),
];

#[test]
fn sizes_of_64_bits_are_found_and_no_larger_ones(rt: HostRuntime) -> Result<(), Fail> {
    for (row, (text, size)) in SIZES.iter().enumerate() {
        let shape = shape_of(rt.alloc(), *text)?;
        same!(rt; data_bytes(&shape), *size, row);
    }
    Ok(())
}

/// A primary HDU of three values, with two cards after the mandatory ones.
const ROW: &str = "SIMPLE  = T|BITPIX  = 16|NAXIS   = 1|NAXIS1  = 3|COMMENT x|KEY     = 1|END";

const IMAGE: &str =
    "XTENSION= 'IMAGE'|BITPIX  = 8|NAXIS   = 1|NAXIS1  = 3|PCOUNT  = 0|GCOUNT  = 1|END";

const OTHER: &str = "XTENSION= 'BINTABLE'|BITPIX  = 8|NAXIS   = 0|END";

const ZERO: &str = "SIMPLE  = T|BITPIX  = 8|NAXIS   = 2|NAXIS1  = 0|NAXIS2  = 0|END";

const GROUPS: &str = "SIMPLE  = T|BITPIX  = 8|NAXIS   = 2|NAXIS1  = 0|NAXIS2  = 0|GROUPS  = T|END";

/// Cards, a change, and whether their shape is kept by it.
const KEPT: &[(&str, ChangeText<'static>, bool)] = &[
    (ROW, Splice(5, 0, "COMMENT y"), true),
    (ROW, Splice(7, 0, "NAXIS1  = 4|NAXIS   = 0|SIMPLE"), true),
    (ROW, Splice(5, 2, ""), true),
    (ROW, Splice(4, 1, "NAXIS1  = 3 / free format"), true),
    (
        ROW,
        Splice(1, 4, "SIMPLE|BITPIX  = 016|NAXIS   = 1|NAXIS1  = +3"),
        true,
    ),
    (ROW, Splice(1, 0, ""), true),
    (
        ROW,
        Splice(5, 0, "PCOUNT  = 7|GCOUNT  = 'x'|GROUPS  = T"),
        true,
    ),
    (ROW, Move(5, 6), true),
    (ROW, Move(6, 5), true),
    (ROW, Move(1, 1), true),
    (ROW, Splice(4, 1, "NAXIS1  =                    4"), false),
    (ROW, Splice(2, 1, "BITPIX  = -16"), false),
    (ROW, Splice(2, 1, "BITPIX  = 8"), false),
    (ROW, Splice(3, 1, "NAXIS   = 0"), false),
    (ROW, Splice(3, 2, "NAXIS   = 0"), false),
    (
        ROW,
        Splice(3, 2, "NAXIS   = 2|NAXIS1  = 3|NAXIS2  = 1"),
        false,
    ),
    (ROW, Splice(4, 0, "COMMENT y"), false),
    (ROW, Splice(1, 1, ""), false),
    (ROW, Splice(1, 6, ""), false),
    (ROW, Splice(1, 1, "XTENSION= 'IMAGE'"), false),
    (IMAGE, Splice(5, 0, "PCOUNT  = 7"), false),
    (IMAGE, Splice(5, 0, "PCOUNT  = 0"), true),
    (IMAGE, Splice(6, 0, "PCOUNT  = 7"), true),
    (IMAGE, Splice(5, 0, "PCOUNT    7"), true),
    (IMAGE, Splice(5, 1, ""), true),
    (IMAGE, Splice(6, 1, "GCOUNT  = 0"), false),
    (IMAGE, Splice(6, 1, "GCOUNT  = 'x'"), false),
    (IMAGE, Splice(6, 1, ""), true),
    (OTHER, Splice(1, 1, "XTENSION= 'FOO'"), true),
    (OTHER, Splice(1, 1, "XTENSION"), true),
    (OTHER, Splice(1, 1, "XTENSION= 'IMAGE'"), false),
    (ZERO, Splice(6, 0, "GROUPS  = T"), false),
    (ZERO, Splice(6, 0, "GROUPS  = F"), true),
    (GROUPS, Splice(6, 1, ""), false),
    (GROUPS, Splice(6, 0, "GROUPS  = F"), false),
    (GROUPS, Splice(7, 0, "GROUPS  = F"), true),
    (ROW, Move(1, 2), false),
    (ROW, Move(2, 1), false),
    (ROW, Move(5, 1), false),
    (ROW, Move(4, 6), false),
    (ROW, Move(6, 4), false),
    (ROW, Move(3, 4), false),
];

/// Whether a header keeps its shape by a change, if the change is in range.
#[tactic(auto, using(fits_rules::proofs::LawLemmas::laws))]
fn keeps(alloc: Global, cards: &str, change: &Change) -> Result<Option<bool>, Fail> {
    let mut list = header_of(alloc, cards)?;
    if !change.is_in_range(&list) {
        return Ok(None);
    }
    let found = shape(alloc, &mut list, cards.starts_with("SIMPLE"))?;
    let mut header = Header::open(alloc, list, found)?;
    Ok(Some(header.keeps_shape(change)))
}

#[test]
fn a_change_keeps_the_shape_or_not(rt: HostRuntime) -> Result<(), Fail> {
    for (row, (cards, text, wanted)) in KEPT.iter().enumerate() {
        let change = change_of(rt.alloc(), *text)?;
        let found = keeps(rt.alloc(), cards, &change)?;
        same!(rt; found, Some(*wanted), (row, cards));
    }
    Ok(())
}

/// A name, and the place of its first card with a value among those of `the_lead_is_..`.
const LEADS: &[(&str, Option<usize>)] = &[
    ("KEY", Some(3)),
    ("SIMPLE", Some(1)),
    ("COMMENT", None),
    ("KEYS", None),
];

#[test]
fn the_lead_is_the_first_card_with_a_value(rt: HostRuntime) -> Result<(), Fail> {
    let cards = "SIMPLE  = T|KEY|KEY     =|KEY     = 1|COMMENT = 1|END";
    let mut header = header_of(rt.alloc(), cards)?;
    for (name, place) in LEADS {
        same!(rt; lead(&mut header, &name_of(name)), *place, name);
    }
    Ok(())
}
