//! Data units: trees over their blocks, and what they say where memory is refused.

use fits_fixtures::{holds, same};
use fits_pixels::{Layout, PixelSummary, WordSummary};
use fits_plane::{Plane, PlaneRoom, Tree};
use std::alloc::AllocError;
use std::process::Abort;
use std::test::Fail;

// The summary of words with this total.
fn words(total: u64) -> WordSummary {
    WordSummary { total }
}

// The counts of a summary's defined and blank pixels, and the least, the greatest and the sum of the defined ones.
fn numbers(stats: PixelSummary) -> (u64, u64, Option<i64>, Option<i64>, i128) {
    (
        stats.defined,
        stats.blank,
        stats.least,
        stats.greatest,
        stats.sum,
    )
}

#[test]
fn trees_join_their_leaves(rt: HostRuntime) -> Result<(), Fail> {
    let nothing: Tree<WordSummary> = Tree::open(rt.alloc(), Vec::new(rt.alloc()))?;
    same!(rt; nothing.root().total, 0);
    let leaves = vec![in rt.alloc(); words(1), words(20), words(300)]?;
    let mut tree = Tree::open(rt.alloc(), leaves)?;
    same!(rt; tree.root().total, 321);
    tree.set(1, words(40));
    same!(rt; tree.root().total, 341);
    tree.refresh(|i| words(i as u64));
    same!(rt; tree.root().total, 3);
    Ok(())
}

#[test]
fn refused_memory_at_a_tree(rt: HostRuntime) {
    for _ in 0..2 {
        let Ok(leaves) = vec![in rt.alloc(); words(1), words(20), words(300)] else {
            return;
        };
        if let Ok(tree) = Tree::open(rt.alloc(), leaves) {
            same!(rt; tree.root().total, 321);
        }
    }
}

/// Pixels of 16 bits, in two blocks.
const PIXELS: Layout = Layout {
    width: 2,
    pixels: 2880,
    used: 5760,
    fill: 0,
    blank: Some(0),
};

/// No pixels.
const NONE: Layout = Layout {
    width: 0,
    pixels: 0,
    used: 0,
    fill: 0,
    blank: None,
};

#[test]
fn refused_memory_at_a_plane(rt: HostRuntime) {
    let bytes = [1; 5760];
    holds!(rt; PIXELS.fits(&bytes));
    holds!(rt; NONE.fits(&[]));
    for _ in 0..2 {
        if let Ok(plane) = Plane::open(rt.alloc(), &bytes, PIXELS) {
            same!(rt; plane.total(), 1440 * 0x101_0101);
            same!(rt; numbers(plane.stats()), (2880, 0, Some(257), Some(257), 2880 * 257));
        }
        if let Ok(plane) = Plane::open(rt.alloc(), &[], NONE) {
            same!(rt; numbers(plane.stats()), (0, 0, None, None, 0));
        }
    }
}

/// Three pixels of 16 bits.
const NARROW: Layout = Layout {
    width: 2,
    pixels: 3,
    used: 6,
    fill: 0,
    blank: None,
};

/// And of 32.
const WIDE: Layout = Layout {
    width: 4,
    pixels: 3,
    used: 12,
    fill: 0,
    blank: None,
};

// Their bytes: 0, 32767 and -32768. Unsigned, with the offset 32768, they are 32768, 65535 and 0.
fn narrow_bytes() -> [u8; 2880] {
    let mut bytes = [0; 2880];
    bytes[..6].copy_from_slice(&[0, 0, 127, 255, 128, 0]);
    bytes
}

#[test]
fn pixels_are_stored_where_they_fit(rt: HostRuntime) -> Result<(), Fail> {
    let bytes = narrow_bytes();
    holds!(rt; NARROW.fits(&bytes));
    let mut plane = Plane::open(rt.alloc(), &bytes, NARROW)?;
    let fits = (
        plane.converts(1, 1, 0),
        plane.converts(1, 2, 0),
        plane.converts(2, 3, 32768),
    );
    same!(rt; fits, (true, false, false));
    holds!(rt; plane.converted(rt.alloc(), 1, 2, 0, 2880)?.is_none());
    Ok(())
}

#[test]
fn pixels_are_stored_anew(rt: HostRuntime) -> Result<(), Fail> {
    let bytes = narrow_bytes();
    holds!(rt; NARROW.fits(&bytes));
    let mut plane = Plane::open(rt.alloc(), &bytes, NARROW)?;
    let Some(wide) = plane.converted(rt.alloc(), 4, 3, 32768, 2880)? else {
        return Err(Fail::from("no bytes"));
    };
    renew(&rt, &mut plane, wide)?;
    let found = (numbers(plane.stats()), plane.total());
    same!(rt; found, ((3, 0, Some(0), Some(65535), 98303), 98303));
    Ok(())
}

// Makes a plane one of these pixels, which are 32768, 65535 and 0.
fn renew<R: Abort + AllocGlobal>(
    rt: &R,
    plane: &mut Plane,
    wide: Vec<u8>,
) -> Result<(), AllocError> {
    holds!(rt; wide.starts_with(&[0, 0, 128, 0, 0, 0, 255, 255, 0, 0, 0, 0]));
    holds!(rt; WIDE.fits(&wide));
    let room = PlaneRoom::new(rt.alloc(), wide.len() / 2880)?;
    plane.renew(room, wide, WIDE);
    Ok(())
}
