//! Files that come from a source: they open as their bytes do, however the source gives them.

use fits_fixtures::{FileText, P0, PIXEL, Plan, SMOOTH, change, file_of, reader, same, stored};
use fits_hdu::Stats;
use fits_passing::{read_outlines, read_statistics, read_sums};
use fits_session::{OpenFault, ReadFileFault, Session};
use std::process::Abort;
use std::test::Fail;

/// A file of three HDUs and a tail.
const FILE: FileText<'static> = (&[(P0, 0), (PIXEL, 1), (PIXEL, 1)], "trailer");

/// An array of three pixels of 16 bits.
const PIXELS: FileText<'static> = (
    &[(
        "SIMPLE  =                    T|BITPIX  =                   16|NAXIS   =                    1|\
        NAXIS1  =                    3|END",
        1,
    )],
    "",
);

/// The fault of each prefix of it.
const PIXEL_PREFIXES: &[(usize, usize, Option<OpenFault>)] = &[
    (0, 7, Some(OpenFault::NotFits)),
    (8, 2879, Some(OpenFault::NoEnd { hdu: 1 })),
    (2880, 5759, Some(OpenFault::ShortData { hdu: 1 })),
    (5760, 5760, None),
];

/// The fault of each prefix of the file of three HDUs, from a length through another.
const PREFIXES: &[(usize, usize, Option<OpenFault>)] = &[
    (0, 7, Some(OpenFault::NotFits)),
    (8, 2879, Some(OpenFault::NoEnd { hdu: 1 })),
    (2880, 2887, None),
    (2888, 5759, Some(OpenFault::NoEnd { hdu: 2 })),
    (5760, 8639, Some(OpenFault::ShortData { hdu: 2 })),
    (8640, 8647, None),
    (8648, 11_519, Some(OpenFault::NoEnd { hdu: 3 })),
    (11_520, 14_399, Some(OpenFault::ShortData { hdu: 3 })),
    (14_400, 14_407, None),
];

// Whether a source of these bytes ends so, with its data kept and without.
fn reads_to<R: Abort + AllocGlobal>(
    rt: &R,
    bytes: &[u8],
    plan: Plan,
    fault: Option<ReadFileFault>,
    place: usize,
) {
    let kept = Session::read(rt.alloc(), &mut reader(bytes, plan)).err();
    same!(rt; kept, fault, place);
    let outlined = read_outlines(rt.alloc(), &mut reader(bytes, plan)).err();
    same!(rt; outlined, fault, place);
}

#[test]
fn each_prefix_of_a_file_has_its_fault(rt: HostRuntime) -> Result<(), Fail> {
    for (file, prefixes) in [(FILE, PREFIXES), (PIXELS, PIXEL_PREFIXES)] {
        let bytes = file_of(rt.alloc(), file)?;
        for (least, most, fault) in prefixes {
            for len in *least..=*most {
                let (front, _) = bytes.split_at(len.min(bytes.len()));
                reads_to(&rt, front, SMOOTH, fault.map(ReadFileFault::Open), len);
            }
        }
    }
    Ok(())
}

#[test]
fn the_ends_of_prefixes_are_told_of_or_refused_alike(rt: HostRuntime) -> Result<(), Fail> {
    let bytes = file_of(rt.alloc(), FILE)?;
    for (least, most, fault) in PREFIXES {
        for len in [*least, *most] {
            let (front, _) = bytes.split_at(len.min(bytes.len()));
            for step in [7usize, 2880, 1_000_000] {
                let plan = Plan { step, failing: 0 };
                let found = read_sums(rt.alloc(), &mut reader(front, plan)).err();
                same!(rt; found, fault.map(ReadFileFault::Open), (len, step));
                let found = read_statistics(rt.alloc(), &mut reader(front, plan)).err();
                same!(rt; found, fault.map(ReadFileFault::Open), (len, step));
            }
        }
    }
    Ok(())
}

#[test]
fn images_have_statistics_as_their_data_pass_by(rt: HostRuntime) -> Result<(), Fail> {
    let bytes = file_of(rt.alloc(), FILE)?;
    // the one pixel of each extension has the bytes 0 and 1
    let one = Stats {
        defined: 1,
        blank: 0,
        least: Some(1),
        greatest: Some(1),
        sum: 1,
    };
    let wanted = [None, Some(one), Some(one)];
    for step in [7usize, 2880, 1_000_000] {
        let plan = Plan { step, failing: 0 };
        let found = read_statistics(rt.alloc(), &mut reader(&bytes, plan))?;
        same!(rt; found.len(), wanted.len(), step);
        for (it, stats) in found.iter().zip(wanted.iter()) {
            same!(rt; it.stats, *stats, step);
        }
    }
    Ok(())
}

#[test]
fn data_are_gone_past_as_they_are_read(rt: HostRuntime) -> Result<(), Fail> {
    let bytes = file_of(rt.alloc(), FILE)?;
    for (least, most, fault) in PREFIXES {
        for len in [*least, *most] {
            let (front, _) = bytes.split_at(len.min(bytes.len()));
            for known in [0usize, len / 2, len] {
                let found = read_outlines(rt.alloc(), &mut stored(front, known)).err();
                same!(rt; found, fault.map(ReadFileFault::Open), (len, known));
            }
        }
    }
    Ok(())
}

/// Where the headers stand, with their fill.
const HEADERS: &[(usize, usize)] = &[(0, 2880), (2880, 5760), (8640, 11_520)];

#[test]
fn a_changed_byte_of_a_header_reads_as_it_opens(rt: HostRuntime) -> Result<(), Fail> {
    let mut bytes = file_of(rt.alloc(), FILE)?;
    for (start, end) in HEADERS {
        for place in *start..*end {
            let before = change(&mut bytes, place, b'?');
            let fault = Session::open(rt.alloc(), &bytes).err();
            reads_to(&rt, &bytes, SMOOTH, fault.map(ReadFileFault::Open), place);
            change(&mut bytes, place, before);
        }
    }
    Ok(())
}

#[test]
fn a_call_may_give_few_bytes(rt: HostRuntime) -> Result<(), Fail> {
    let bytes = file_of(rt.alloc(), FILE)?;
    for step in [1usize, 7, 2879, 2880, 2881] {
        let plan = Plan { step, failing: 0 };
        reads_to(&rt, &bytes, plan, None, step);
    }
    // a source that gives nothing has no bytes
    let plan = Plan {
        step: 0,
        failing: 0,
    };
    reads_to(
        &rt,
        &bytes,
        plan,
        Some(ReadFileFault::Open(OpenFault::NotFits)),
        0,
    );
    Ok(())
}

#[test]
fn a_failed_call_comes_before_any_fault_of_the_bytes(rt: HostRuntime) -> Result<(), Fail> {
    let bytes = file_of(rt.alloc(), FILE)?;
    for (_, len, _) in PREFIXES {
        let (front, _) = bytes.split_at((*len).min(bytes.len()));
        let mut whole = reader(front, SMOOTH);
        let _ = Session::read(rt.alloc(), &mut whole);
        let calls = whole.into_inner().calls;
        for failing in 1..=calls {
            let plan = Plan { failing, ..SMOOTH };
            let fault = Session::read(rt.alloc(), &mut reader(front, plan)).err();
            same!(rt; fault, Some(ReadFileFault::Failed), (len, failing));
        }
    }
    Ok(())
}
