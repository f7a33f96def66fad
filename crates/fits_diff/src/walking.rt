//! A walk over the HDUs of two files, side by side.
ghost use Rattle.std.specs.Prelude.{◌≡◌, ◌+◌, ◌≤◌, ◌<◌, ◌&&◌, false, [], length, codes, nat_eq, IfOk, IfErr, OnOk};
ghost use Rattle.std.specs.List.{starts_with};
ghost use Rattle.fits_stream.specs.Intake.{supply, Takes};
ghost use Rattle.fits_passing.specs.File.{begins_extension};
ghost use Rattle.fits_passing.specs.declared.limits.TheConstants.{FILE_LIMIT, HDU_LIMIT};
ghost use Rattle.fits_diff.specs.DiffSteps.{diff_fault_of, IsSeen, OneFails, WalkAll, WalkPairs, WalksStop};

use crate::alone::{begins_extension, file_fault, pass_alone};
use crate::diff_fault::DiffFault;
use crate::hdus::compare_hdus;
use crate::pair_fault::PairFault;
use fits_card::BLOCK_LEN;
use fits_passing::{FILE_LIMIT, HDU_LIMIT, OpenFault, ReadFileFault};
use fits_stream::{Intake, Source};
use std::alloc::Global;

const NOT_FITS: ReadFileFault = ReadFileFault::Open(OpenFault::NotFits);

/// Goes past all HDUs of both, and adds the lines of how they differ.
pub(crate) fn walk_both<F: Source>(
    alloc: Global,
    text: &mut Vec<u8>,
    first: &mut Intake,
    a: &mut F,
    second: &mut Intake,
    b: &mut F,
) -> Result<(), DiffFault>
    requires limit { length first.old.ahead + first.old.left ≤ FILE_LIMIT }
    requires limit_other { length second.old.ahead + second.old.left ≤ FILE_LIMIT }
    requires empty { text.old.items ≡ [] }
    ensures ok { OnOk result (WalkAll
        (supply (F.state a.old) first.old) (supply (F.state a.new) first.new)
        (supply (F.state b.old) second.old) (supply (F.state b.new) second.new)
        text.new.items) }
    ensures ends { OnOk result (begins_extension first.new.ahead ≡ false) }
    ensures ends_other { OnOk result (begins_extension second.new.ahead ≡ false) }
    ensures seen { OnOk result (IsSeen (supply (F.state a.new) first.new)) }
    ensures seen_other { OnOk result (IsSeen (supply (F.state b.new) second.new)) }
    ensures err { IfErr result (WalksStop
        (supply (F.state a.old) first.old) (supply (F.state a.new) first.new)
        (supply (F.state b.old) second.old) (supply (F.state b.new) second.new)) }
{
    let count = match walk_pairs(alloc, text, first, a, second, b) {
        Ok(count) => count,
        Err(why) => return Err(why),
    };
    match pass_alone(alloc, text, b"A", count, first, a) {
        Ok(()) => {}
        Err(why) => return Err(DiffFault::First(why)),
    }
    match pass_alone(alloc, text, b"B", count, second, b) {
        Ok(()) => Ok(()),
        Err(why) => Err(DiffFault::Second(why)),
    }
}

// Goes past as many HDUs of each as both have, and adds the lines of how they differ.
#[tactic(auto, using(crate::proofs::PairLemmas::pair_steps))]
fn walk_pairs<F: Source>(
    alloc: Global,
    text: &mut Vec<u8>,
    first: &mut Intake,
    a: &mut F,
    second: &mut Intake,
    b: &mut F,
) -> Result<usize, DiffFault>
    requires limit { length first.old.ahead + first.old.left ≤ FILE_LIMIT }
    requires limit_other { length second.old.ahead + second.old.left ≤ FILE_LIMIT }
    requires empty { text.old.items ≡ [] }
    ensures ok { IfOk result (λ count. WalkPairs count
        (supply (F.state a.old) first.old) (supply (F.state a.new) first.new)
        (supply (F.state b.old) second.old) (supply (F.state b.new) second.new)
        text.new.items) }
    ensures some { IfOk result (λ count. 0 < count) }
    ensures few { IfOk result (λ count. count ≤ HDU_LIMIT) }
    ensures ends { OnOk result ((begins_extension first.new.ahead
        && begins_extension second.new.ahead) ≡ false) }
    ensures seen { OnOk result (IsSeen (supply (F.state a.new) first.new)) }
    ensures seen_other { OnOk result (IsSeen (supply (F.state b.new) second.new)) }
    ensures err { IfErr result (WalksStop
        (supply (F.state a.old) first.old) (supply (F.state a.new) first.new)
        (supply (F.state b.old) second.old) (supply (F.state b.new) second.new)) }
{
    match hold_both(first, a, second, b) {
        Ok(()) => {}
        Err(why) => return Err(why),
    }
    if !begins_file(first.ahead()) {
        return Err(DiffFault::First(NOT_FITS));
    }
    if !begins_file(second.ahead()) {
        return Err(DiffFault::Second(NOT_FITS));
    }
    let mut count = 0;
    'hdu: loop {
        match compare_hdus(alloc, text, count + 1, first, a, second, b) {
            Ok(()) => {}
            Err(why) => return Err(diff_fault(why, count + 1)),
        }
        count += 1;
        match hold_both(first, a, second, b) {
            Ok(()) => {}
            Err(why) => return Err(why),
        }
        if !both_begin(first.ahead(), second.ahead()) {
            return Ok(count);
        }
        if count as u64 == HDU_LIMIT {
            return Err(DiffFault::First(ReadFileFault::Open(OpenFault::TooLarge)));
        }
    }
}

/// Holds a block of each ahead.
pub(crate) fn hold_both<F: Source>(
    first: &mut Intake,
    a: &mut F,
    second: &mut Intake,
    b: &mut F,
) -> Result<(), DiffFault>
    ensures ok { OnOk result (Takes
        (supply (F.state a.old) first.old) (supply (F.state a.new) first.new) []) }
    ensures ok_other { OnOk result (Takes
        (supply (F.state b.old) second.old) (supply (F.state b.new) second.new) []) }
    ensures seen { OnOk result (IsSeen (supply (F.state a.new) first.new)) }
    ensures seen_other { OnOk result (IsSeen (supply (F.state b.new) second.new)) }
    ensures err { IfErr result (OneFails
        (supply (F.state a.old) first.old) (supply (F.state a.new) first.new)
        (supply (F.state b.old) second.old) (supply (F.state b.new) second.new)) }
{
    let Ok(()) = first.hold(a, BLOCK_LEN) else {
        return Err(DiffFault::First(ReadFileFault::Failed));
    };
    let Ok(()) = second.hold(b, BLOCK_LEN) else {
        return Err(DiffFault::Second(ReadFileFault::Failed));
    };
    Ok(())
}

// Whether extensions begin in both.
fn both_begin(bytes: &[u8], others: &[u8]) -> bool
    ensures { result ≡ (begins_extension bytes.now && begins_extension others.now) }
{
    begins_extension(bytes) && begins_extension(others)
}

// Whether a file begins here.
fn begins_file(bytes: &[u8]) -> bool
    ensures { result ≡ starts_with nat_eq bytes.now (codes "SIMPLE  ") }
{
    bytes.starts_with(b"SIMPLE  ")
}

// Why HDUs of this number weren't compared, as a fault of the files.
fn diff_fault(why: PairFault, h: usize) -> DiffFault
    ensures { result ≡ diff_fault_of why h }
{
    match why {
        PairFault::First(why) => DiffFault::First(file_fault(why, h)),
        PairFault::Second(why) => DiffFault::Second(file_fault(why, h)),
        PairFault::Memory => DiffFault::Memory,
    }
}
