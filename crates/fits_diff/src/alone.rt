//! HDUs that one of two files has alone.
ghost use Rattle.std.specs.Prelude.{◌≡◌, ◌+◌, ◌<◌, ◌≤◌, false, length, IfErr, OnOk};
ghost use Rattle.fits_card.specs.declared.card_list.TheConstants.{BLOCK_LEN};
ghost use Rattle.fits_stream.specs.Intake.{supply};
ghost use Rattle.fits_passing.specs.File.{begins_extension};
ghost use Rattle.fits_passing.specs.Reading.{file_fault_of};
ghost use Rattle.fits_passing.specs.Opening.{open_fault_of};
ghost use Rattle.fits_passing.specs.declared.limits.TheConstants.{FILE_LIMIT, HDU_LIMIT};
ghost use Rattle.fits_diff.specs.DiffSteps.{IsSeen, StopsOn, WalksOn};

use crate::lines::push_alone_line;
use fits_card::BLOCK_LEN;
use fits_passing::{
    FILE_LIMIT, HDU_LIMIT, HduFault, OpenFault, Outline, ReadFileFault, ReadHduFault,
};
use fits_stream::{Intake, Source};
use std::alloc::Global;

/// Goes past the HDUs that follow so many, and adds a line for each.
#[tactic(auto, using(crate::proofs::AloneLemmas::alone_steps))]
pub(crate) fn pass_alone<F: Source>(
    alloc: Global,
    text: &mut Vec<u8>,
    label: &[u8],
    count: usize,
    intake: &mut Intake,
    source: &mut F,
) -> Result<(), ReadFileFault>
    requires limit { length intake.old.ahead + intake.old.left ≤ FILE_LIMIT }
    requires some { 0 < count }
    requires few { count ≤ HDU_LIMIT }
    requires seen { IsSeen (supply (F.state source.old) intake.old) }
    ensures ok { OnOk result (WalksOn label.now count
        (supply (F.state source.old) intake.old) (supply (F.state source.new) intake.new)
        text.old.items text.new.items) }
    ensures ends { OnOk result (begins_extension intake.new.ahead ≡ false) }
    ensures seen { OnOk result (IsSeen (supply (F.state source.new) intake.new)) }
    ensures err { IfErr result (StopsOn count
        (supply (F.state source.old) intake.old) (supply (F.state source.new) intake.new)) }
{
    let mut number = count;
    'hdu: while begins_extension(intake.ahead()) {
        if number as u64 == HDU_LIMIT {
            return Err(ReadFileFault::Open(OpenFault::TooLarge));
        }
        number += 1;
        match Outline::read(alloc, intake, source, false) {
            Ok(outline) => drop(outline),
            Err(why) => return Err(file_fault(why, number)),
        }
        let Ok(()) = push_alone_line(text, label, number) else {
            return Err(ReadFileFault::Open(OpenFault::Memory));
        };
        let Ok(()) = intake.hold(source, BLOCK_LEN) else {
            return Err(ReadFileFault::Failed);
        };
    }
    Ok(())
}

/// Whether an extension begins here.
#[tactic(auto, unfolding(fits_passing::specs::File::begins_extension))]
pub(crate) fn begins_extension(bytes: &[u8]) -> bool
    ensures { result ≡ begins_extension bytes.now }
{
    bytes.starts_with(b"XTENSION")
}

/// The fault of HDU h as the file's.
pub(crate) fn file_fault(fault: ReadHduFault, h: usize) -> ReadFileFault
    ensures { result ≡ file_fault_of fault h }
{
    match fault {
        ReadHduFault::Hdu(fault) => ReadFileFault::Open(open_fault(fault, h)),
        ReadHduFault::Failed => ReadFileFault::Failed,
    }
}

// The same of a fault of its bytes.
fn open_fault(fault: HduFault, h: usize) -> OpenFault
    ensures { result ≡ open_fault_of fault h }
{
    match fault {
        HduFault::NoEnd => OpenFault::NoEnd { hdu: h },
        HduFault::BadShape(card) => OpenFault::BadShape { hdu: h, card },
        HduFault::ShortData => OpenFault::ShortData { hdu: h },
        HduFault::Memory => OpenFault::Memory,
    }
}
