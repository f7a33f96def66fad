//! The headers of a source, also of one that is no file, whose data pass by.
ghost use Rattle.std.specs.Prelude.{◌≡◌, ◌+◌, ◌≤◌, [], length, IfOk, IfErr, OnOk};
ghost use Rattle.fits_stream.specs.Gave.{FindsAll};
ghost use Rattle.fits_stream.specs.Intake.{supply, TakingStops};
ghost use Rattle.fits_stream.specs.Stream.{StaysQuiet};
ghost use Rattle.fits_passing.specs.declared.limits.TheConstants.{FILE_LIMIT};
ghost use Rattle.fits_passing.specs.Headers.{read_cards, AreHeadersIn, ShowsHeaders};

use crate::headed::Headed;
use crate::limits::{FILE_LIMIT, HDU_LIMIT};
use crate::open_fault::OpenFault;
use crate::walking::{begins_extension, begins_file, open_fault};
use fits_card::{BLOCK_LEN, CardList};
use fits_stream::{Intake, Reach, ReadFault, Source};
use std::alloc::Global;

/// The headers of what a source has, as far as they can be read.
#[derive(Drop)]
pub struct Headers {
    /// Those of its HDUs. Of one that can't be read there are the cards before END.
    pub headers: Vec<CardList>,
    /// Why it is no file, if it is none; never that memory was refused.
    pub fault: Option<OpenFault>,
}

/// The headers of what a source has, which is read as by `read_outlines`.
///
/// No data unit and no tail is kept.
pub fn read_headers<R: Source>(alloc: Global, source: &mut R) -> Result<Headers, ReadFault>
    ensures ok { IfOk result (λ it. ShowsHeaders (R.state source.old) (R.state source.new)
        (read_cards it.headers.items) it.fault) }
    ensures quiet { OnOk result (StaysQuiet (R.state source.old) (R.state source.new)) }
    ensures err { IfErr result (TakingStops (R.state source.old) (R.state source.new)) }
{
    let mut intake = Intake::new(alloc, FILE_LIMIT as usize, Reach::Wanted)?;
    let mut headers = Vec::new(alloc);
    let fault = match walk_headers(alloc, &mut headers, &mut intake, source) {
        Ok(fault) => fault,
        Err(why) => return Err(why),
    };
    match intake.overruns(source) {
        Ok(true) => Ok(Headers {
            headers,
            fault: Some(OpenFault::TooLarge),
        }),
        Ok(false) => Ok(Headers { headers, fault }),
        Err(_) => Err(ReadFault::Failed),
    }
}

// Reads the headers of what may be taken, and says why no file comes, if none does.
#[tactic(auto, using(crate::proofs::WalkLemmas::walk_steps))]
fn walk_headers<R: Source>(
    alloc: Global,
    headers: &mut Vec<CardList>,
    intake: &mut Intake,
    source: &mut R,
) -> Result<Option<OpenFault>, ReadFault>
    requires few { length intake.old.ahead + intake.old.left ≤ FILE_LIMIT }
    requires empty { headers.old.items ≡ [] }
    ensures ok { IfOk result (λ fault. FindsAll
        (supply (R.state source.old) intake.old) (supply (R.state source.new) intake.new)
        (AreHeadersIn (read_cards headers.new.items) fault)) }
    ensures err { IfErr result (TakingStops (R.state source.old) (R.state source.new)) }
{
    let Ok(()) = intake.hold(source, BLOCK_LEN) else {
        return Err(ReadFault::Failed);
    };
    if !begins_file(intake.ahead()) {
        return Ok(Some(OpenFault::NotFits));
    }
    'hdu: loop {
        let Headed { cards, fault } = match Headed::read(
            alloc,
            intake,
            source,
            headers.is_empty(),
        ) {
            Ok(head) => head,
            Err(why) => return Err(why),
        };
        let Ok(()) = headers.push(cards) else {
            return Err(ReadFault::Memory);
        };
        match fault {
            Some(why) => return Ok(Some(open_fault(why, headers.len()))),
            None => {}
        }
        let Ok(()) = intake.hold(source, BLOCK_LEN) else {
            return Err(ReadFault::Failed);
        };
        if !begins_extension(intake.ahead()) {
            return Ok(None);
        }
        if headers.len() as u64 == HDU_LIMIT {
            return Ok(Some(OpenFault::TooLarge));
        }
    }
}
