//! A session that lives across calls, for callers in C.
ghost use Rattle.std.specs.Prelude.{◌≡◌, IfOk, IfErr, None};
ghost use Rattle.fits_passing.specs.Opening.{OpenFails};
ghost use Rattle.fits_c.specs.Queries.{OffsetsComeTo, ProblemsComeTo, ShapeComesTo, StatsComeTo, SumsComeTo};
ghost use Rattle.fits_c.specs.Session.{opening_number, opening_place, Calls, IsOpen, IsSessionOf, LineIsAnswered, OpenComesTo, SaveComesTo, Stays};
ghost use Rattle.fits_c.specs.Values.{ValueComesTo};
ghost use Rattle.fits_c.specs.declared.live.Live.{Live};

use crate::bytes::Bytes;
use crate::live::Live;
use crate::numbers::Numbers;
use crate::place::Place;
use crate::session_handle::SessionHandle;
use crate::shaped::Shaped;
use crate::summary::Summary;
use crate::sums::Sums;
use crate::valued::Valued;
use fits_session::OpenFault;
use std::alloc::Global;

/// Opens the file that has these bytes.
#[unsafe(no_mangle)]
pub extern "C" fn fitsed_open(
    alloc: Global,
    file: &[u8],
    session: &mut SessionHandle,
    place: &mut Place,
) -> u8
    requires { session.old.live ≡ None }
    ensures { OpenComesTo file.now result session.new.live place.new }
{
    match open(alloc, file) {
        Ok(live) => {
            *session = SessionHandle::of(live);
            0
        }
        Err(why) => {
            *place = place_of(why);
            number_of(why)
        }
    }
}

/// Does what a line of a script says, without its line feed, and gives its answer.
#[unsafe(no_mangle)]
pub extern "C" fn fitsed_line(
    alloc: Global,
    session: &mut SessionHandle,
    line: &[u8],
    answer: &mut Bytes,
) -> u8
    requires { IsOpen session.old }
    ensures { Calls (λ (old new : Live). LineIsAnswered old line.now result answer.new new) session.old session.new }
{
    let mut live = session.take(alloc);
    let number = live.line(alloc, line, answer);
    *session = SessionHandle::of(live);
    number
}

/// Gives the present bytes of the file.
#[unsafe(no_mangle)]
pub extern "C" fn fitsed_save(alloc: Global, session: &mut SessionHandle, saved: &mut Bytes) -> u8
    requires { IsOpen session.old }
    ensures { Calls (λ (old new : Live). SaveComesTo old result saved.new new) session.old session.new }
{
    let mut live = session.take(alloc);
    let number = live.save(alloc, saved);
    *session = SessionHandle::of(live);
    number
}

/// Gives the value of a keyword, and its comment.
#[unsafe(no_mangle)]
pub extern "C" fn fitsed_value(
    alloc: Global,
    session: &mut SessionHandle,
    hdu: usize,
    name: &[u8; 8],
    valued: &mut Valued,
) -> u8
    requires { IsOpen session.old }
    ensures { Calls (λ (old new : Live). ValueComesTo old hdu name.now result valued.new new) session.old session.new }
{
    let mut live = session.take(alloc);
    let number = live.value(alloc, hdu, name, valued);
    *session = SessionHandle::of(live);
    number
}

/// Says what an HDU is, and gives its axes.
#[unsafe(no_mangle)]
pub extern "C" fn fitsed_shape(
    alloc: Global,
    session: &mut SessionHandle,
    hdu: usize,
    shaped: &mut Shaped,
) -> u8
    requires { IsOpen session.old }
    ensures { Calls (λ (old new : Live). ShapeComesTo old hdu result shaped.new new) session.old session.new }
{
    let mut live = session.take(alloc);
    let number = live.shape(alloc, hdu, shaped);
    *session = SessionHandle::of(live);
    number
}

/// Gives the sum of a data unit, and says whether the sums of its HDU are right.
#[unsafe(no_mangle)]
pub extern "C" fn fitsed_sums(
    alloc: Global,
    session: &mut SessionHandle,
    hdu: usize,
    sums: &mut Sums,
) -> u8
    requires { IsOpen session.old }
    ensures { Calls (λ (old new : Live). Stays old new × SumsComeTo old hdu result sums.new) session.old session.new }
{
    let live = session.take(alloc);
    let number = live.sums(hdu, sums);
    *session = SessionHandle::of(live);
    number
}

/// Gives the statistics of the pixels of an HDU.
#[unsafe(no_mangle)]
pub extern "C" fn fitsed_stats(
    alloc: Global,
    session: &mut SessionHandle,
    hdu: usize,
    summary: &mut Summary,
) -> u8
    requires { IsOpen session.old }
    ensures { Calls (λ (old new : Live). Stays old new × StatsComeTo old hdu result summary.new) session.old session.new }
{
    let live = session.take(alloc);
    let number = live.stats(hdu, summary);
    *session = SessionHandle::of(live);
    number
}

/// Gives where each HDU begins, its data begin, and it ends.
#[unsafe(no_mangle)]
pub extern "C" fn fitsed_offsets(
    alloc: Global,
    session: &mut SessionHandle,
    offsets: &mut Numbers,
) -> u8
    requires { IsOpen session.old }
    ensures { Calls (λ (old new : Live). OffsetsComeTo old result offsets.new new) session.old session.new }
{
    let mut live = session.take(alloc);
    let number = live.offsets(alloc, offsets);
    *session = SessionHandle::of(live);
    number
}

/// Gives what is wrong with the file.
#[unsafe(no_mangle)]
pub extern "C" fn fitsed_problems(
    alloc: Global,
    session: &mut SessionHandle,
    problems: &mut Numbers,
) -> u8
    requires { IsOpen session.old }
    ensures { Calls (λ (old new : Live). ProblemsComeTo old result problems.new new) session.old session.new }
{
    let mut live = session.take(alloc);
    let number = live.problems(alloc, problems);
    *session = SessionHandle::of(live);
    number
}

/// Ends a session. Then C has none.
#[unsafe(no_mangle)]
pub extern "C" fn fitsed_close(alloc: Global, session: &mut SessionHandle)
    requires { IsOpen session.old }
    ensures { session.new.live ≡ None }
{
    drop(session.take(alloc));
}

// The box of a session of these bytes.
fn open(alloc: Global, file: &[u8]) -> Result<Box<Live>, OpenFault>
    ensures ok { IfOk result (λ live. IsSessionOf file.now live.value.session) }
    ensures err { IfErr result (OpenFails file.now) }
{
    let live = Live::open(alloc, file)?;
    Ok(Box::new(alloc, live)?)
}

// The number of why a file doesn't open.
fn number_of(why: OpenFault) -> u8
    ensures { result ≡ opening_number why }
{
    match why {
        OpenFault::NotFits => 1,
        OpenFault::NoEnd { .. } => 2,
        OpenFault::BadShape { .. } => 3,
        OpenFault::ShortData { .. } => 4,
        OpenFault::TooLarge => 5,
        OpenFault::Memory => 6,
    }
}

// Where it has the fault.
fn place_of(why: OpenFault) -> Place
    ensures { result ≡ opening_place why }
{
    match why {
        OpenFault::NoEnd { hdu } | OpenFault::ShortData { hdu } => Place { hdu, card: 0 },
        OpenFault::BadShape { hdu, card } => Place { hdu, card },
        OpenFault::NotFits | OpenFault::TooLarge | OpenFault::Memory => Place { hdu: 0, card: 0 },
    }
}
