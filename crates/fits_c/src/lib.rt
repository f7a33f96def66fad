//! FITS files in memory, for callers in C: the runs of the program `fitsed`, and sessions.
//!
//! A run takes bytes of the caller's and gives an outcome, which is the library's until the caller
//! frees it. A session lives across calls, until it is closed. Where memory is refused nothing is
//! given, and a session stands as it did.
#![tactic(auto)]

mod bytes;
mod flags;
mod given;
mod laws;
mod live;
mod message;
mod number;
mod numbers;
mod outcome;
mod outcome_handle;
mod pixel_calls;
mod pixels;
mod place;
mod queries;
mod rect_rows;
mod rows;
mod running;
mod runs;
mod session_calls;
mod session_handle;
mod shaped;
mod summary;
mod sums;
mod undone;
mod valued;
mod values;
mod wide;
