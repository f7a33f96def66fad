//! Streams that count their failed calls, and how the bytes of one are taken.
#![tactic(auto)]

mod ahead;
mod came;
mod count;
mod file_source;
mod giver;
mod gone_bytes;
mod intake;
mod named_lines;
mod piece;
mod reach;
mod read_log;
mod reading;
mod sink;
mod skipping;
mod slice_source;
mod source;
mod stored;
mod stored_source;
mod watched;
mod writing;

pub use came::Came;
pub use count::Count;
pub use file_source::FileSource;
pub use gone_bytes::GoneBytes;
pub use intake::Intake;
pub use named_lines::NamedLines;
pub use piece::fill;
pub use reach::Reach;
pub use read_log::ReadLog;
pub use reading::{PIECE_LEN, ReadFault, buffer_of};
pub use sink::Sink;
pub use source::Source;
pub use stored::Stored;
pub use stored_source::StoredSource;
pub use watched::Watched;
pub use writing::write_all;
