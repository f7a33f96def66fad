//! The values that cards of FITS headers hold, and how they are spelled.
#![tactic(auto)]

mod card_text;
mod characters;
mod decimal;
mod excerpt;
mod long_string;
mod number;
mod read;
mod reading;
mod runs;
mod scan;
mod scan_complex;
mod scan_value;
mod spaces;
mod strings;
mod text;
mod unreadable;
mod unwritable;
mod value;
mod write;

pub use excerpt::Excerpt;
pub use long_string::{link_count, long_value};
pub use number::{denotes, integer_of};
pub use read::{read_field, read_value};
pub use reading::{Reading, Span, ValueKind};
pub use scan::scan_card;
pub use spaces::trimmed_len;
pub use strings::{
    CardString, MOST_CHARACTERS, card_string, is_continue, is_open_string, link_string,
};
pub use text::Text;
pub use unreadable::{Unreadable, unreadable_of};
pub use unwritable::{Unwritable, writable};
pub use value::Value;
pub use write::{WriteFault, write_value};
