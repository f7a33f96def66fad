//! Keyword records of FITS headers, the cut of a header, and the store that edits it.
#![tactic(auto)]

mod card;
mod card_list;
mod cards;
mod change;
mod cut;
mod fill;
mod header_front;
mod header_reading;
mod laws;
mod name;
mod order;
mod room;
mod slotted;
mod slotted_cards;
mod text;

pub use card::{CARD_LEN, Card};
pub use card_list::{BLOCK_LEN, CardList, header_len};
pub use cards::Cards;
pub use change::Change;
pub use cut::{HeaderFault, cut_header, has_header};
pub use header_front::HeaderFront;
pub use header_reading::{ReadHeaderFault, read_front, read_header};
pub use laws::{a_header_or_none, one_header};
pub use name::Name;
pub use room::{reserve_room, room_for};
pub use slotted::Slotted;
pub use text::is_text;
// The jobs of the benchmark name it here, also where they stand in an older checkout.
pub use fits_stream::Watched;
