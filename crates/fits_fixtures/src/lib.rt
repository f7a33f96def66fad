//! What the tests are made of: cards, headers and files of texts, streams that follow a plan, values as lines.
#![tactic(auto)]

mod builders;
mod changing;
mod checks;
mod lines;
mod planned;

pub use builders::{
    COMMENTS, ChangeText, FileText, HduText, P0, PIXEL, add_cards, card_of, card_of_bytes, change,
    change_of, end_header, file_of, fill_up, hdu_of, header_of, name_of, unit_of, zeroed_file_of,
};
pub use changing::ChangingBytes;
pub use lines::line_of;
pub use planned::{
    Plan, PlannedReader, PlannedWriter, SMOOTH, StoredBytes, broken_bytes, reader, stored,
    stored_bytes, writer,
};
