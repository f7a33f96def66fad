//! A FITS file under edits: several HDUs and a tail, opened, changed, asked and saved.
#![tactic(auto)]

mod holder;
mod name_table;
mod placing;
mod save_fault;
mod session;

pub use fits_edit::{CardEdit, Corner, Edit, HduEdit, Paint, PixelValues};
pub use fits_making::Refusal;
pub use fits_passing::{
    FILE_LIMIT, HDU_LIMIT, HduOffsets, OpenFault, Problem, ReadFileFault, within,
};
pub use holder::{Holder, InFile, InMemory};
pub use save_fault::SaveFault;
pub use session::Session;
