//! How a result is saved, so that what stood at its path is never lost.
#![tactic(auto)]

mod act;
mod begin_fault;
mod beside;
mod finding;
mod path_lock;
mod place;
mod save_fault;
mod saved_file;
mod saving;
mod seen;
mod slot;
mod stage;
mod system;
mod taking;
mod target;

pub use act::Act;
pub use begin_fault::BeginFault;
pub use place::Place;
pub use save_fault::SaveFault;
pub use saved_file::SavedFile;
pub use saving::Saving;
pub use seen::Seen;
pub use stage::Stage;
pub use system::System;
pub use taking::Taking;
