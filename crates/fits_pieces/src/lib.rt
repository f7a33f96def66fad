//! Data units of which some pieces are in memory, and the others in their file alone.
#![tactic(auto)]

mod blocks;
mod layouts;
mod missing;
mod painting;
mod passing_pieces;
mod piece;
mod piece_fault;
mod piece_work;
mod pieced_unit;
mod reading;
mod rescanning;

pub use layouts::PIECE_LEN;
pub use passing_pieces::PassingPieces;
pub use piece_fault::PieceFault;
pub use piece_work::PieceWork;
pub use pieced_unit::PiecedUnit;
