//! One block of a data unit: its pixels and words, read by one look, and summaries that are joined.
#![tactic(auto)]

mod both;
mod extremes;
mod filling;
mod halves;
mod layout;
mod long_halves;
mod passes;
mod pixel_summary;
mod pixels;
mod pixels_16;
mod pixels_32;
mod pixels_64;
mod pixels_8;
mod scan;
mod scan_end;
mod signed;
mod signed_pixel;
mod summary;
mod value_summary;
mod width;
mod word_summary;

pub use both::Both;
pub use filling::is_filled;
pub use layout::Layout;
pub use pixel_summary::PixelSummary;
pub use pixels::{are_storable, is_storable, pixel_at, put_pixel, read_bytes, stores};
pub use scan::{Leaf, pixels_per_block, scan_block, scan_part};
pub use summary::Summary;
pub use value_summary::ValueSummary;
pub use width::Width;
pub use word_summary::WordSummary;
