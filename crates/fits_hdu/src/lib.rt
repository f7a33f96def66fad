//! One HDU of a FITS file: its header and its data unit.
#![tactic(auto)]

mod hdu;
mod kept_whole;
mod keyword;
mod keyword_cards;
mod new_image;
mod one_card;
mod pixel_fault;
mod planes;
mod reshape_fault;
mod reshaped_header;
mod reshaped_unit;
mod reshaping;
mod scaling;
mod stamp_cards;

pub use fits_passing::{ExtensionName, HduFault, ReadHduFault, Verdict, Verdicts};
pub use fits_pixels::ValueSummary as Stats;
pub use hdu::Hdu;
pub use keyword::KeywordFault;
pub use keyword_cards::{KeywordCards, replacement};
pub use new_image::image_len;
pub use pixel_fault::PixelFault;
pub use reshape_fault::ReshapeFault;
pub use stamp_cards::StampCards;
