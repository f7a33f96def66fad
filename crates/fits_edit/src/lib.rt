//! The values of an edit: what is changed of a file, of an HDU, of its cards, of its pixels.
#![tactic(auto)]

mod card_edit;
mod corner;
mod edit;
mod hdu_edit;
mod paint;
mod pixel_values;

pub use card_edit::CardEdit;
pub use corner::Corner;
pub use edit::Edit;
pub use hdu_edit::HduEdit;
pub use paint::Paint;
pub use pixel_values::PixelValues;
