//! Images of integers: the types of their pixels, and the cards that describe them.
#![tactic(auto)]

mod axes;
mod image_cards;
mod kind;

pub use axes::{are_axes, image_shape};
pub use image_cards::{card_count, image_header, number_cards, shape_cards};
pub use kind::{Kind, array_kind, image_kind, is_plain, pixel_kind};
