//! What a header of a FITS file says of its data: shapes and sizes.
#![tactic(auto)]

mod array_shape;
mod axes;
mod axis_buffer;
mod axis_names;
mod changed;
mod class;
mod denoting;
mod image;
mod integers;
mod laws;
mod leads;
mod mandatory;
mod reading;
mod reads;
mod rules;
mod shape_leads;
mod shape_reading;
mod size;

pub use array_shape::Shape;
pub use axes::Axes;
pub use axis_names::axis_name;
pub use class::Class;
pub use denoting::card_denotes;
pub use image::{array_bits, image_bits};
pub use integers::{IntegerSaid, integer_said};
pub use laws::{
    broken_places_are_near, classes_tell_the_primary_hdu, later_splices_keep_shapes,
    shapes_are_bounded, shapes_are_described, shapes_compare_exactly, which_numbers_cards_denote,
};
pub use leads::{lead, lead_card};
pub use mandatory::{ShapeFault, keeps_shape, shape};
pub use shape_leads::ShapeLeads;
pub use size::data_bytes;
