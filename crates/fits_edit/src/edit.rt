use crate::hdu_edit::HduEdit;
use fits_image::Kind;
use fits_rules::Axes;

/// A change of a file. HDUs count from 1.
#[derive(Drop)]
pub enum Edit {
    /// An HDU is changed, and keeps its place.
    Hdu {
        hdu: usize,
        edit: HduEdit,
    },
    /// A new image extension of this kind and with these axes, whose pixels are zero bytes. It is HDU
    /// `at` then: those from there on move up.
    NewImage {
        /// From 2 to one past the last HDU.
        at: usize,
        kind: Kind,
        /// NAXIS1 first; 999 at most.
        axes: Axes,
    },
    /// The HDU goes, and those after it move down. The primary HDU stays.
    RemoveHdu {
        hdu: usize,
    },
}
