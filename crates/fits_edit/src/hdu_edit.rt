use crate::card_edit::CardEdit;
use crate::corner::Corner;
use crate::paint::Paint;
use fits_image::Kind;
use fits_rules::Axes;

/// A change of one HDU.
#[derive(Drop)]
pub enum HduEdit {
    /// Its cards are changed; they describe the shape that they did.
    Cards(CardEdit),
    /// The pixels of a rectangle are changed.
    Pixels {
        /// The least place on each axis, from 1.
        lo: Corner,
        /// The greatest place on each axis, which is in the rectangle too.
        hi: Corner,
        paint: Paint,
    },
    /// An array of integers becomes one of this kind and with these axes. The pixels that stay keep
    /// their values, and those that come store 0.
    Reshape {
        kind: Kind,
        /// NAXIS1 first; none, or 999 at most.
        axes: Axes,
    },
    /// DATASUM and CHECKSUM are made right (FITS Standard 4.0, section 4.4.2.7): each keeps its
    /// place, or comes after the last card, and loses its comment.
    Stamp,
    /// It is stamped, and kept so: each accepted edit of its cards, its pixels or its shape is
    /// followed by a stamp, until it is released.
    Keep,
    /// It is kept stamped no longer; nothing is changed.
    Release,
}

impl HduEdit {
    ghost use Rattle.std.specs.Prelude.{◌≡◌};
    ghost use Rattle.fits_edit.specs.HduEdit.{may_rename};

    /// Whether it may change what an HDU is called.
    pub fn may_rename(&self) -> bool
        ensures { result ≡ may_rename self.now }
    {
        matches!(self, HduEdit::Cards(_))
    }
}
