ghost use Rattle.std.specs.Prelude.{◌≡◌};

use fits_pixels::Layout;
use std::marker::Model;

/// A data unit of which no byte was looked at: how its bytes are read, and how many there are.
///
/// Contracts see as many zeros in their place.
#[derive(Drop)]
pub struct UnreadUnit {
    layout: Layout,
    len: usize,
}

impl Model for UnreadUnit {
    ghost use Rattle.std.specs.Prelude.{replicate};
    ghost use Rattle.fits_unit.specs.Unread.{LaysOut, UnreadState};

    ghost Value = { UnreadState };

    ghost view = { λ it. record { bytes = replicate it.len 0; layout = it.layout } };

    ghost invariant = { λ it. LaysOut it.layout it.len };
}

impl UnreadUnit {
    ghost use Rattle.std.specs.Prelude.{◌≡◌, length, replicate};
    ghost use Rattle.fits_pixels.specs.Layout.{IsLayout};
    ghost use Rattle.fits_unit.specs.Unread.{LaysOut};

    /// A data unit of so many bytes, which are read so.
    pub fn new(layout: Layout, len: usize) -> UnreadUnit
        requires { LaysOut layout len }
        ensures { result ≡ record { bytes = replicate len 0; layout = layout } }
    {
        UnreadUnit { layout, len }
    }

    pub fn layout(&self) -> Layout
        ensures value { result ≡ self.now.layout }
        ensures fits { IsLayout result self.now.bytes }
        ensures any { LaysOut result (length self.now.bytes) }
    {
        self.layout
    }

    /// How many bytes it has, with the fill.
    pub fn byte_len(&self) -> usize
        ensures { result ≡ length self.now.bytes }
    {
        self.len
    }

    /// Makes this the stored number of undefined pixels.
    pub fn set_blank(&mut self, blank: Option<i64>)
        ensures { self.new ≡ record self.old {
          layout = record self.old.layout { blank = blank };
        } }
    {
        self.layout.blank = blank;
    }
}

mod fields;
