ghost use Rattle.std.specs.Prelude.{◌≡◌, ◌<◌, [], ◌∷◌, ◌++◌, length};
ghost use Rattle.fits_rules.specs.declared.axis_buffer.TheConstants.{MOST_AXES};

use std::marker::Model;

/// The most axes that a header may describe (FITS Standard 4.0, section 4.4.1.1).
pub(crate) const MOST_AXES: usize = 999;

/// Room for the axes of any header, so that they are read without memory.
#[derive(Drop)]
pub(crate) struct AxisBuffer {
    numbers: [u64; MOST_AXES],
    len: usize,
}

impl Model for AxisBuffer {
    ghost use Rattle.std.specs.Prelude.{ℕ, ◌≤◌, List, take};
    ghost use Rattle.fits_rules.specs.declared.axis_buffer.TheConstants.{MOST_AXES};

    ghost Value = { List ℕ };

    ghost view = { λ axes. take axes.len axes.numbers };

    ghost invariant = { λ axes. axes.len ≤ MOST_AXES };
}

impl AxisBuffer {
    pub(crate) fn new() -> AxisBuffer
        ensures { result ≡ [] }
    {
        AxisBuffer {
            numbers: [0; MOST_AXES],
            len: 0,
        }
    }

    /// Puts one more axis after the others.
    pub(crate) fn push(&mut self, axis: u64)
        requires { length self.old < MOST_AXES }
        ensures { self.new ≡ self.old ++ axis ∷ [] }
    {
        self.numbers[self.len] = axis;
        self.len += 1;
    }

    pub(crate) fn as_slice(&self) -> &[u64]
        ensures { result.now ≡ self.now }
    {
        &self.numbers[..self.len]
    }
}
