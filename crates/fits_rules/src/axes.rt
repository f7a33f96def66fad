ghost use Rattle.std.specs.Prelude.{◌≡◌};

use std::marker::Model;

/// The axes of an array, NAXIS1 first. Contracts see them as a list of numbers.
#[derive(Drop)]
pub struct Axes {
    axes: Vec<u64>,
}

impl Model for Axes {
    ghost use Rattle.std.specs.Prelude.{ℕ, List};

    ghost Value = { List ℕ };

    ghost view = { λ axes. axes.axes.items };
}

impl Axes {
    pub fn new(axes: Vec<u64>) -> Axes
        ensures { result ≡ axes.items }
    {
        Axes { axes }
    }

    pub fn as_slice(&self) -> &[u64]
        ensures { result.now ≡ self.now }
    {
        &self.axes
    }
}
