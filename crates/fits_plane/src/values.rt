ghost use Rattle.std.specs.Prelude.{◌≡◌};

use std::marker::Model;

/// Values of pixels, in file order. Contracts see them as their list.
#[derive(Drop)]
pub struct Values<'a> {
    values: &'a [i128],
}

impl<'a> Model for Values<'a> {
    ghost use Rattle.std.specs.Prelude.{ℤ, List};

    ghost Value = { List ℤ };

    ghost view = { λ values. values.values.now };
}

impl<'a> Values<'a> {
    pub fn new(values: &'a [i128]) -> Values<'a>
        ensures { result ≡ values.now }
    {
        Values { values }
    }

    pub fn as_slice(&self) -> &[i128]
        ensures { result.now ≡ self.now }
    {
        self.values
    }
}
