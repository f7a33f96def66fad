ghost use Rattle.std.specs.Prelude.{◌≡◌};

use std::marker::Model;

/// Values of the pixels of a rectangle, in file order: NAXIS1 varies fastest. Each is a stored
/// number plus the offset of the image's kind. Contracts see them as their list.
#[derive(Drop)]
pub struct PixelValues {
    values: Vec<i128>,
}

impl Model for PixelValues {
    ghost use Rattle.std.specs.Prelude.{ℤ, List};

    ghost Value = { List ℤ };

    ghost view = { λ values. values.values.items };
}

impl PixelValues {
    /// Any numbers are taken: whether pixels can store them, the edit tests.
    pub fn new(values: Vec<i128>) -> PixelValues
        ensures { result ≡ values.items }
    {
        PixelValues { values }
    }

    pub fn as_slice(&self) -> &[i128]
        ensures { result.now ≡ self.now }
    {
        &self.values
    }
}
