ghost use Rattle.std.specs.Prelude.{◌≡◌};

use std::marker::Model;

/// A corner of a rectangle: a place on each axis, from 1, NAXIS1 first. Contracts see it as its
/// list of numbers.
#[derive(Drop)]
pub struct Corner {
    places: Vec<u64>,
}

impl Model for Corner {
    ghost use Rattle.std.specs.Prelude.{ℕ, List};

    ghost Value = { List ℕ };

    ghost view = { λ corner. corner.places.items };
}

impl Corner {
    /// Any numbers are taken: whether they are places of an image, the edit or the query tests.
    pub fn new(places: Vec<u64>) -> Corner
        ensures { result ≡ places.items }
    {
        Corner { places }
    }

    pub fn as_slice(&self) -> &[u64]
        ensures { result.now ≡ self.now }
    {
        &self.places
    }
}
