ghost use Rattle.std.specs.Prelude.{◌≡◌, ℕ, ◌+◌};
ghost use Rattle.std.specs.Borrow.{ftrue};

use std::marker::{Model, PhantomData};

/// How often something was done. It takes no bytes and only contracts see it.
///
/// Outside this module it can only be begun anew at 0; `tick` adds one.
#[derive(Drop)]
pub struct Count {
    marker: PhantomData<()>,
    pub ghost total: { ℕ },
}

impl Model for Count {
    ghost also_owns = { λ _. ftrue };
}

impl Count {
    pub fn new() -> Count
        ensures { result.total ≡ 0 }
    {
        Count {
            marker: PhantomData,
        }
    }

    pub fn tick(&mut self)
        ensures { self.new.total ≡ self.old.total + 1 }
    {}

    /// As often more as was counted elsewhere.
    pub fn join(&mut self, other: Count)
        ensures { self.new.total ≡ self.old.total + other.total }
    {}

    /// So many times more.
    pub fn add(&mut self, times: usize)
        ensures { self.new.total ≡ self.old.total + times }
    {
        for time in 0..times {
            self.tick();
        }
    }
}
