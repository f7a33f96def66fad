/// Numbers of the library's: where they lie, and how many there are.
#[repr(C)]
#[derive(Clone, Copy)]
pub struct Numbers {
    pub at: *const u64,
    pub len: usize,
}

impl Numbers {
    ghost use Rattle.fits_c.specs.Given.{NumbersLieIn};

    /// Those of a list.
    pub fn of(list: &Vec<u64>) -> Numbers
        ensures { NumbersLieIn result list.now }
    {
        Numbers {
            at: list.as_ptr(),
            len: list.len(),
        }
    }
}
