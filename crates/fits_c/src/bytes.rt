use std::ptr::null;

/// Bytes of the library's: where they lie, and how many there are.
#[repr(C)]
#[derive(Clone, Copy)]
pub struct Bytes {
    pub at: *const u8,
    pub len: usize,
}

impl Bytes {
    ghost use Rattle.std.specs.Prelude.{◌≡◌};
    ghost use Rattle.fits_c.specs.Given.{LieIn};

    /// None.
    pub fn none() -> Bytes
        ensures { result.len ≡ 0 }
    {
        Bytes { at: null(), len: 0 }
    }

    /// Those of a text.
    pub fn of(text: &Vec<u8>) -> Bytes
        ensures { LieIn result text.now }
    {
        Bytes {
            at: text.as_ptr(),
            len: text.len(),
        }
    }
}
