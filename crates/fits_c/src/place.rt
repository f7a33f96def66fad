/// Where a file has the fault for which it doesn't open; each is 0 where there is none.
#[repr(C)]
#[derive(Clone, Copy)]
pub struct Place {
    pub hdu: usize,
    pub card: usize,
}
