/// The sum of a data unit, and whether DATASUM and CHECKSUM are right.
#[repr(C)]
#[derive(Clone, Copy)]
pub struct Sums {
    pub datasum: u32,
    pub datasum_verdict: i8,
    pub checksum_verdict: i8,
}
