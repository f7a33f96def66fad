/// How a row says where an array in the heap stands (FITS Standard 4.0, section 7.3.5).
#[derive(Clone, Copy, PartialEq, Eq, Debug)]
pub enum Descriptor {
    /// P: two integers of 32 bits.
    Narrow,
    /// Q: two integers of 64 bits.
    Wide,
}
