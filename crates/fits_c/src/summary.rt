use crate::wide::Wide;

/// The statistics of the pixels of an HDU.
#[repr(C)]
#[derive(Clone, Copy)]
pub struct Summary {
    /// How many have a value, and how many have none.
    pub defined: u64,
    pub blank: u64,
    /// The least value and the greatest, or 0 where there is none.
    pub least: Wide,
    pub greatest: Wide,
    pub sum: Wide,
}
