use crate::away_unit::AwayUnit;

/// A data unit that isn't in memory, and its place in the file that it lies in.
#[derive(Drop)]
pub struct AwayAt {
    pub unit: AwayUnit,
    pub place: u64,
}
