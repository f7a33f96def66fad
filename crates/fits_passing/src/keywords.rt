use crate::sum_said::SumSaid;

/// What DATASUM and CHECKSUM say.
#[derive(Clone, Copy)]
pub struct SumKeywords {
    pub datasum: SumSaid,
    pub checksum: SumSaid,
}
