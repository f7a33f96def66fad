/// Why a piece wasn't taken into memory.
#[derive(Clone, Copy, Debug)]
pub enum PieceFault {
    /// Memory was refused.
    Memory,
    /// Other bytes passed by.
    Changed,
}
