use thiserror::Error;

/// Why a file wasn't saved.
#[derive(Clone, Copy, Debug, Error)]
pub enum SaveFault {
    /// A write failed, or took nothing of a piece that isn't empty.
    #[error("write failed")]
    Device,
}
