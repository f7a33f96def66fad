use crate::bytes::Bytes;

/// A value and its comment.
#[repr(C)]
#[derive(Clone, Copy)]
pub struct Valued {
    pub text: Bytes,
    pub imaginary: Bytes,
    pub comment: Bytes,
    /// 1 where there is a comment, else 0.
    pub commented: u8,
    pub kind: u8,
}
