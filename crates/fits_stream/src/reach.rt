/// How much of a source is read at once.
#[derive(Clone, Copy, Drop)]
pub enum Reach {
    /// As many bytes as are wanted.
    Wanted,
    /// As many as a piece has room for: those that follow will be wanted too.
    Piece,
}
