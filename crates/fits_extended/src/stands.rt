use crate::unmet::Unmet;

/// What a line stands for.
#[derive(Drop)]
pub enum Stands {
    /// Itself: it is a plain line, or none.
    Itself,
    /// This plain line.
    Line(Vec<u8>),
    /// These, one after another.
    Lines(Vec<Vec<u8>>),
    /// Nothing, since what it wants isn't so.
    Unmet(Unmet),
}
