use crate::surrounding::Surrounding;
use fits_rules::Class;

/// Where a card stands, and what stands round it, as far as the rules ask.
#[derive(Clone, Copy)]
pub struct Context {
    /// The class of its HDU.
    pub class: Class,
    /// How many axes the HDU has.
    pub axes: usize,
    /// The card's place, from 1.
    pub place: usize,
    /// What stands round it in its header.
    pub around: Surrounding,
    /// Whether the next card continues its string.
    pub next_is_link: bool,
}
