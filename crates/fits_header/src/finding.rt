use fits_codes::Code;

/// What is wrong at a place of a header.
#[derive(Clone, Copy)]
pub struct Finding {
    /// The place of a card, from 1. Place 0 stands for the HDU as a whole.
    pub place: usize,
    pub code: Code,
}
