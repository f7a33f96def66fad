use fits_value::CardString;

/// How a string ends that stands on cards.
#[derive(Clone, Copy)]
pub(crate) struct Ending {
    /// How many cards they are.
    pub(crate) count: usize,
    /// The first ten bytes of the last one.
    pub(crate) lead: [u8; 10],
    /// What it says.
    pub(crate) piece: CardString,
}
