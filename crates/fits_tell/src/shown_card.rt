use fits_card::Card;

/// A card that is shown: its HDU and its place, both from 1.
#[derive(Clone, Copy)]
pub(crate) struct ShownCard {
    pub hdu: usize,
    pub place: usize,
    pub card: Card,
}
