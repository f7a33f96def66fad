/// Where a card stands: its HDU and its place, both from 1.
#[derive(Clone, Copy, PartialEq, Eq, Debug)]
pub struct CardPlace {
    pub hdu: usize,
    pub place: usize,
}
