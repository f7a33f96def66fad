use fits_card::Cards;

/// The cards of BSCALE and BZERO (FITS Standard 4.0, section 4.4.2.5).
#[derive(Drop)]
pub(crate) struct Scaling {
    pub(crate) scale: Cards,
    pub(crate) zero: Cards,
}
