use fits_card::Name;
use fits_tell::AskedHdu;

/// Which keywords are asked for, of which header.
#[derive(Drop)]
pub struct KeyChoice {
    pub hdu: AskedHdu,
    pub names: Vec<Name>,
}
