use crate::asked_extension::AskedExtension;

/// An HDU that is asked for.
#[derive(Drop)]
pub enum AskedHdu {
    /// By its number, from 1.
    Number(u64),
    /// The first extension that is called so.
    Called(AskedExtension),
}
