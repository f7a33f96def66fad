//! Numbers in eight bytes, the highest first.
ghost use Rattle.std.specs.Prelude.{◌≡◌};
ghost use Rattle.fits_redo.specs.Redo as redo;

#[tactic(auto, unfolding(crate::specs::Redo::big_endian))]
pub(crate) fn big_endian(number: u64) -> [u8; 8]
    ensures { result ≡ redo.big_endian number }
{
    number.to_be_bytes()
}

#[tactic(auto, unfolding(crate::specs::Redo::from_big_endian))]
pub(crate) fn from_big_endian(bytes: &[u8; 8]) -> u64
    ensures { result ≡ redo.from_big_endian bytes.now }
{
    u64::from_be_bytes(*bytes)
}
