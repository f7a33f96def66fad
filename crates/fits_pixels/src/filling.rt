//! Data fill, piece by piece.
ghost use Rattle.std.specs.Prelude.{◌≡◌, nat_eq, drop};
ghost use Rattle.std.specs.List.{list_all};

use fits_sum::all_are;

/// Whether the bytes of a piece are the fill, but for so many of data before it.
pub fn is_filled(piece: &[u8], used: usize, fill: u8) -> bool
    ensures { result ≡ list_all (nat_eq fill) (drop used piece.now) }
{
    let (_, filling) = piece.split_at(used.min(piece.len()));
    all_are(filling, fill)
}
