ghost use Rattle.std.specs.Prelude.{◌≡◌};

use std::marker::Model;

/// A part of a text. Contracts see it as its list of bytes.
#[derive(Drop)]
pub struct Excerpt<'a> {
    bytes: &'a [u8],
}

impl<'a> Model for Excerpt<'a> {
    ghost use Rattle.std.specs.Prelude.{ℕ, List};

    ghost Value = { List ℕ };

    ghost view = { λ excerpt. excerpt.bytes.now };
}

impl<'a> Excerpt<'a> {
    pub fn new(bytes: &'a [u8]) -> Excerpt<'a>
        ensures { result ≡ bytes.now }
    {
        Excerpt { bytes }
    }

    pub fn as_bytes(&self) -> &[u8]
        ensures { result.now ≡ self.now }
    {
        self.bytes
    }
}
