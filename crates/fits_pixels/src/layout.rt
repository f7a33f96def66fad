/// How the bytes of a data unit are read.
#[derive(Clone, Copy)]
pub struct Layout {
    /// How many bytes a pixel has: 1, 2, 4 or 8, or 0 where there are no integer pixels.
    pub width: usize,
    pub pixels: usize,
    /// How many bytes stand before the fill.
    pub used: usize,
    /// The byte of which the fill should be.
    pub fill: u8,
    /// The stored number of undefined pixels.
    pub blank: Option<i64>,
}

impl Layout {
    ghost use Rattle.std.specs.Prelude.{◌↔◌, IsTrue};
    ghost use Rattle.fits_pixels.specs.Layout.{IsLayout};

    /// Whether it fits these bytes.
    pub fn fits(self, bytes: &[u8]) -> bool
        ensures { IsTrue result ↔ IsLayout self bytes.now }
    {
        let readable = match self.width {
            0 => self.pixels == 0,
            1 | 2 | 4 | 8 => self.pixels <= self.used / self.width,
            _ => false,
        };
        let whole = bytes.len() % 2880 == 0 && bytes.len() <= 17_179_869_184;
        readable && whole && self.used <= bytes.len()
    }
}
