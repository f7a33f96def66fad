use fits_stream::PIECE_LEN;

/// How much of a stored file is looked at as it is opened.
#[derive(Clone, Copy)]
pub enum Look {
    /// All of it: data units pass by.
    All,
    /// Headers, and data units that lie within a piece; larger ones stay unread.
    Headers,
}

impl Look {
    ghost use Rattle.std.specs.Prelude.{◌≡◌};
    ghost use Rattle.fits_passing.specs.Met.{stays_unread};

    /// Whether a data unit of so many bytes stays unread.
    pub(crate) fn leaves(self, len: usize) -> bool
        ensures { result ≡ stays_unread self len }
    {
        match self {
            Look::All => false,
            Look::Headers => len > PIECE_LEN,
        }
    }
}
