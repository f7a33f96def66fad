use fits_codes::Code;

/// Which problems of a report are listed. Its closing line counts them all.
#[derive(Clone, Copy)]
pub enum Level {
    /// All of them.
    All,
    /// Errors alone.
    Errors,
    /// None.
    Quiet,
}

impl Level {
    ghost use Rattle.std.specs.Prelude.{◌≡◌};
    ghost use Rattle.fits_tell.specs.Report.{lists};

    /// Whether problems of this code are listed.
    pub fn lists(self, code: Code) -> bool
        ensures { result ≡ lists self code }
    {
        match self {
            Level::All => true,
            Level::Errors => code.is_error(),
            Level::Quiet => false,
        }
    }
}
