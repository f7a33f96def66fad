use fits_tell::Level;

/// What a run saves.
#[derive(Clone, Copy)]
pub enum Saves {
    /// Nothing.
    Nothing,
    /// What its script made of the file, unless there are more problems of some code that `check`
    /// lists than there were, or, if `whole` is set, a line wasn't done.
    Made { whole: bool, check: Level },
}

impl Saves {
    ghost use Rattle.std.specs.Prelude.{◌≡◌};
    ghost use Rattle.fits_cli.specs.Terms.{check_of, is_whole};

    /// Whether every line is to be done.
    pub(crate) fn whole(self) -> bool
        ensures { result ≡ is_whole self }
    {
        match self {
            Saves::Nothing => false,
            Saves::Made { whole, .. } => whole,
        }
    }

    /// The level of the problems that keep the result from being saved.
    pub(crate) fn check(self) -> Level
        ensures { result ≡ check_of self }
    {
        match self {
            Saves::Nothing => Level::Quiet,
            Saves::Made { check, .. } => check,
        }
    }
}
