ghost use Rattle.std.specs.Prelude.{◌≡◌};
ghost use Rattle.fits_cli.specs.Terms.{asking};

use crate::manner::Manner;
use crate::saves::Saves;
use fits_passing::Look;
use fits_tell::Level;

/// What a run keeps to, whatever its script says.
#[derive(Clone, Copy)]
pub struct Terms {
    /// HDUs whose sums are right as the file is opened are kept right.
    pub sums: bool,
    /// Extended lines are taken, each for the plain lines that it stands for.
    pub extended: bool,
    /// The columns of tables are kept: an edit that would leave others is refused.
    pub tables: bool,
    /// Nothing is saved where no edit was accepted.
    pub spare: bool,
    pub saves: Saves,
}

impl Terms {
    ghost use Rattle.std.specs.Prelude.{◌≡◌};
    ghost use Rattle.fits_cli.specs.Terms.{look_of};

    /// How much of a stored file is looked at as it is opened: all of it where sums are kept right or
    /// problems count, else its headers.
    pub(crate) fn look(self) -> Look
        ensures { result ≡ look_of self }
    {
        match (self.sums, self.saves.check()) {
            (false, Level::Quiet) => Look::Headers,
            _ => Look::All,
        }
    }
}

/// The terms of a run that has none of these, and saves what its script made.
pub(crate) const PLAIN: Terms = Terms {
    sums: false,
    extended: false,
    tables: false,
    spare: false,
    saves: Saves::Made {
        whole: false,
        check: Level::Quiet,
    },
};

/// The terms of a run that saves nothing.
pub(crate) fn asking(manner: Manner) -> Terms
    ensures { result ≡ asking manner }
{
    Terms {
        sums: false,
        extended: manner.extended,
        tables: manner.tables,
        spare: false,
        saves: Saves::Nothing,
    }
}
