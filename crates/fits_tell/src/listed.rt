use crate::level::Level;
use crate::table_problem::TableProblem;
use fits_passing::Problem;

/// The greatest number of a code.
pub(crate) const LAST_NUMBER: u8 = 34;

/// What a report with tables lists.
#[derive(Clone, Copy)]
pub enum Listed {
    /// What is wrong with a file, its headers, data or sums.
    OfFile(Problem),
    /// What is wrong with a table of it.
    OfTable(TableProblem),
}

impl Listed {
    ghost use Rattle.std.specs.Prelude.{◌≡◌, ◌≤◌};
    ghost use Rattle.fits_tell.specs.Listed.{is_listed_error, lists_it};
    ghost use Rattle.fits_tell.specs.Summary.{code_text, label_of, number_of};
    ghost use Rattle.fits_tell.specs.declared.listed.TheConstants.{LAST_NUMBER};

    /// The number of its code.
    pub fn number(self) -> u8
        ensures value { result ≡ number_of self }
        ensures from { 1 ≤ result }
        ensures to { result ≤ LAST_NUMBER }
    {
        match self {
            Listed::OfFile(it) => it.code.number(),
            Listed::OfTable(it) => it.code.number(),
        }
    }

    /// How a report prints its code.
    pub fn label(self) -> &'static str
        ensures { result.now ≡ label_of self }
    {
        match self {
            Listed::OfFile(it) => it.code.label(),
            Listed::OfTable(it) => it.code.label(),
        }
    }

    /// What a report says of its code.
    pub fn text(self) -> &'static str
        ensures { result.now ≡ code_text self }
    {
        match self {
            Listed::OfFile(it) => it.code.text(),
            Listed::OfTable(it) => it.code.text(),
        }
    }

    /// Whether it is an error.
    pub fn is_error(self) -> bool
        ensures { result ≡ is_listed_error self }
    {
        match self {
            Listed::OfFile(it) => it.code.is_error(),
            Listed::OfTable(it) => it.code.is_error(),
        }
    }

    /// Whether a level lists it.
    pub fn is_listed_at(self, level: Level) -> bool
        ensures { result ≡ lists_it level self }
    {
        match level {
            Level::All => true,
            Level::Errors => self.is_error(),
            Level::Quiet => false,
        }
    }
}
