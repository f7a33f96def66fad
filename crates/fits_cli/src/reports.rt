use fits_session::Problem;
use fits_tell::TableProblem;
use std::alloc::Global;

/// What is wrong with a file, and with its tables where they are judged.
#[derive(Drop)]
pub(crate) struct Reports {
    pub problems: Vec<Problem>,
    pub tables: Vec<TableProblem>,
}

impl Reports {
    ghost use Rattle.std.specs.Prelude.{◌≡◌, []};

    /// Nothing.
    pub(crate) fn none(alloc: Global) -> Reports
        ensures problems { result.problems.items ≡ [] }
        ensures tables { result.tables.items ≡ [] }
    {
        Reports {
            problems: Vec::new(alloc),
            tables: Vec::new(alloc),
        }
    }
}
