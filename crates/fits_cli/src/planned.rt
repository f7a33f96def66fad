use crate::edited::Edited;
use fits_redo::Plan;

/// How a run over a file that is changed in its place came to its end.
#[derive(Drop)]
pub struct Planned {
    pub edited: Edited,
    /// The blocks that its result changes in the file itself. Nothing is saved then.
    pub plan: Option<Plan>,
}
