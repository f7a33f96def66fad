/// How the lines of a script are taken.
#[derive(Clone, Copy, Drop)]
pub struct Manner {
    /// Extended lines are taken, each for the plain lines that it stands for.
    pub extended: bool,
    /// The columns of tables are kept: an edit that would leave others is refused.
    pub tables: bool,
}
