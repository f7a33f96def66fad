/// Whether a keyword of a sum is right (FITS Standard 4.0, section 4.4.2.7; own).
#[derive(Clone, Copy, PartialEq, Eq, Debug)]
pub enum Verdict {
    /// What it says is so.
    Right,
    /// It says nothing.
    Missing,
    /// What it says isn't so, or is no sum.
    Wrong,
}
