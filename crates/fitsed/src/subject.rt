//! What standard error is told of.
use crate::detail::Detail;

/// A file that is read, as standard error is told of it.
#[derive(Clone, Copy)]
pub struct Subject<'f> {
    pub name: &'f str,
    /// Whether its faults are told with its name.
    pub named: bool,
    pub detail: Detail<'f>,
}
