use fits_card::Name;
use fits_value::Unwritable;

/// What a command tells of why it may be refused.
#[derive(Clone, Copy)]
pub(crate) struct Clues {
    /// The keyword name that it has.
    pub name: Option<Name>,
    /// Why what it gives a keyword can't be written.
    pub unwritable: Option<Unwritable>,
}
