/// What an extended line does with a keyword.
#[derive(Clone, Copy)]
pub enum KeywordVerb {
    /// It gets a value, and its comment stays.
    Value,
    /// It gets a comment, and its value stays.
    Note,
    /// It gets another name, and all else of it stays.
    Rename,
    /// It is to have a value, or to be there.
    Want,
    /// It isn't to be there.
    Lack,
}
