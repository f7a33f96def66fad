//! The columns of a line of output.

/// A column of a line: what stands before its field, and what the field is.
#[derive(Clone, Copy)]
pub struct Column {
    /// What stands before the field.
    pub lead: &'static str,
    /// The name of the field in the line's object.
    pub name: &'static str,
    pub kind: Kind,
    /// Whether a line may lack the column.
    pub may_lack: bool,
}

/// What a field is, and how far it reaches.
#[derive(Clone, Copy)]
pub enum Kind {
    /// No byte, and nothing is told.
    Nothing,
    /// No byte: what stands before it is told.
    Lead,
    /// No byte: null.
    Null,
    /// No byte: true.
    True,
    /// No byte: false.
    False,
    /// No byte: no numbers.
    Empty,
    /// An integer, or a hyphen for none.
    Number,
    /// Integers, with this byte between.
    Numbers(u8),
    /// A text up to this byte, or to the end.
    Text(u8),
    /// A text up to this byte and with it, or to the end.
    Through(u8),
    /// A string in quotes, in which each quote is doubled.
    Quoted,
    /// A text to the end.
    Rest,
}
