use crate::text::Text;

/// A value of a card. Numbers stay as they are written; a string is decoded and in normal form.
#[derive(Drop)]
pub enum Value {
    Undefined,
    Logical(bool),
    Integer(Text),
    Real(Text),
    /// The real and the imaginary part.
    Complex(Text, Text),
    Str(Text),
}
