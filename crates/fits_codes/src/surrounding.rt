/// What stands round a card of a header, as far as the rules ask.
#[derive(Clone, Copy)]
pub struct Surrounding {
    /// Whether an earlier card has its name.
    pub name_before: bool,
    /// Whether an earlier card has its name and a value.
    pub value_before: bool,
    /// Whether it continues the string of the card before it.
    pub is_link: bool,
}
