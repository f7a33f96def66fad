use fits_card::Card;

/// The cards that count for a column: the lead of each of its keywords, the first card of that name
/// that has a value.
#[derive(Clone, Copy)]
pub struct ColumnLeads {
    /// TFORMn
    pub form: Option<Card>,
    /// TBCOLn
    pub start: Option<Card>,
    /// TTYPEn
    pub name: Option<Card>,
    /// TDIMn
    pub dimensions: Option<Card>,
    /// TNULLn
    pub null: Option<Card>,
    /// TSCALn
    pub scale: Option<Card>,
    /// TZEROn
    pub zero: Option<Card>,
    /// TDISPn
    pub display: Option<Card>,
}
