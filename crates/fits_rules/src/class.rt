/// What an HDU is, by its mandatory keywords (FITS Standard 4.0, sections 3.3, 3.4, 6 and 7).
#[derive(Clone, Copy, PartialEq, Eq, Debug)]
pub enum Class {
    /// The first HDU, without random groups.
    Primary,
    /// The first HDU, with random groups (6).
    Groups,
    /// An extension of type IMAGE (7.1).
    Image,
    /// An extension of type TABLE (7.2).
    Table,
    /// Any other extension, of whatever type or none.
    Other,
}

impl Class {
    ghost use Rattle.std.specs.Prelude.{◌≡◌};
    ghost use Rattle.fits_rules.specs.Class.{is_primary, has_counts};

    /// Whether it is a class of the first HDU.
    pub fn is_primary(self) -> bool
        ensures { result ≡ is_primary self }
    {
        matches!(self, Class::Primary | Class::Groups)
    }

    /// Whether PCOUNT and GCOUNT count in it.
    pub fn has_counts(self) -> bool
        ensures { result ≡ has_counts self }
    {
        !matches!(self, Class::Primary)
    }
}
