/// Why an extended line isn't done that says no plain line: what it wants of the file isn't so.
#[derive(Clone, Copy, PartialEq, Eq, Debug)]
pub enum Unmet {
    /// A keyword has a value whose name another one is to get.
    Exists,
    /// A keyword hasn't the value that is wanted, or is there or isn't.
    Other,
}

impl Unmet {
    ghost use Rattle.std.specs.Prelude.{◌≡◌};
    ghost use Rattle.fits_extended.specs.Stands.{unmet_text};

    /// What is printed of it.
    pub fn text(self) -> &'static str
        ensures { result.now ≡ unmet_text self }
    {
        match self {
            Unmet::Exists => "refused 16 Exists",
            Unmet::Other => "refused 17 Other",
        }
    }
}
