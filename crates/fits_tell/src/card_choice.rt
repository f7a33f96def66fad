ghost use Rattle.std.specs.Prelude.{◌≡◌};
ghost use Rattle.std.specs.List.{list_any};
ghost use Rattle.fits_tell.specs.Cards.{fits};

use crate::asked_hdu::AskedHdu;
use crate::name_pattern::NamePattern;
use fits_card::Name;

/// Which cards are asked for. Where no HDU is named all are, and so of names.
#[derive(Drop)]
pub struct CardChoice {
    pub hdus: Vec<AskedHdu>,
    pub names: Vec<NamePattern>,
}

impl CardChoice {
    ghost use Rattle.std.specs.Prelude.{◌≡◌};
    ghost use Rattle.fits_tell.specs.Cards.{has_name, is_given};

    /// Whether HDUs or names are asked for.
    pub fn is_given(&self) -> bool
        ensures { result ≡ is_given self.now }
    {
        !self.hdus.is_empty() || !self.names.is_empty()
    }

    /// Whether a name is.
    pub fn has_name(&self, name: &Name) -> bool
        ensures { result ≡ has_name self.now name.now }
    {
        self.names.is_empty() || fits_one(&self.names, name)
    }
}

// Whether a name fits one of these.
fn fits_one(names: &[NamePattern], name: &Name) -> bool
    ensures { result ≡ list_any (fits name.now) names.now }
{
    names.iter().any(|pattern| pattern.fits(name))
}
