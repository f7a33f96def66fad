//! How many extensions of a file have each name, while the HDUs are gone through.
ghost use Rattle.std.specs.Prelude.{◌≡◌};
ghost use Rattle.fits_passing.specs.NameCounts.{number_in};

use crate::called::ExtensionName;
use crate::findings::Findings;
use indexmap::IndexMap;
use std::alloc::{AllocError, Global};

/// Each name that extensions have, once, with how many have it; a name is found by its hash.
#[derive(Drop)]
pub struct NameCounts {
    pub numbers: IndexMap<ExtensionName, usize>,
}

impl NameCounts {
    ghost use Rattle.std.specs.Prelude.{◌≡◌, List, [], Option, IfOk, OnErr, length};
    ghost use Rattle.fits_passing.specs.declared.called.ExtensionName.{ExtensionName};
    ghost use Rattle.fits_passing.specs.NameCounts.{Enters, IsTableOf, TellsOf, TellsOfFew};
    ghost use Rattle.fits_passing.specs.Report.{found_names, is_repeated};

    /// No names yet. It takes no memory.
    pub fn new(alloc: Global) -> NameCounts
        ensures { result.numbers.entries ≡ [] }
    {
        NameCounts {
            numbers: IndexMap::new(alloc),
        }
    }

    /// Those of what was found of the HDUs of a file, in one pass over them.
    pub(crate) fn of(alloc: Global, found: &[Findings]) -> Result<NameCounts, AllocError>
        ensures { IfOk result (λ counts. IsTableOf (found_names found.now) counts.numbers.entries) }
    {
        let mut counts = NameCounts::new(alloc);
        for it in found {
            counts.enter(&it.name)?;
        }
        Ok(counts)
    }

    /// One more HDU is called so, if it is called anything: at which place its name stands.
    pub fn enter(&mut self, name: &Option<ExtensionName>) -> Result<Option<usize>, AllocError>
        requires few { TellsOfFew self.old.numbers.entries }
        ensures ok { IfOk result (Enters self.old.numbers.entries self.new.numbers.entries
            name.now) }
    {
        let Some(name) = name else {
            return Ok(None);
        };
        let number = number_of(&self.numbers, name);
        let (place, _) = self.numbers.insert_full(*name, number + 1)?;
        Ok(Some(place))
    }

    /// Whether the HDU that is called so isn't the only one.
    pub(crate) fn is_repeated(&self, name: &Option<ExtensionName>) -> bool
        ensures { (names : List (Option ExtensionName)) → TellsOf names self.now.numbers.entries
            → result ≡ is_repeated names name.now }
    {
        match name {
            Some(name) => number_of(&self.numbers, name) >= 2,
            None => false,
        }
    }
}

// How many have a name.
fn number_of(numbers: &IndexMap<ExtensionName, usize>, name: &ExtensionName) -> usize
    ensures { result ≡ number_in numbers.now.entries name.now }
{
    match numbers.get(name) {
        Some(number) => *number,
        None => 0,
    }
}
