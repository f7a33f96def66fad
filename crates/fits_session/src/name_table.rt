//! The table of what the HDUs of a session are called.
ghost use Rattle.std.specs.Prelude.{◌≡◌, ◌≤◌, vec_capacity};

use fits_hdu::ExtensionName;
use fits_passing::NameCounts;
use std::alloc::{AllocError, Global};

/// Each name that HDUs of a session have, once, with how many have it. An HDU knows the place of
/// its name; a name is looked for among all only where an HDU comes to another.
///
/// Its room is made where HDUs come, so that an edit of cards never asks for memory for a name.
#[derive(Drop)]
pub(crate) struct NameTable {
    pub(crate) numbers: Vec<(ExtensionName, usize)>,
    /// For how many names room was made.
    pub(crate) room: usize,
    ghost has_room: { room ≤ vec_capacity numbers },
}

impl NameTable {
    ghost use Rattle.std.specs.Prelude.{◌≡◌, ◌+◌, ◌-◌, ◌<◌, ◌≤◌, ◌^◌, ℕ, List, length, Option, Some, None, ◌∷◌, IfOk, IfSome, OnOk, OnErr, IsTrue, slice_get, vec_capacity};
    ghost use Rattle.std.specs.Map.{keys_of, lookup};
    ghost use Rattle.fits_passing.specs.ExtensionName.{is_same_name};
    ghost use Rattle.fits_passing.specs.declared.called.ExtensionName.{ExtensionName};
    ghost use Rattle.fits_passing.specs.Report.{is_repeated};
    ghost use Rattle.fits_passing.specs.NameCounts.{Enters, IsTableOf, PointsAt, TellsOf, TellsOfFew};
    ghost use Rattle.fits_session.specs.NameTable.{OthersMove, TellsAt, TellsOfOneFewer};

    /// The table with these names, and with room for so many.
    pub(crate) fn of(
        alloc: Global,
        counts: &NameCounts,
        room: usize,
    ) -> Result<NameTable, AllocError>
        ensures names { IfOk result (λ table. table.numbers.items ≡ counts.now.numbers.entries) }
        ensures room { IfOk result (λ table. table.room ≡ room) }
    {
        let mut numbers = Vec::with_capacity(alloc, room)?;
        for place in 0..counts.numbers.len() {
            let Some((name, number)) = counts.numbers.get_index(place) else {
                unreachable!()
            };
            numbers.push((*name, *number))?;
        }
        Ok(NameTable { numbers, room })
    }

    /// Makes room for so many names.
    pub(crate) fn reserve(&mut self, room: usize) -> Result<(), AllocError>
        requires { length self.old.numbers.items ≤ room }
        ensures names { self.new.numbers.items ≡ self.old.numbers.items }
        ensures ok { OnOk result (self.new.room ≡ room) }
        ensures err { OnErr result (self.new.room ≡ self.old.room) }
    {
        self.numbers.reserve(room - self.numbers.len())?;
        self.room = room;
        Ok(())
    }

    /// Room for one name fewer counts. It takes no memory.
    pub(crate) fn release(&mut self)
        requires { 1 ≤ self.old.room }
        ensures names { self.new.numbers.items ≡ self.old.numbers.items }
        ensures room { self.new.room + 1 ≡ self.old.room }
    {
        self.room -= 1;
    }

    /// One more HDU is called so, if it is called anything: at which place its name stands. Each
    /// other name stands where it stood. It takes no memory.
    pub(crate) fn enter(&mut self, name: &Option<ExtensionName>) -> Option<usize>
        requires few { TellsOfFew self.old.numbers.items }
        requires room { length self.old.numbers.items < self.old.room }
        ensures entered { Enters self.old.numbers.items self.new.numbers.items name.now result }
        ensures room { self.new.room ≡ self.old.room }
    {
        let Some(name) = name else {
            return None;
        };
        if let Some(place) = self.place_of(name) {
            let it = &mut self.numbers[place];
            it.1 += 1;
            return Some(place);
        }
        let Ok(()) = self.numbers.push((*name, 1)) else {
            unreachable!()
        };
        Some(self.numbers.len() - 1)
    }

    // At which place a name stands, if it does.
    fn place_of(&self, name: &ExtensionName) -> Option<usize>
        ensures some { IfSome result (λ place.
            slice_get (keys_of self.now.numbers.items) place ≡ Some name.now) }
        ensures none { result ≡ None → lookup (is_same_name name.now) self.now.numbers.items ≡ None }
    {
        for (place, it) in self.numbers.iter().enumerate() {
            if name.is_same(&it.0) {
                return Some(place);
            }
        }
        None
    }

    /// One HDU fewer has the name at a place. Where it was the only one the name goes, and each name
    /// after it comes one place nearer: whether it went. It takes no memory.
    pub(crate) fn leave(&mut self, place: usize) -> bool
        requires { TellsAt place self.old.numbers.items }
        ensures told { TellsOfOneFewer place self.old.numbers.items self.new.numbers.items }
        ensures others { OthersMove place result self.old.numbers.items self.new.numbers.items }
        ensures room { self.new.room ≡ self.old.room }
    {
        let it = &mut self.numbers[place];
        if it.1 > 1 {
            it.1 -= 1;
            return false;
        }
        let _ = self.numbers.remove(place);
        true
    }

    /// Whether an HDU with this entry is called so. It takes no memory.
    pub(crate) fn is_entry_of(&self, entry: Option<usize>, name: &Option<ExtensionName>) -> bool
        ensures same { IsTrue result → (was : Option ExtensionName)
            → PointsAt (keys_of self.now.numbers.items) was entry → name.now ≡ was }
        ensures told { PointsAt (keys_of self.now.numbers.items) name.now entry → IsTrue result }
    {
        match (entry, name) {
            (Some(place), Some(name)) => match self.numbers.get(place) {
                Some(it) => name.is_same(&it.0),
                None => false,
            },
            (None, None) => true,
            _ => false,
        }
    }

    /// Whether an HDU with this entry isn't the only one of its name. It takes no memory.
    pub(crate) fn is_repeated(&self, entry: Option<usize>) -> bool
        ensures { (name : Option ExtensionName) (names : List (Option ExtensionName))
            → PointsAt (keys_of self.now.numbers.items) name entry
            → IsTableOf names self.now.numbers.items → result ≡ is_repeated names name }
    {
        match entry {
            Some(place) => match self.numbers.get(place) {
                Some(it) => it.1 >= 2,
                None => false,
            },
            None => false,
        }
    }
}
