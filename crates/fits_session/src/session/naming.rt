//! HDUs that come to a name and lose it, and the table that tells of it.
ghost use Rattle.std.specs.Prelude.{◌≡◌, ◌+◌, ◌<◌, ◌≤◌, ◌^◌, length, map, All, Option, IfOk, OnOk};
ghost use Rattle.fits_hdu.specs.State.{IsDescribed};
ghost use Rattle.fits_passing.specs.Work.{name_reads};
ghost use Rattle.fits_hdu.specs.Work.{IsOpened};
ghost use Rattle.fits_session.specs.NameTable.{mended, Leaves, Stands, Stood};
ghost use Rattle.fits_session.specs.Session.{absences_of, hdus_of, kept_of, reads_of, without_entries, works_of, ReadsOnly};
ghost use Rattle.fits_making.specs.Making.{Holding, IsHad};

use crate::name_table::NameTable;
use fits_hdu::Hdu;
use fits_passing::NameCounts;
use std::alloc::{AllocError, Global};

/// The table of what HDUs are called; each HDU gets the entry of its name. The cards that say it
/// are read.
pub(crate) fn name_all(alloc: Global, hdus: &mut Vec<Hdu>) -> Result<NameTable, AllocError>
    ensures stands { IfOk result (λ table. Stands hdus.new.items table.numbers.items) }
    ensures room { IfOk result (λ table. table.room ≡ length hdus.new.items + 1) }
    ensures described { OnOk result (All IsDescribed hdus.new.items) }
    ensures hdus { OnOk result (hdus_of hdus.new.items ≡ hdus_of hdus.old.items) }
    ensures absences { OnOk result (absences_of hdus.new.items ≡ absences_of hdus.old.items) }
    ensures opened { All (IsOpened 0) hdus.old.items
        → OnOk result (All (IsOpened name_reads) hdus.new.items) }
    ensures had { (holding : Holding) → All (IsHad holding) hdus.old.items
        → OnOk result (All (IsHad holding) hdus.new.items) }
{
    let mut counts = NameCounts::new(alloc);
    for i in 0..hdus.len() {
        let hdu = &mut hdus[i];
        let name = hdu.extension_name();
        let entry = counts.enter(&name)?;
        hdu.set_entry(entry);
    }
    NameTable::of(alloc, &counts, hdus.len() + 1)
}

/// The HDU at an index may be called otherwise than before: the table follows. The cards that say
/// what it is called are read. It takes no memory.
pub(crate) fn follow(hdus: &mut Vec<Hdu>, table: &mut NameTable, i: usize)
    requires within { i < length hdus.old.items }
    requires stood { Stood hdus.old.items i table.old.numbers.items }
    requires few { length hdus.old.items < 2 ^ 63 }
    requires room { length hdus.old.items < table.old.room }
    ensures stands { Stands hdus.new.items table.new.numbers.items }
    ensures room { table.new.room ≡ table.old.room }
    ensures described { All IsDescribed hdus.old.items → All IsDescribed hdus.new.items }
    ensures hdus { hdus_of hdus.new.items ≡ hdus_of hdus.old.items }
    ensures reads { ReadsOnly (i + 1) name_reads
        (reads_of hdus.old.items) (reads_of hdus.new.items) }
    ensures works { works_of hdus.new.items ≡ works_of hdus.old.items }
    ensures kept { kept_of hdus.new.items ≡ kept_of hdus.old.items }
    ensures absences { absences_of hdus.new.items ≡ absences_of hdus.old.items }
    ensures had { (holding : Holding) → All (IsHad holding) hdus.old.items
        → All (IsHad holding) hdus.new.items }
{
    let hdu = &mut hdus[i];
    let name = hdu.extension_name();
    let old = hdu.entry();
    if table.is_entry_of(old, &name) {
        return;
    }
    let entry = table.enter(&name);
    hdu.set_entry(entry);
    leave(hdus, table, old);
}

/// One HDU fewer has the name at an entry. Where the name goes, the entries of these HDUs follow. It
/// takes no memory.
pub(crate) fn leave(hdus: &mut Vec<Hdu>, table: &mut NameTable, entry: Option<usize>)
    requires { Leaves hdus.old.items table.old.numbers.items entry }
    ensures stands { Stands hdus.new.items table.new.numbers.items }
    ensures room { table.new.room ≡ table.old.room }
    ensures hdus { without_entries hdus.new.items ≡ without_entries hdus.old.items }
{
    let Some(place) = entry else {
        return;
    };
    if table.leave(place) {
        mend(hdus, place);
    }
}

// The entries of names that stood after a place are one less from now on.
fn mend(hdus: &mut Vec<Hdu>, gone: usize)
    ensures { hdus.new.items ≡ map (mended gone) hdus.old.items }
{
    for i in 0..hdus.len() {
        let hdu = &mut hdus[i];
        mend_one(hdu, gone);
    }
}

// The same of one HDU.
fn mend_one(hdu: &mut Hdu, gone: usize)
    ensures { hdu.new ≡ mended gone hdu.old }
{
    if let Some(at) = hdu.entry() {
        if at > gone {
            hdu.set_entry(Some(at - 1));
        }
    }
}
