//! What an HDU says of the columns of a table.
ghost use Rattle.std.specs.Prelude.{◌≡◌};

use super::Hdu;
use fits_card::Change;
use fits_table::{TableCode, judge_header, keeps_columns};
use std::alloc::{AllocError, Global};

impl Hdu {
    ghost use Rattle.std.specs.Prelude.{◌≡◌, length, IfOk};
    ghost use Rattle.fits_card.specs.Change.{cards_after, IsInRange};
    ghost use Rattle.fits_rules.specs.Class.{is_primary};
    ghost use Rattle.fits_table.specs.Judged.{table_codes};
    ghost use Rattle.fits_table.specs.Kept.{keeps_columns};
    ghost use Rattle.fits_table.specs.Work.{column_reads};
    ghost use Rattle.fits_hdu.specs.State.{IsDescribed, ReadsUpTo};

    /// Whether its cards after a change would say the same of the columns of a table; of what is no
    /// table nothing is asked. The cards that it reads are counted.
    ///
    /// It takes no memory.
    pub fn keeps_columns(&mut self, change: &Change) -> bool
        requires { IsInRange self.old.header.header.cards change.now }
        ensures value { result ≡ keeps_columns
            (is_primary self.old.header.shape.class) self.old.header.header.cards
            (cards_after self.old.header.header.cards change.now) }
        ensures work { ReadsUpTo self.old self.new column_reads }
    {
        keeps_columns(&mut self.header, change)
    }

    /// What is wrong with it as a table, by number. Each card is read once.
    pub fn table_codes(&mut self, alloc: Global) -> Result<Vec<TableCode>, AllocError>
        ensures codes { IfOk result (λ codes. codes.items
            ≡ table_codes (is_primary self.old.header.shape.class) self.old.header.header.cards) }
        ensures described { IsDescribed self.old }
        ensures work { ReadsUpTo self.old self.new (length self.old.header.header.cards) }
    {
        judge_header(alloc, &mut self.header)
    }
}
