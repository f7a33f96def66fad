//! Edits where tables are kept: one that would leave a table other columns is refused.
ghost use Rattle.std.specs.Prelude.{◌≡◌};

use super::Session;
use super::finding::index_of;
use crate::holder::Holder;
use fits_edit::{CardEdit, Edit, HduEdit};
use fits_making::{Refusal, cards_keep};
use fits_table::TableCode;
use std::alloc::AllocError;

impl<H: Holder + Drop> Session<H> {
    ghost use Rattle.std.specs.Prelude.{◌≡◌, true, IfOk, IfErr, OnOk, OnErr};
    ghost use Rattle.fits_making.specs.Refusal.{Fails};
    ghost use Rattle.fits_session.specs.Away.{LieStill};
    ghost use Rattle.fits_session.specs.Edit.{hdu_of};
    ghost use Rattle.fits_session.specs.Marked.{edit_keeps, guarded, hdu_keeps, is_free, is_stamped_after, marked_refusal};
    ghost use Rattle.fits_session.specs.Query.{table_codes_in, QueryFails};
    ghost use Rattle.fits_session.specs.Refusal.{EditNeedsMemory};
    ghost use Rattle.fits_session.specs.Session.{absences_of, file_of, kept_of, marked_of, LacksEdit, LacksIn, LooksAt};
    ghost use Rattle.fits_passing.specs.File.{is_primary_hdu};

    /// Whether an edit keeps the columns of tables, where they are kept: `Shape`, as another shape is,
    /// where a header would say another kind of table, another TFIELDS, or another form or place of a
    /// column, or none where it said one. Memory may be asked for before that is known. The edit is
    /// `make`'s, which refuses it for all else.
    pub fn test_columns(&mut self, tables: bool, edit: &Edit) -> Result<(), Refusal>
        ensures ok { OnOk result (is_free tables (file_of self.old) edit.now ≡ true) }
        ensures err { IfErr result (Fails
            (EditNeedsMemory (is_stamped_after (kept_of self.old.hdus) edit.now) edit.now)
            (marked_refusal (guarded tables (marked_of self.old)) edit.now)) }
        ensures looks { LooksAt edit.now self.old self.new }
        ensures stays { LieStill self.old.hdus self.new.hdus }
    {
        if !tables {
            return Ok(());
        }
        if self.keeps_columns(edit)? {
            Ok(())
        } else {
            Err(Refusal::Shape)
        }
    }

    // Whether an edit keeps them: one of cards alone may not. The cards that it reads are counted.
    fn keeps_columns(&mut self, edit: &Edit) -> Result<bool, AllocError>
        ensures ok { IfOk result (λ keeps. keeps ≡ edit_keeps (file_of self.old) edit.now) }
        ensures err { OnErr result (LacksEdit (file_of self.old) edit.now) }
        ensures looks { LooksAt edit.now self.old self.new }
        ensures stays { LieStill self.old.hdus self.new.hdus }
    {
        match edit {
            Edit::Hdu {
                hdu,
                edit: HduEdit::Cards(edit),
            } => self.cards_keep(*hdu, edit),
            _ => Ok(true),
        }
    }

    // The same of an edit of the cards of HDU h.
    fn cards_keep(&mut self, h: usize, edit: &CardEdit) -> Result<bool, AllocError>
        ensures ok { IfOk result (λ keeps. keeps
            ≡ hdu_keeps (is_primary_hdu h) edit.now (hdu_of (file_of self.old) h)) }
        ensures err { OnErr result (LacksIn edit.now (hdu_of (file_of self.old) h)) }
        ensures looks { LooksAt (Edit.Hdu h (HduEdit.Cards edit.now)) self.old self.new }
        ensures stays { LieStill self.old.hdus self.new.hdus }
    {
        let Ok(i) = index_of(&self.hdus, h) else {
            return Ok(true);
        };
        let hdu = &mut self.hdus[i];
        let keeps = cards_keep(self.alloc, hdu, edit)?;
        Ok(keeps)
    }

    /// What is wrong with HDU h as a table, by number. Refusals 1 and 15. Each of its cards is read.
    pub fn table_codes(&mut self, h: usize) -> Result<Vec<TableCode>, Refusal>
        ensures ok { IfOk result (λ codes. table_codes_in (file_of self.old) h ≡ Ok codes.items) }
        ensures err { IfErr result (QueryFails (table_codes_in (file_of self.old) h)) }
        ensures same { marked_of self.new ≡ marked_of self.old }
        ensures absences { absences_of self.new.hdus ≡ absences_of self.old.hdus }
        ensures stays { LieStill self.old.hdus self.new.hdus }
    {
        let i = index_of(&self.hdus, h)?;
        let hdu = &mut self.hdus[i];
        let codes = hdu.table_codes(self.alloc)?;
        Ok(codes)
    }
}
