//! Edits of the list of HDUs: a new image is put in, or an HDU is taken out.
use super::Session;
use super::finding::index_of;
use super::naming::leave;
use crate::holder::Holder;
use fits_edit::Edit;
use fits_hdu::{Hdu, image_len};
use fits_image::{Kind, are_axes, image_shape};
use fits_making::{Refusal, is_within};
use fits_passing::{FILE_LIMIT, HDU_LIMIT};
use fits_rules::Axes;

impl<H: Holder + Drop> Session<H> {
    ghost use Rattle.fits_session.specs.Away.{LieStill};
    ghost use Rattle.fits_session.specs.Session.{EditsTo};

    // Puts in a new image as HDU `at`.
    pub(super) fn put_image(&mut self, at: usize, kind: Kind, axes: &Axes) -> Result<(), Refusal>
        ensures edits { EditsTo (Edit.NewImage at kind axes.now) self.old self.new result }
        ensures stays { LieStill self.old.hdus self.new.hdus }
    {
        if !is_within(at, self.hdus.len() + 1) {
            return Err(Refusal::NoHdu);
        }
        if at == 1 {
            return Err(Refusal::PrimaryStays);
        }
        if !are_axes(axes.as_slice()) {
            return Err(Refusal::Shape);
        }
        if self.hdus.len() as u64 >= HDU_LIMIT {
            return Err(Refusal::TooLarge);
        }
        let shape = image_shape(self.alloc, kind, axes.as_slice())?;
        let Some(len) = image_len(kind, &shape, FILE_LIMIT - self.len) else {
            return Err(Refusal::TooLarge);
        };
        let hdu = Hdu::new_image(self.alloc, kind, shape)?;
        self.hdus.reserve(1)?;
        self.names.reserve(self.hdus.len() + 2)?;
        let Ok(()) = self.hdus.insert(at - 1, hdu) else {
            unreachable!();
        };
        self.len += len;
        Ok(())
    }

    // Takes HDU h out. It takes no memory.
    pub(super) fn take_out(&mut self, h: usize) -> Result<(), Refusal>
        ensures edits { EditsTo (Edit.RemoveHdu h) self.old self.new result }
        ensures stays { LieStill self.old.hdus self.new.hdus }
    {
        let i = index_of(&self.hdus, h)?;
        if i == 0 {
            return Err(Refusal::PrimaryStays);
        }
        let hdu = self.hdus.remove(i);
        let header_len = hdu.header().byte_len();
        let data_len = hdu.data_len();
        let entry = hdu.entry();
        self.len -= (header_len + data_len) as u64;
        leave(&mut self.hdus, &mut self.names, entry);
        self.names.release();
        Ok(())
    }
}
