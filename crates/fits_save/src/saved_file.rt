ghost use Rattle.fits_save.specs.Progress.{IsSpared, IsTrueOf, Progress};

use crate::begin_fault::BeginFault;
use crate::place::Place;
use crate::save_fault::SaveFault;
use crate::stage::Stage;
use crate::taking::Taking;
use std::io;
use std::io::{ErrorKind, Write};
use std::marker::Model;

/// The file at a path, as it is saved.
///
/// Nothing is made before the first byte. The bytes go to a new file beside the path, which takes it
/// once all are on the disk; dropped before, it goes, and what stood there is as it was. Where none
/// can stand beside it, what stands at the path is emptied and written, unless it is to stay whole.
#[derive(Drop)]
pub struct SavedFile<P: Place + Drop> {
    place: P,
    /// Whether what stands at the path is to stay whole until all is saved.
    whole: bool,
    fault: Option<SaveFault>,
}

impl<P: Place + Drop> Model for SavedFile<P> {
    ghost use Rattle.std.specs.Prelude.{◌≡◌, true};
    ghost use Rattle.fits_save.specs.Stages.{is_safe};
    ghost use Rattle.fits_save.specs.Progress.{Progress};

    ghost Value = { Progress };

    ghost view = { λ saved. record {
      stage = P.stage saved.place;
      whole = saved.whole;
      failed = P.failed saved.place;
      differs = P.differs saved.place;
    } };

    ghost invariant = { λ saved. is_safe saved.whole (P.stage saved.place) ≡ true };
}

impl<P: Place + Drop> SavedFile<P> {
    ghost use Rattle.std.specs.Prelude.{◌≡◌, true, if◌then◌else◌, IfErr, OnOk};
    ghost use Rattle.fits_save.specs.Progress.{IsTrueOf};
    ghost use Rattle.fits_save.specs.Stages.{is_open, kept};

    /// The file at a place where nothing has happened yet.
    pub fn at(place: P, safe: bool) -> SavedFile<P>
        requires { P.stage place ≡ Stage.Untouched }
        ensures stage { result.stage ≡ Stage.Untouched }
        ensures whole { result.whole ≡ safe }
    {
        SavedFile {
            place,
            whole: safe,
            fault: None,
        }
    }

    /// The place.
    pub fn place(&self) -> &P
        ensures stage { P.stage result.now ≡ self.now.stage }
        ensures failed { P.failed result.now ≡ self.now.failed }
        ensures differs { P.differs result.now ≡ self.now.differs }
    {
        &self.place
    }

    /// Whether what stands at the path stays whole until all is saved, asked before the first byte.
    /// Where it does it is never emptied from then on.
    pub fn spares(&mut self) -> bool
        ensures stage { self.new.stage ≡ self.old.stage }
        ensures whole { self.new.whole ≡ (if result then true else self.old.whole) }
    {
        let Stage::Untouched = self.place.reached() else {
            return self.whole;
        };
        let spares = self.place.spares();
        if spares {
            self.whole = true;
        }
        spares
    }

    /// Ends the saving, once all bytes are written: the result takes its path.
    ///
    /// Where it fails, what stood there is as it was, or the whole result stands beside it
    /// (`InPart`); the fault says which, and why.
    pub fn keep(&mut self) -> Result<(), SaveFault>
        ensures ok { OnOk result (self.new.stage ≡ kept self.old.stage) }
        ensures err { IfErr result (λ fault. IsTrueOf fault self.new) }
        ensures whole { self.new.whole ≡ self.old.whole }
    {
        match self.place.reached() {
            Stage::Partial => self.take_place(),
            _ => Ok(()),
        }
    }

    // The whole result takes its path.
    fn take_place(&mut self) -> Result<(), SaveFault>
        requires { self.old.stage ≡ Stage.Partial }
        ensures ok { OnOk result (self.new.stage ≡ Stage.Placed) }
        ensures err { IfErr result (λ fault. IsTrueOf fault self.new) }
        ensures whole { self.new.whole ≡ self.old.whole }
    {
        match self.place.taking() {
            Taking::Link => self.link()?,
            Taking::Rename => self.rename()?,
            Taking::Overwrite => self.overwrite()?,
        }
        self.place.clear();
        Ok(())
    }

    // Its path is free.
    fn link(&mut self) -> Result<(), SaveFault>
        requires { self.old.stage ≡ Stage.Partial }
        ensures ok { OnOk result (self.new.stage ≡ Stage.Both) }
        ensures err { IfErr result (λ fault. IsTrueOf fault self.new) }
        ensures whole { self.new.whole ≡ self.old.whole }
    {
        match self.place.link() {
            Ok(()) => Ok(()),
            Err(error) => Err(SaveFault::Failed(error)),
        }
    }

    // It takes the name of what stands there.
    fn rename(&mut self) -> Result<(), SaveFault>
        requires { self.old.stage ≡ Stage.Partial }
        ensures ok { OnOk result (self.new.stage ≡ Stage.Placed) }
        ensures err { IfErr result (λ fault. IsTrueOf fault self.new) }
        ensures whole { self.new.whole ≡ self.old.whole }
    {
        self.settle()?;
        match self.place.rename() {
            Ok(()) => Ok(()),
            Err(error) => Err(rename_fault(error)),
        }
    }

    // What stands there is written over.
    fn overwrite(&mut self) -> Result<(), SaveFault>
        requires { self.old.stage ≡ Stage.Partial }
        ensures ok { OnOk result (self.new.stage ≡ Stage.Both) }
        ensures err { IfErr result (λ fault. IsTrueOf fault self.new) }
        ensures whole { self.new.whole ≡ self.old.whole }
    {
        self.settle()?;
        match self.place.overwrite() {
            Ok(()) => Ok(()),
            Err(error) => Err(SaveFault::InPart(error)),
        }
    }

    // The whole result is on the disk, and what stands at the path is what was opened there.
    fn settle(&mut self) -> Result<(), SaveFault>
        requires { self.old.stage ≡ Stage.Partial }
        ensures ok { OnOk result (self.new.stage ≡ Stage.Agreed) }
        ensures err { IfErr result (λ fault. IsTrueOf fault self.new) }
        ensures whole { self.new.whole ≡ self.old.whole }
    {
        if let Err(error) = self.place.settle() {
            return Err(SaveFault::Failed(error));
        }
        if self.place.agrees() {
            return Ok(());
        }
        Err(SaveFault::Changed)
    }

    /// Why a write of it failed, if one did.
    pub fn fault(&self) -> Option<SaveFault> {
        self.fault
    }

    // What bytes go to is open.
    fn open(&mut self) -> Result<(), SaveFault>
        ensures ok { OnOk result (is_open self.new.stage ≡ true) }
        ensures err { IfErr result (λ fault. self.old.stage ≡ Stage.Untouched → IsTrueOf fault self.new) }
        ensures whole { self.new.whole ≡ self.old.whole }
    {
        match self.place.reached() {
            Stage::Untouched => self.begin(),
            Stage::Partial | Stage::Exposed | Stage::Passing => Ok(()),
            _ => Err(SaveFault::Failed(io::Error::from(ErrorKind::Other))),
        }
    }

    // What the first byte goes to.
    fn begin(&mut self) -> Result<(), SaveFault>
        requires { self.old.stage ≡ Stage.Untouched }
        ensures ok { OnOk result (is_open self.new.stage ≡ true) }
        ensures err { IfErr result (λ fault. IsTrueOf fault self.new) }
        ensures whole { self.new.whole ≡ self.old.whole }
    {
        match self.place.begin() {
            Ok(()) => Ok(()),
            Err(BeginFault::Failed(error)) => Err(SaveFault::Opening(error)),
            Err(BeginFault::NoPlace(error)) => self.expose(error),
        }
    }

    // What stands at the path is emptied, if it needn't stay whole, since nothing can stand beside it.
    fn expose(&mut self, why: io::Error) -> Result<(), SaveFault>
        requires untouched { self.old.stage ≡ Stage.Untouched }
        requires failed { self.old.failed ≡ true }
        ensures ok { OnOk result (self.new.stage ≡ Stage.Exposed) }
        ensures err { IfErr result (λ fault. IsTrueOf fault self.new) }
        ensures whole { self.new.whole ≡ self.old.whole }
    {
        if self.whole {
            return Err(SaveFault::Opening(why));
        }
        if !self.place.agrees() {
            return Err(SaveFault::Changed);
        }
        match self.place.expose() {
            Ok(()) => Ok(()),
            Err(error) => Err(SaveFault::Opening(error)),
        }
    }
}

impl<P: Place + Drop> Write for SavedFile<P> {
    fn write(&mut self, piece: &[u8]) -> io::Result<usize> {
        if piece.is_empty() {
            return Ok(0);
        }
        if let Err(fault) = self.open() {
            self.fault = Some(fault);
            return Err(io::Error::from(ErrorKind::Other));
        }
        let written = self.place.write(piece);
        if let Err(error) = written {
            self.fault = Some(SaveFault::Failed(error));
        }
        written
    }

    fn flush(&mut self) -> io::Result<()> {
        Ok(())
    }
}

// Why a file didn't get the name of another.
fn rename_fault(error: io::Error) -> SaveFault
    ensures { (it : Progress) → IsSpared it → IsTrueOf result it }
{
    match error.kind() {
        // The old one was to keep a name that another file has.
        ErrorKind::AlreadyExists => SaveFault::Stands,
        _ => SaveFault::Failed(error),
    }
}
