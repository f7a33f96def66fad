use crate::act::Act;
use crate::begin_fault::BeginFault;
use crate::place::Place;
use crate::save_fault::SaveFault;
use crate::saving::Saving;
use crate::seen::Seen;
use crate::slot::Slot;
use crate::stage::Stage;
use crate::taking::Taking;
use crate::target::Target;
use std::alloc::AllocError;
use std::fs::File;
use std::io;
use std::rt::Files;

/// A path of the system at which a result is saved. Dropped, it removes the name beside the path,
/// unless that alone has the whole result.
pub struct System<'a, R: Files<File = File>> {
    slot: Slot<'a, R>,
    stage: Stage,
    failed: bool,
    differs: bool,
}

impl<'a, R: Files<File = File> + AllocGlobal> System<'a, R> {
    ghost use Rattle.std.specs.Prelude.{◌≡◌, IfOk};

    /// A path, behind any links. Where none stands a file gets this mode, less the umask. `seen` is
    /// what is read. Nothing is made yet; saving asks for no memory.
    pub fn new(
        rt: &'a R,
        path: &str,
        mode: u32,
        seen: Option<Seen>,
        saving: Saving<'_>,
    ) -> Result<System<'a, R>, AllocError>
        ensures { IfOk result (λ place. place.stage ≡ Stage.Untouched) }
    {
        Ok(System {
            slot: Slot::of(rt, path, mode, seen, saving)?,
            stage: Stage::Untouched,
            failed: false,
            differs: false,
        })
    }
}

impl<R: Files<File = File>> System<'_, R> {
    ghost use Rattle.std.specs.Prelude.{◌≡◌, true, OnErr, OnOk};
    ghost use Rattle.fits_save.specs.Stages.{after};

    /// Why the result can't be saved as is wanted, if it can't: `spares` was asked, and said so.
    pub fn refusal(&self, saving: Saving<'_>, spares: bool) -> Option<SaveFault> {
        if (saving.safe && !spares) || !self.slot.keeps_old() {
            return Some(SaveFault::NotWhole);
        }
        self.slot.backup_stands().then_some(SaveFault::Stands)
    }

    /// How many names beside the path were taken: files that a broken run left, or those of one that
    /// runs.
    pub fn met(&self) -> u32 {
        self.slot.met()
    }

    /// The name beside the path.
    pub fn beside(&self) -> &str {
        self.slot.beside()
    }

    /// Whether what stands at the path is what was opened there, as it was then, and no other run is
    /// taking it. None does from then on, until it's let go.
    pub fn holds(&mut self) -> bool
        ensures { self.new.stage ≡ self.old.stage }
    {
        self.slot.agrees()
    }

    /// Lets other runs over the path go on.
    pub fn let_go(&mut self)
        ensures { self.new.stage ≡ self.old.stage }
    {
        self.slot.unlock();
    }

    /// Whether a file stood at the path that isn't what is read.
    pub fn replaces_another(&self) -> bool {
        self.slot.replaces_another()
    }

    // Goes on by a call, if it was done.
    fn pass<E>(&mut self, done: Result<(), E>, act: Act) -> Result<(), E>
        ensures same { result ≡ done }
        ensures ok { OnOk result (self.new.stage ≡ after act self.old.stage) }
        ensures err { OnErr result (self.new.stage ≡ self.old.stage) }
        ensures failed { OnErr result (self.new.failed ≡ true) }
    {
        match &done {
            Ok(()) => self.stage = self.stage.after(act),
            Err(_) => self.failed = true,
        }
        done
    }
}

impl<R: Files<File = File>> Place for System<'_, R> {
    ghost stage = { λ place. place.stage };

    ghost failed = { λ place. place.failed };

    ghost differs = { λ place. place.differs };

    fn reached(&self) -> Stage {
        self.stage
    }

    fn spares(&mut self) -> bool {
        match self.slot.target() {
            Target::Free | Target::Device => true,
            Target::Held => false,
            Target::File => match self.slot.make_beside() {
                Ok(()) => {
                    self.slot.clear();
                    true
                }
                Err(BeginFault::NoPlace(_)) => false,
                Err(BeginFault::Failed(_)) => true,
            },
        }
    }

    fn begin(&mut self) -> Result<(), BeginFault> {
        let (made, act) = match self.slot.target() {
            Target::Free => (self.slot.make_free(), Act::Begin),
            Target::File => (self.slot.make_beside(), Act::Begin),
            Target::Held => (Err(no_place()), Act::Begin),
            Target::Device => (self.slot.open_device(), Act::Pass),
        };
        self.pass(made, act)
    }

    fn expose(&mut self) -> io::Result<()> {
        let opened = self.slot.open_there();
        self.slot.unlock();
        self.pass(opened, Act::Expose)
    }

    fn write(&mut self, piece: &[u8]) -> io::Result<usize> {
        self.stage = self.stage.after(Act::Write);
        let written = self.slot.write(piece);
        if written.is_err() {
            self.failed = true;
        }
        written
    }

    fn settle(&mut self) -> io::Result<()> {
        let settled = self.slot.settle();
        self.pass(settled, Act::Settle)
    }

    fn agrees(&mut self) -> bool {
        let agrees = self.slot.agrees();
        if agrees {
            self.stage = self.stage.after(Act::Compare);
        } else {
            self.differs = true;
        }
        agrees
    }

    fn taking(&self) -> Taking {
        self.slot.taking()
    }

    fn link(&mut self) -> io::Result<()> {
        let linked = self.slot.link();
        self.pass(linked, Act::Link)
    }

    fn rename(&mut self) -> io::Result<()> {
        let renamed = self.slot.rename();
        self.slot.unlock();
        self.pass(renamed, Act::Rename)
    }

    fn overwrite(&mut self) -> io::Result<()> {
        self.stage = self.stage.after(Act::Overwrite);
        let written = self.slot.overwrite();
        self.slot.unlock();
        self.pass(written, Act::Finish)
    }

    fn clear(&mut self) {
        // The name went with a rename; another run may have it by now.
        if !matches!(self.stage, Stage::Placed) {
            self.slot.clear();
        }
        self.stage = self.stage.after(Act::Clear);
    }
}

impl<R: Files<File = File>> Drop for System<'_, R> {
    fn drop(mut self) {
        self.slot.unlock();
        match self.stage {
            Stage::Partial | Stage::Whole | Stage::Agreed | Stage::Both => self.slot.clear(),
            _ => {}
        }
        let System {
            slot: _slot,
            stage: _,
            failed: _,
            differs: _,
        } = self;
    }
}

// Nothing can stand beside the path of an open descriptor.
fn no_place() -> BeginFault {
    BeginFault::NoPlace(io::Error::from(io::ErrorKind::Unsupported))
}
