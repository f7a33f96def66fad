ghost use Rattle.std.specs.Io.{WritesAtMost};

use crate::begin_fault::BeginFault;
use crate::beside::{Beside, NAMES};
use crate::finding::{end_of_links, is_descriptor};
use crate::path_lock::{Asked, PathLock};
use crate::saving::Saving;
use crate::seen::Seen;
use crate::taking::Taking;
use crate::target::Target;
use std::alloc::AllocError;
use std::fs::{File, Metadata, OpenFile, OpenOptions};
use std::io::{ErrorKind, Write};
use std::os::unix::fs::{MetadataExt, OpenOptionsExt, lchown};
use std::rt::Files;
use std::{fs, io, mem};

/// A path, the name beside it, and the files that are open at both.
#[derive(Drop)]
pub(crate) struct Slot<'a, R: Files<File = File>> {
    rt: &'a R,
    /// Behind any links.
    path: String,
    target: Target,
    beside: Beside,
    /// What the old file is called once it's replaced; empty where it isn't kept.
    backup: String,
    /// The permissions of a file where none stood, less the umask.
    mode: u32,
    /// What was opened at the path, where that is read too.
    seen: Option<Seen>,
    taking: Taking,
    old: Option<File>,
    new: Option<File>,
    /// Held while the path is taken, where it's read too.
    lock: Option<PathLock>,
    /// How many names beside the path were taken.
    met: u32,
}

impl<'a, R: Files<File = File> + AllocGlobal> Slot<'a, R> {
    /// Nothing is made yet; what is done with it asks for no memory.
    pub(crate) fn of(
        rt: &'a R,
        path: &str,
        mode: u32,
        seen: Option<Seen>,
        saving: Saving<'_>,
    ) -> Result<Slot<'a, R>, AllocError> {
        let alloc = rt.alloc();
        let (target, path, seen) = found(rt, path, seen)?;
        let beside = Beside::of(alloc, path.as_str())?;
        let backup = match (saving.backup, target) {
            (Some(ending), Target::File) => format!(in alloc; "{path}{ending}")?,
            _ => String::new(alloc),
        };
        Ok(Slot {
            rt,
            path,
            target,
            beside,
            backup,
            mode,
            seen,
            taking: Taking::Link,
            old: None,
            new: None,
            lock: None,
            met: 0,
        })
    }
}

// What stands at a path, where that is behind any links, and what was opened there, if it was.
fn found<R: Files<File = File> + AllocGlobal>(
    rt: &R,
    path: &str,
    seen: Option<Seen>,
) -> Result<(Target, String, Option<Seen>), AllocError> {
    let alloc = rt.alloc();
    let there = fs::metadata(rt, path);
    let Ok(about) = there else {
        return match end_of_links(rt, path)? {
            Some(free) => Ok((Target::Free, free, None)),
            None => Ok((Target::Device, format!(in alloc; "{path}")?, None)),
        };
    };
    let seen = match seen {
        Some(seen) if seen.is_of(&about) => Some(seen),
        _ => None,
    };
    if !about.is_file() {
        return Ok((Target::Device, format!(in alloc; "{path}")?, seen));
    }
    if is_descriptor(path) {
        return Ok((Target::Held, format!(in alloc; "{path}")?, seen));
    }
    match fs::canonicalize(rt, path) {
        Ok(real) => Ok((Target::File, format!(in alloc; "{}", real.as_str())?, seen)),
        Err(error) if error.kind() == ErrorKind::OutOfMemory => Err(AllocError),
        Err(_) => Ok((Target::Held, format!(in alloc; "{path}")?, seen)),
    }
}

impl<R: Files<File = File>> Slot<'_, R> {
    /// What stands at the path at first.
    pub(crate) fn target(&self) -> Target {
        self.target
    }

    /// How the new file takes the path.
    pub(crate) fn taking(&self) -> Taking {
        self.taking
    }

    /// How many names beside the path were taken when the new file was made.
    pub(crate) fn met(&self) -> u32 {
        self.met
    }

    /// The name beside the path.
    pub(crate) fn beside(&self) -> &str {
        self.beside.as_str()
    }

    /// Whether the old file can keep another name, where that is wanted.
    pub(crate) fn keeps_old(&self) -> bool {
        self.backup.is_empty() || matches!(self.taking, Taking::Rename)
    }

    /// Whether a file stood at the path that isn't what is read.
    pub(crate) fn replaces_another(&self) -> bool {
        matches!((self.target, self.seen), (Target::File, None))
    }

    /// Whether a file stands under the name that the old one is to keep.
    pub(crate) fn backup_stands(&self) -> bool {
        !self.backup.is_empty() && fs::symlink_metadata(self.rt, self.backup.as_str()).is_ok()
    }

    /// Makes a new file where none stands.
    pub(crate) fn make_free(&mut self) -> Result<(), BeginFault> {
        self.new = Some(self.create(self.mode)?);
        self.taking = Taking::Link;
        Ok(())
    }

    /// Makes a new file beside one that may be written, with its owner and permissions if they can
    /// be had.
    pub(crate) fn make_beside(&mut self) -> Result<(), BeginFault> {
        let about = match fs::metadata(self.rt, self.path.as_str()) {
            Ok(about) => about,
            Err(error) => return Err(BeginFault::Failed(error)),
        };
        match OpenOptions::new()
            .write(true)
            .open(self.rt, self.path.as_str())
        {
            Ok(old) => self.old = Some(old),
            Err(error) => return Err(BeginFault::Failed(error)),
        }
        let file = self.create(0o600)?;
        let renames = about.nlink() == 1 && self.liken(&file, &about).is_ok();
        self.taking = if renames {
            Taking::Rename
        } else {
            Taking::Overwrite
        };
        self.new = Some(file);
        Ok(())
    }

    // A new file of the first name that is free.
    fn create(&mut self, mode: u32) -> Result<File, BeginFault> {
        for number in 0..NAMES {
            self.beside.take(number);
            self.met = number;
            let made = OpenOptions::new()
                .write(true)
                .create_new(true)
                .mode(mode)
                .open(self.rt, self.beside.as_str());
            match made {
                Ok(file) => return Ok(file),
                Err(error) => match error.kind() {
                    ErrorKind::AlreadyExists => {}
                    ErrorKind::PermissionDenied | ErrorKind::ReadOnlyFilesystem => {
                        return Err(BeginFault::NoPlace(error));
                    }
                    _ => return Err(BeginFault::Failed(error)),
                },
            }
        }
        Err(BeginFault::Failed(io::Error::from(ErrorKind::AlreadyExists)))
    }

    // Gives the new file the owner and the permissions of the old one.
    fn liken(&self, file: &File, old: &Metadata) -> io::Result<()> {
        let new = file.metadata()?;
        if new.uid() != old.uid() || new.gid() != old.gid() {
            let name = self.beside.as_str();
            lchown(self.rt, name, Some(old.uid()), Some(old.gid()))?;
        }
        file.set_permissions(old.permissions())
    }

    /// Opens what stands at the path, emptied, or makes it where none stands.
    pub(crate) fn open_there(&mut self) -> io::Result<()> {
        let mut options = OpenOptions::new();
        let options = options.write(true).mode(self.mode);
        let opened = match self.target {
            Target::Free => options.create_new(true),
            _ => options.create(true).truncate(true),
        };
        self.new = Some(opened.open(self.rt, self.path.as_str())?);
        Ok(())
    }

    /// Opens a device or a pipe.
    pub(crate) fn open_device(&mut self) -> Result<(), BeginFault> {
        match self.open_there() {
            Ok(()) => Ok(()),
            Err(error) => Err(BeginFault::Failed(error)),
        }
    }

    /// Writes a prefix of a piece to what was made or opened.
    pub(crate) fn write(&mut self, piece: &[u8]) -> io::Result<usize>
        ensures { WritesAtMost result piece.now }
    {
        match &mut self.new {
            Some(file) => file.write(piece),
            None => Err(io::Error::from(ErrorKind::Other)),
        }
    }

    /// Waits until the new file has reached the disk.
    pub(crate) fn settle(&mut self) -> io::Result<()> {
        match &self.new {
            Some(file) => file.sync_all(),
            None => Err(io::Error::from(ErrorKind::Other)),
        }
    }

    /// Whether what stands at the path is what was opened there, as it was then, and no other run is
    /// taking it. None does from then on, until it's unlocked.
    pub(crate) fn agrees(&mut self) -> bool {
        let Some(seen) = self.seen else {
            return true;
        };
        match PathLock::ask(self.rt, self.beside.lock()) {
            Asked::Held(lock) => self.lock = Some(lock),
            Asked::Taken => return false,
            Asked::Unknown => {}
        }
        let agrees = match fs::metadata(self.rt, self.path.as_str()) {
            Ok(about) => seen.is_still(&about),
            Err(_) => false,
        };
        if !agrees {
            self.unlock();
        }
        agrees
    }

    /// Lets other runs over the path go on.
    pub(crate) fn unlock(&mut self) {
        if let Some(lock) = mem::take(&mut self.lock) {
            lock.release(self.rt, self.beside.lock());
        }
    }

    /// Gives the new file the path's name too, if it's free.
    pub(crate) fn link(&self) -> io::Result<()> {
        let (new, path) = (self.beside.as_str(), self.path.as_str());
        let Err(error) = fs::hard_link(self.rt, new, path) else {
            return Ok(());
        };
        if fs::symlink_metadata(self.rt, path).is_ok() {
            return Err(error);
        }
        // A file system that has no links.
        fs::rename(self.rt, new, path)
    }

    /// Gives the new file the path's name. The old file keeps another, where that is wanted.
    pub(crate) fn rename(&self) -> io::Result<()> {
        if self.backup.is_empty() {
            return fs::rename(self.rt, self.beside.as_str(), self.path.as_str());
        }
        fs::hard_link(self.rt, self.path.as_str(), self.backup.as_str())?;
        let renamed = fs::rename(self.rt, self.beside.as_str(), self.path.as_str());
        if renamed.is_err() {
            let _ = fs::remove_file(self.rt, self.backup.as_str());
        }
        renamed
    }

    /// Writes the new file over what stands at the path, and waits until that has reached the disk.
    pub(crate) fn overwrite(&mut self) -> io::Result<()> {
        // Some folders can't be opened so, and some file systems sync none.
        let _ = sync_folder(self.rt, self.path.as_str());
        let mut from = fs::open(self.rt, self.beside.as_str())?;
        let Some(old) = &mut self.old else {
            return Err(io::Error::from(ErrorKind::Other));
        };
        let len = io::copy(&mut from, old)?;
        old.set_len(len)?;
        old.sync_all()
    }

    /// Removes the name beside the path.
    pub(crate) fn clear(&mut self) {
        let _ = fs::remove_file(self.rt, self.beside.as_str());
        self.new = None;
    }
}

// Waits until the names in the folder of a file have reached the disk.
fn sync_folder<R: Files<File = File>>(rt: &R, path: &str) -> io::Result<()> {
    let folder = match path.rfind('/') {
        Some(slash) => path.get(..slash).unwrap_or("/"),
        None => ".",
    };
    let folder = if folder.is_empty() { "/" } else { folder };
    fs::open(rt, folder)?.sync_all()
}
