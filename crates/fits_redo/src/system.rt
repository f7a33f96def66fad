ghost use Rattle.std.specs.Prelude.{false};

use crate::open_fault::OpenFault;
use crate::pair::Pair;
use crate::read_fault::ReadFault;
use crate::redo::is_open;
use std::alloc::{AllocError, Global};
use std::fs::{File, Metadata, OpenOptions, TryLockError};
use std::io::{ErrorKind, Read, Write};
use std::os::unix::fs::{FileExt, MetadataExt, OpenOptionsExt};
use std::rt::Files;
use std::{fs, io};

/// A file of the system, and its redo file. While it's held no other run of the program has it.
#[derive(Drop)]
pub struct System<'a, R: Files<File = File>> {
    rt: &'a R,
    file: File,
    /// The redo file that was made.
    redo: Option<File>,
    /// Its name.
    redo_name: String,
    /// The folder of both.
    folder: String,
    waits: Waits,
    failed: bool,
}

/// What may not have reached the disk.
#[derive(Clone, Copy)]
struct Waits {
    file: bool,
    /// The redo file that was made, or one that another run left.
    redo: bool,
    names: bool,
}

impl<'a, R: Files<File = File> + AllocGlobal> System<'a, R> {
    /// The regular file at a path, behind any links.
    pub fn open(rt: &'a R, path: &str) -> Result<System<'a, R>, OpenFault> {
        let alloc = rt.alloc();
        let name = real_name(rt, path)?;
        let file = OpenOptions::new()
            .read(true)
            .write(true)
            .open(rt, name.as_str())?;
        match file.try_lock() {
            Ok(()) => {}
            Err(TryLockError::WouldBlock) => return Err(OpenFault::Busy),
            Err(TryLockError::Error(error)) => return Err(OpenFault::Failed(error)),
        }
        if !file.metadata()?.is_file() {
            return Err(OpenFault::Failed(io::Error::from(ErrorKind::Unsupported)));
        }
        // Another run may have given the path to another file meanwhile.
        if !is_of(&file, &fs::metadata(rt, name.as_str())?)? {
            return Err(OpenFault::Busy);
        }
        let redo_name = redo_name(alloc, name.as_str())?;
        test_name(rt, redo_name.as_str())?;
        // A folder that can't be waited for is met here, before anything is written.
        let folder = folder_of(alloc, name.as_str())?;
        fs::open(rt, folder.as_str())?.sync_all()?;
        Ok(System {
            rt,
            file,
            redo: None,
            redo_name,
            folder,
            waits: Waits {
                file: true,
                redo: true,
                names: false,
            },
            failed: false,
        })
    }
}

impl<R: Files<File = File>> System<'_, R> {
    /// The file, to be read.
    pub fn file(&self) -> &File {
        &self.file
    }

    /// The name at which its redo file stands, if one does.
    pub fn redo_name(&self) -> &str {
        self.redo_name.as_str()
    }

    /// Whether it has no other name. By another one nobody would look for its redo file.
    pub fn has_one_name(&self) -> bool {
        matches!(self.file.metadata(), Ok(about) if about.nlink() == 1)
    }
}

/// Whether an edit of the file at a path was broken off after it may have touched it. Where no file can
/// be reached there, what stands beside the path itself tells. `Err` is that the redo file can't be
/// read.
pub fn is_broken_off<R: Files<File = File> + AllocGlobal>(rt: &R, path: &str) -> io::Result<bool> {
    let redo_name = redo_name_at(rt, path)?;
    let Some(redo) = open_redo(rt, redo_name.as_str())? else {
        return Ok(false);
    };
    let mut front = [0; 25];
    match redo.read_exact_at(&mut front, 0) {
        Ok(()) => Ok(is_open(&front)),
        Err(error) if error.kind() == ErrorKind::UnexpectedEof => Ok(false),
        Err(error) => Err(error),
    }
}

// The name of the file at a path: where a link leads, and else the path itself.
fn real_name<R: Files<File = File> + AllocGlobal>(rt: &R, path: &str) -> io::Result<String> {
    let alloc = rt.alloc();
    if !is_link(rt, path) {
        return Ok(String::from_str(alloc, path)?);
    }
    let real = fs::canonicalize(rt, path)?;
    Ok(String::from_str(alloc, real.as_str())?)
}

fn is_link<R: Files<File = File>>(rt: &R, path: &str) -> bool {
    matches!(fs::symlink_metadata(rt, path), Ok(about) if about.is_symlink())
}

// The name of the redo file of what stands at a path, or where that can't be reached, of the path.
fn redo_name_at<R: Files<File = File> + AllocGlobal>(rt: &R, path: &str) -> io::Result<String> {
    let alloc = rt.alloc();
    if is_link(rt, path) {
        if let Ok(real) = fs::canonicalize(rt, path) {
            return Ok(redo_name(alloc, real.as_str())?);
        }
    }
    Ok(redo_name(alloc, path)?)
}

// The name of the redo file of a file.
fn redo_name(alloc: Global, name: &str) -> Result<String, AllocError> {
    let ending = ".fitsed-redo";
    let mut redo_name = String::with_capacity(alloc, name.len().saturating_add(ending.len()))?;
    redo_name.push_str(name)?;
    redo_name.push_str(ending)?;
    Ok(redo_name)
}

// The redo file under a name, if one stands there. It's a regular file that no other user reads or
// writes, as a run makes it: so nobody else wrote it.
fn open_redo<R: Files<File = File>>(rt: &R, name: &str) -> io::Result<Option<File>> {
    let about = match fs::symlink_metadata(rt, name) {
        Ok(about) => about,
        Err(error) => {
            return match error.kind() {
                // None can stand beside a path that leads nowhere, or one whose name leaves no room; in a
                // folder that can't be looked into no file is reached either.
                ErrorKind::NotFound
                | ErrorKind::NotADirectory
                | ErrorKind::InvalidFilename
                | ErrorKind::PermissionDenied => Ok(None),
                _ => Err(error),
            };
        }
    };
    if !about.is_file() || about.mode() & 0o077 != 0 {
        return Err(io::Error::from(ErrorKind::InvalidData));
    }
    let redo = fs::open(rt, name)?;
    if !is_of(&redo, &about)? {
        return Err(io::Error::from(ErrorKind::InvalidData));
    }
    Ok(Some(redo))
}

// Whether a file may stand under a name, one that does or not: the system refuses one that is too long.
fn test_name<R: Files<File = File>>(rt: &R, name: &str) -> io::Result<()> {
    match fs::symlink_metadata(rt, name) {
        Err(error) if error.kind() != ErrorKind::NotFound => Err(error),
        _ => Ok(()),
    }
}

// The folder of a file.
fn folder_of(alloc: Global, name: &str) -> Result<String, AllocError> {
    let folder = match name.rfind('/') {
        Some(slash) => name.get(..slash).unwrap_or(""),
        None => ".",
    };
    Ok(format!(in alloc; "{folder}/")?)
}

// Whether this is said of a file that is open.
fn is_of(file: &File, about: &Metadata) -> io::Result<bool> {
    let held = file.metadata()?;
    Ok(held.dev() == about.dev() && held.ino() == about.ino())
}

// The byte at which a block begins.
fn offset_of(index: u64) -> io::Result<u64> {
    match index.checked_mul(2880) {
        Some(offset) => Ok(offset),
        None => Err(io::Error::from(ErrorKind::InvalidInput)),
    }
}

impl<R: Files<File = File>> System<'_, R> {
    ghost use Rattle.std.specs.Prelude.{◌≡◌, ◌||◌, is_err};

    // Notes whether a call failed.
    fn noted(&mut self, done: io::Result<()>) -> io::Result<()>
        ensures same { result ≡ done }
        ensures failed { self.new.failed ≡ (self.old.failed || is_err result) }
    {
        if done.is_err() {
            self.failed = true;
        }
        done
    }

    fn read_all(&self, alloc: Global) -> io::Result<Option<Vec<u8>>> {
        let Some(mut redo) = open_redo(self.rt, self.redo_name.as_str())? else {
            return Ok(None);
        };
        let mut bytes = Vec::new(alloc);
        redo.read_to_end(&mut bytes)?;
        Ok(Some(bytes))
    }

    fn sync(&mut self) -> io::Result<()>
        ensures { self.new.failed ≡ self.old.failed }
    {
        if self.waits.file {
            self.file.sync_all()?;
            self.waits.file = false;
        }
        if self.waits.redo {
            self.sync_redo()?;
            self.waits.redo = false;
        }
        if self.waits.names {
            fs::open(self.rt, self.folder.as_str())?.sync_all()?;
            self.waits.names = false;
        }
        Ok(())
    }

    // A redo file that another run left counts only once it is on the disk: that run may have been
    // killed while it waited for that.
    fn sync_redo(&self) -> io::Result<()> {
        if let Some(redo) = &self.redo {
            return redo.sync_all();
        }
        match open_redo(self.rt, self.redo_name.as_str())? {
            Some(redo) => redo.sync_all(),
            None => Ok(()),
        }
    }

    fn make(&mut self, head: &[u8]) -> io::Result<()>
        ensures { self.new.failed ≡ self.old.failed }
    {
        let mut redo = OpenOptions::new()
            .write(true)
            .create_new(true)
            .mode(0o600)
            .open(self.rt, self.redo_name.as_str())?;
        self.waits.names = true;
        if let Err(error) = redo.write_all(head) {
            let _ = fs::remove_file(self.rt, self.redo_name.as_str());
            return Err(error);
        }
        self.waits.redo = true;
        self.redo = Some(redo);
        Ok(())
    }

    fn add(&mut self, more: &[u8]) -> io::Result<()>
        ensures { self.new.failed ≡ self.old.failed }
    {
        self.waits.redo = true;
        match &mut self.redo {
            Some(redo) => redo.write_all(more),
            None => Err(io::Error::from(ErrorKind::NotFound)),
        }
    }

    fn open_gate(&mut self) -> io::Result<()>
        ensures { self.new.failed ≡ self.old.failed }
    {
        self.waits.redo = true;
        match &self.redo {
            Some(redo) => redo.write_all_at(&[1], 0),
            None => Err(io::Error::from(ErrorKind::NotFound)),
        }
    }

    fn remove(&mut self) -> io::Result<()>
        ensures { self.new.failed ≡ self.old.failed }
    {
        self.waits.names = true;
        fs::remove_file(self.rt, self.redo_name.as_str())?;
        self.waits.redo = false;
        self.redo = None;
        Ok(())
    }

    fn write(&mut self, index: u64, bytes: &[u8; 2880]) -> io::Result<()>
        ensures { self.new.failed ≡ self.old.failed }
    {
        self.waits.file = true;
        self.file.write_all_at(bytes, offset_of(index)?)
    }
}

/// A file of the system tells nothing of what stands there.
impl<R: Files<File = File>> Pair for System<'_, R> {
    ghost stands = { λ pair files. ⊥ };

    ghost may_leave = { λ pair files. ⊥ };

    ghost moment = { λ pair. 0 };

    ghost left_since = { λ pair moment files. ⊥ };

    ghost is_read = { λ pair. false };

    ghost failed = { λ pair. pair.failed };

    ghost written = { λ pair. 0 };

    ghost stays = { λ pair files never. never };

    ghost counts_now = { λ pair moment files later never. never };

    ghost only_now = { λ pair files never. never };

    fn len(&self) -> io::Result<u64> {
        Ok(self.file.metadata()?.len())
    }

    fn read_block(&self, index: u64) -> io::Result<[u8; 2880]> {
        let mut bytes = [0; 2880];
        self.file.read_exact_at(&mut bytes, offset_of(index)?)?;
        Ok(bytes)
    }

    fn read_redo(&self, alloc: Global) -> Result<Option<Vec<u8>>, ReadFault> {
        match self.read_all(alloc) {
            Ok(found) => Ok(found),
            Err(error) => match error.kind() {
                ErrorKind::OutOfMemory => Err(ReadFault::Memory),
                _ => Err(ReadFault::Failed(error)),
            },
        }
    }

    fn settle(&mut self) -> io::Result<()> {
        let done = self.sync();
        self.noted(done)
    }

    fn make_redo(&mut self, head: &[u8]) -> io::Result<()> {
        let done = self.make(head);
        self.noted(done)
    }

    fn add_redo(&mut self, more: &[u8]) -> io::Result<()> {
        let done = self.add(more);
        self.noted(done)
    }

    fn open_redo(&mut self) -> io::Result<()> {
        let done = self.open_gate();
        self.noted(done)
    }

    fn remove_redo(&mut self) -> io::Result<()> {
        let done = self.remove();
        self.noted(done)
    }

    fn write_block(&mut self, index: u64, bytes: &[u8; 2880]) -> io::Result<()> {
        let done = self.write(index, bytes);
        self.noted(done)
    }
}
