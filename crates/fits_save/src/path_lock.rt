use std::fs::{File, OpenOptions, TryLockError};
use std::io::ErrorKind;
use std::os::unix::fs::{MetadataExt, OpenOptionsExt};
use std::rt::Files;
use std::{fs, io};

/// How often the file of a lock is looked for that other runs remove meanwhile.
const TURNS: u32 = 1000;

/// A lock by which one run at a time takes a path: that of a file beside it, which goes with the lock.
/// A run that is killed loses the lock, and leaves the file.
#[derive(Drop)]
pub(crate) struct PathLock {
    file: File,
}

/// What comes of asking for a lock. Nothing is waited for.
#[derive(Drop)]
pub(crate) enum Asked {
    Held(PathLock),
    /// Another run has it.
    Taken,
    /// The folder takes no such file, or its system knows no locks.
    Unknown,
}

impl PathLock {
    /// Asks for the lock whose file has this name.
    pub(crate) fn ask<R: Files<File = File>>(rt: &R, name: &str) -> Asked {
        for _turn in 0..TURNS {
            match open(rt, name) {
                Ok(file) => match file.try_lock() {
                    // The run that had it may have removed the file.
                    Ok(()) => {
                        if stands(rt, name, &file) {
                            return Asked::Held(PathLock { file });
                        }
                    }
                    Err(TryLockError::WouldBlock) => return Asked::Taken,
                    Err(TryLockError::Error(_)) => {
                        let _ = fs::remove_file(rt, name);
                        return Asked::Unknown;
                    }
                },
                Err(error) if error.kind() == ErrorKind::NotFound => {}
                Err(_) => return Asked::Unknown,
            }
        }
        Asked::Unknown
    }

    /// Gives it back.
    pub(crate) fn release<R: Files<File = File>>(self, rt: &R, name: &str) {
        let _ = fs::remove_file(rt, name);
        let PathLock { file: _file } = self;
    }
}

// The file of a lock, which is made where none stands.
fn open<R: Files<File = File>>(rt: &R, name: &str) -> io::Result<File> {
    let made = OpenOptions::new()
        .write(true)
        .create_new(true)
        .mode(0o644)
        .open(rt, name);
    match made {
        Err(error) if error.kind() == ErrorKind::AlreadyExists => fs::open(rt, name),
        _ => made,
    }
}

// Whether a file stands under a name.
fn stands<R: Files<File = File>>(rt: &R, name: &str, file: &File) -> bool {
    match (file.metadata(), fs::metadata(rt, name)) {
        (Ok(held), Ok(there)) => held.dev() == there.dev() && held.ino() == there.ino(),
        _ => false,
    }
}
