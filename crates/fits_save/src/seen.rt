use std::fs::{File, Metadata};
use std::os::unix::fs::MetadataExt;

/// Which file was opened, and how it was then.
#[derive(Clone, Copy)]
pub struct Seen {
    device: u64,
    inode: u64,
    len: u64,
    modified: (i64, i64),
    changed: (i64, i64),
}

impl Seen {
    /// The file as it is opened; none where the system doesn't tell.
    pub fn of(file: &File) -> Option<Seen> {
        match file.metadata() {
            Ok(about) => Some(Seen::as_it_is(&about)),
            Err(_) => None,
        }
    }

    // What the system tells of a file.
    fn as_it_is(about: &Metadata) -> Seen {
        Seen {
            device: about.dev(),
            inode: about.ino(),
            len: about.len(),
            modified: (about.mtime(), about.mtime_nsec()),
            changed: (about.ctime(), about.ctime_nsec()),
        }
    }

    /// Whether this is that file, whatever was done to it since.
    pub fn is_of(&self, about: &Metadata) -> bool {
        self.device == about.dev() && self.inode == about.ino()
    }

    /// Whether the bytes of the file that was opened are as they were, as far as the system tells: a
    /// file that has another name by then, or other rights, is as it was.
    pub fn is_as_it_was(&self, file: &File) -> bool {
        match file.metadata() {
            Ok(about) => self.has_bytes(&about),
            Err(_) => true,
        }
    }

    /// Whether this is that file, and as it was.
    pub(crate) fn is_still(&self, about: &Metadata) -> bool {
        self.is_of(about)
            && self.has_bytes(about)
            && self.changed == (about.ctime(), about.ctime_nsec())
    }

    // Whether it has the same length, and was not written since.
    fn has_bytes(&self, about: &Metadata) -> bool {
        self.len == about.len() && self.modified == (about.mtime(), about.mtime_nsec())
    }
}
