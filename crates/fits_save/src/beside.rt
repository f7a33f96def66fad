use std::alloc::{AllocError, Global};
use std::io::Write as _;

/// How many names are tried for a new file.
pub(crate) const NAMES: u32 = 100;

/// How many bytes a name has at most, on the file systems that the system has.
const NAME_LIMIT: usize = 255;

/// How many bytes the end of such a name has at most: `.fitsed-lock`.
const ENDING_LEN: usize = 12;

/// The names beside a path: the path, cut where its last name would be too long, and an ending, which
/// is a number for the new file.
#[derive(Drop)]
pub(crate) struct Beside {
    front: String,
    name: String,
    lock: String,
}

impl Beside {
    /// No name yet. Names that are made take no memory.
    pub(crate) fn of(alloc: Global, path: &str) -> Result<Beside, AllocError> {
        let front = path.get(..front_len(path)).unwrap_or(path);
        let front = format!(in alloc; "{front}")?;
        let room = front.len().saturating_add(ENDING_LEN);
        let lock = format!(in alloc; "{front}.fitsed-lock")?;
        Ok(Beside {
            front,
            name: String::with_capacity(alloc, room)?,
            lock,
        })
    }

    /// Takes the name with this number.
    pub(crate) fn take(&mut self, number: u32) {
        self.name.clear();
        let _ = write!(self.name, "{}.fitsed-{number}", self.front.as_str());
    }

    /// The name of the new file.
    pub(crate) fn as_str(&self) -> &str {
        self.name.as_str()
    }

    /// The name of a file that a run locks while it takes the path.
    pub(crate) fn lock(&self) -> &str {
        self.lock.as_str()
    }
}

// How many bytes of a path stand before the ending.
fn front_len(path: &str) -> usize {
    let start = match path.rfind('/') {
        Some(slash) => slash.saturating_add(1),
        None => 0,
    };
    let most = start.saturating_add(NAME_LIMIT - ENDING_LEN);
    if path.len() <= most {
        return path.len();
    }
    // A character has at most four bytes.
    for back in 0..4 {
        let end = most.saturating_sub(back);
        if path.is_char_boundary(end) {
            return end;
        }
    }
    start
}
