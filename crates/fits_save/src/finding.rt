//! What a path leads to.
use std::alloc::AllocError;
use std::io::ErrorKind;
use std::rt::Files;
use std::{fs, io};

/// How many links are followed.
const LINKS: u32 = 40;

/// Where a path leads at which no file is found, behind any links; none where that can't be told.
pub(crate) fn end_of_links<R: Files + AllocGlobal>(
    rt: &R,
    path: &str,
) -> Result<Option<String>, AllocError> {
    let alloc = rt.alloc();
    let mut end = format!(in alloc; "{path}")?;
    for _link in 0..LINKS {
        match link_of(rt, end.as_str())? {
            Some(next) => end = next,
            None => {
                let is_free = fs::symlink_metadata(rt, end.as_str()).is_err();
                return Ok(is_free.then_some(end));
            }
        }
    }
    Ok(None)
}

// Where the link at a path leads, if one stands there.
fn link_of<R: Files + AllocGlobal>(rt: &R, path: &str) -> Result<Option<String>, AllocError> {
    match next_of(rt, path) {
        Ok(next) => Ok(Some(next)),
        Err(error) if error.kind() == ErrorKind::OutOfMemory => Err(AllocError),
        Err(_) => Ok(None),
    }
}

// Where the link at a path leads.
fn next_of<R: Files + AllocGlobal>(rt: &R, path: &str) -> io::Result<String> {
    let link = fs::read_link(rt, path)?;
    let link = link.as_str();
    let alloc = rt.alloc();
    let next = match path.rfind('/') {
        Some(slash) if !link.starts_with('/') => {
            let folder = path.get(..slash).unwrap_or(path);
            format!(in alloc; "{folder}/{link}")?
        }
        _ => format!(in alloc; "{link}")?,
    };
    Ok(next)
}

/// Whether a path is that of an open descriptor, such as /dev/stdout. What is written there goes on
/// to the file that it leads to, which nothing can take the place of.
pub(crate) fn is_descriptor(path: &str) -> bool {
    path.starts_with("/dev/std") || path.starts_with("/dev/fd/") || path.starts_with("/proc/")
}
