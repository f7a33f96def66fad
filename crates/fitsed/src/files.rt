//! Files that are read.
use fits_card::CardList;
use fits_passing::{Headers, read_headers};
use fits_stream::FileSource;
use std::fs;
use std::fs::File;
use std::os::unix::fs::MetadataExt;
use std::rt::Files;

/// What stands where a file is to be saved.
#[derive(Clone, Copy)]
pub enum Standing {
    Nothing,
    /// A pipe or a device.
    Device,
    /// The file that is read.
    Same,
    /// Another file.
    Other,
}

/// What stands at a path, where this file is read.
pub fn standing_at<R: Files>(rt: &R, path: &str, read: &File) -> Standing {
    let Ok(there) = fs::metadata(rt, path) else {
        return Standing::Nothing;
    };
    if !there.is_file() {
        return Standing::Device;
    }
    match read.metadata() {
        Ok(about) if about.dev() == there.dev() && about.ino() == there.ino() => Standing::Same,
        _ => Standing::Other,
    }
}

/// A regular file, opened once more. A pipe or a device isn't: it would lose what it has.
pub fn stored_at<R: Files<File = File>>(rt: &R, path: &str) -> Option<File> {
    let about = fs::metadata(rt, path).ok()?;
    if !about.is_file() {
        return None;
    }
    fs::open(rt, path).ok()
}

/// The headers of a regular file, read once more, as far as they can be.
pub fn headers_at<R: Files<File = File> + AllocGlobal>(
    rt: &R,
    path: &str,
) -> Option<Vec<CardList>> {
    let file = stored_at(rt, path)?;
    match read_headers(rt.alloc(), &mut source_of(file)) {
        Ok(Headers { headers, .. }) => Some(headers),
        Err(_) => None,
    }
}

/// A file to read: a regular one has places, so that its bytes can be gone past unread.
pub fn source_of(file: File) -> FileSource<File> {
    match file.metadata() {
        Ok(about) if about.is_file() => FileSource::stored(file),
        _ => FileSource::stream(file),
    }
}

/// Whether a file is a regular one, which can be read by places.
pub fn is_stored(file: &File) -> bool {
    matches!(file.metadata(), Ok(about) if about.is_file())
}

/// The permissions of a file that is read: those of one that is made like it. Of a pipe or a device,
/// those of any new file.
pub fn mode_of(file: &File) -> u32 {
    match file.metadata() {
        Ok(about) if about.is_file() => about.mode() & 0o777,
        _ => 0o666,
    }
}
