//! The files that paths stand for, where folders stand for those below them.
use crate::task::Inputs;
use std::alloc::AllocError;
use std::fs::File;
use std::io::{ErrorKind, Read};
use std::rt::Files;
use std::{fs, io};

/// What the names end in of files that a folder stands for.
const ENDINGS: &[&str] = &[".fits", ".fit", ".fts", ".fz"];

/// The status where a folder can't be read.
const UNREAD: u8 = 3;

/// Files, and the status of folders that stand for some and can't be read.
#[derive(Drop)]
pub struct FileList {
    pub paths: Vec<String>,
    pub status: u8,
}

/// The files that paths stand for: each path for itself; a folder, where they are gone through, for
/// the files below it, in the order of their paths. Standard error is told of one that can't be read.
pub fn listed<R: Files<File = File> + Input + Eprint + AllocGlobal + Clone + Drop>(
    rt: &R,
    files: Inputs<'_, '_>,
) -> Result<FileList, AllocError> {
    let mut all = FileList {
        paths: Vec::new(rt.alloc()),
        status: 0,
    };
    for path in files.paths.unwrap_or(&[]) {
        if files.recursive && is_folder(rt, path) {
            add_below(rt, path, &mut all)?;
        } else {
            all.paths.push(String::from_str(rt.alloc(), path)?)?;
        }
    }
    match files.from {
        Some(path) => add_named(rt, path, &mut all)?,
        None => {}
    }
    Ok(all)
}

// Adds the files whose names a file has, a zero byte after each.
fn add_named<R: Files<File = File> + Input + Eprint + AllocGlobal>(
    rt: &R,
    path: &str,
    all: &mut FileList,
) -> Result<(), AllocError> {
    let mut text = Vec::new(rt.alloc());
    if !is_read(rt, path, &mut text)? {
        let _ = eprintln!(rt; "fitsed: {path}: read failed");
        all.status = UNREAD;
    }
    let Ok(text) = str::from_utf8(&text) else {
        let _ = eprintln!(rt; "fitsed: {path}: a name is not UTF-8");
        all.status = UNREAD;
        return Ok(());
    };
    for name in text.split_terminator('\0') {
        all.paths.push(String::from_str(rt.alloc(), name)?)?;
    }
    Ok(())
}

// Whether a file, or standard input, is read to its end.
fn is_read<R: Files<File = File> + Input + AllocGlobal>(
    rt: &R,
    path: &str,
    text: &mut Vec<u8>,
) -> Result<bool, AllocError> {
    match read_at(rt, path, text) {
        Ok(_) => Ok(true),
        Err(why) if why.kind() == ErrorKind::OutOfMemory => Err(AllocError),
        Err(_) => Ok(false),
    }
}

fn read_at<R: Files<File = File> + Input + AllocGlobal>(
    rt: &R,
    path: &str,
    text: &mut Vec<u8>,
) -> io::Result<usize> {
    if path == "-" {
        return rt.reader().read_to_end(text);
    }
    fs::open(rt, path)?.read_to_end(text)
}

fn is_folder<R: Files>(rt: &R, path: &str) -> bool {
    matches!(fs::metadata(rt, path), Ok(about) if about.is_dir())
}

// Adds the files below a folder, whatever folders they are in.
fn add_below<R: Files + Eprint + AllocGlobal + Clone + Drop>(
    rt: &R,
    folder: &str,
    all: &mut FileList,
) -> Result<(), AllocError> {
    let mut files = Vec::new(rt.alloc());
    let mut folders = Vec::new(rt.alloc());
    folders.push(String::from_str(rt.alloc(), folder)?)?;
    for _turn in 0..usize::MAX {
        let Some(next) = folders.pop() else {
            break;
        };
        if !is_gone_through(rt, &next, &mut folders, &mut files)? {
            all.status = UNREAD;
        }
    }
    files.sort_unstable();
    for file in files {
        all.paths.push(file)?;
    }
    Ok(())
}

// Adds what stands in a folder, and says whether all of it can be read. Standard error is told where
// it can't.
fn is_gone_through<R: Files + Eprint + AllocGlobal + Clone + Drop>(
    rt: &R,
    folder: &str,
    folders: &mut Vec<String>,
    files: &mut Vec<String>,
) -> Result<bool, AllocError> {
    match add_inside(rt, folder, folders, files) {
        Ok(()) => Ok(true),
        Err(why) if why.kind() == ErrorKind::OutOfMemory => Err(AllocError),
        Err(why) => {
            let _ = eprintln!(rt; "fitsed: {folder}: {why}");
            Ok(false)
        }
    }
}

// Adds what stands in a folder: folders, and files with the endings.
fn add_inside<R: Files + AllocGlobal + Clone + Drop>(
    rt: &R,
    folder: &str,
    folders: &mut Vec<String>,
    files: &mut Vec<String>,
) -> io::Result<()> {
    for entry in fs::read_dir(rt, folder)? {
        let entry = entry?;
        let Some(path) = entry.path().to_str() else {
            return Err(io::Error::from(ErrorKind::InvalidFilename));
        };
        let path = String::from_str(rt.alloc(), path)?;
        if entry.file_type()?.is_dir() {
            folders.push(path)?;
        } else if ENDINGS.iter().any(|ending| path.ends_with(ending)) {
            files.push(path)?;
        }
    }
    Ok(())
}
