//! What a session keeps: the HDUs, the bytes after the last, a table of what they are called, and beside
//! them plain values alone.

use super::Session;
use crate::holder::InMemory;
use crate::name_table::NameTable;
use fits_hdu::{ExtensionName, Hdu};
use std::alloc::Global;

// A value that holds no memory of its own.
fn plain<T: Copy>(_value: T) {}

/// Takes a session apart, and nothing calls it: each field has the type that is written here, and one
/// more, or one of another type, doesn't compile.
fn apart(session: Session<InMemory>) {
    let Session {
        hdus,
        len,
        tail,
        names,
        alloc,
        holder,
    } = session;
    let NameTable { numbers, room } = names;
    let _hdus: Vec<Hdu> = hdus;
    let _tail: Vec<u8> = tail;
    let _numbers: Vec<(ExtensionName, usize)> = numbers;
    plain::<u64>(len);
    plain::<usize>(room);
    plain::<Global>(alloc);
    plain::<InMemory>(holder);
}
