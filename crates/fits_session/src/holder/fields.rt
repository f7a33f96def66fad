//! How data units that lie in a file are had: a reference to the file, and room for a piece of it.

use super::InFile;

/// Takes one apart, and nothing calls it: each field has the type that is written here, and one more,
/// or one of another type, doesn't compile.
fn apart<'f, F>(holder: InFile<'f, F>) {
    let InFile { file, room } = holder;
    let _file: &'f F = file;
    let _room: Vec<u8> = room;
}
