/// What stands at a path at first.
#[derive(Clone, Copy)]
pub(crate) enum Target {
    /// Nothing.
    Free,
    /// A regular file.
    File,
    /// A regular file that nothing can take the place of: it's reached by an open descriptor's path.
    Held,
    /// What keeps no bytes of its own: a device, a pipe, or a folder, which can't be written.
    Device,
}
