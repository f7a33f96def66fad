/// How a result takes its path.
#[derive(Clone, Copy)]
pub enum Taking {
    /// Its path is free: it gets this name too.
    Link,
    /// It takes the name of what stands there.
    Rename,
    /// What stands there is written over: its owner or its other names can't be kept otherwise.
    Overwrite,
}
