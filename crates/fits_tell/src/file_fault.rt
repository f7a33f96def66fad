use crate::fault::Fault;
use std::fmt;
use std::fmt::{Display, Formatter};

/// A fault of the file of this name, as standard error tells it where several files are read.
#[derive(Clone, Copy)]
pub struct FileFault<'a> {
    pub name: &'a str,
    pub fault: Fault,
}

impl Display for FileFault<'_> {
    fn fmt<W: fmt::Write>(&self, f: &mut Formatter<W>) -> fmt::Result {
        let name = self.name;
        match self.fault {
            Fault::Refused(why) => write!(f, "fitsed: {name}: open refused {why}"),
            Fault::ScriptTooLong => write!(f, "fitsed: {name}: script too long"),
            Fault::Memory => write!(f, "fitsed: {name}: no memory"),
            Fault::ReadFailed => write!(f, "fitsed: {name}: read failed"),
            Fault::WriteFailed => write!(f, "fitsed: {name}: write failed"),
            Fault::Reread(why) => write!(f, "fitsed: {name}: {why}"),
        }
    }
}
