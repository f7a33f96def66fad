//! The form of a command.
use crate::word::Word;
use clap::Command;
use std::alloc::{AllocError, Global};

/// A command: its name, what it does, what its help says, and the words that it takes.
#[derive(Clone, Copy)]
pub struct Form {
    pub name: &'static str,
    pub about: &'static str,
    pub help: &'static str,
    /// How it is typed, where clap wouldn't say it.
    pub usage: Option<&'static str>,
    pub words: &'static [Word],
}

impl Form {
    /// The command, as clap reads it.
    pub fn command<'a>(&self, alloc: Global) -> Result<Command<'a>, AllocError> {
        let mut command = Command::new(alloc, self.name)
            .about(self.about)
            .after_help(self.help);
        if let Some(usage) = self.usage {
            command = command.override_usage(usage);
        }
        for word in self.words {
            command = command.arg(word.arg(alloc)?)?;
        }
        Ok(command)
    }
}
