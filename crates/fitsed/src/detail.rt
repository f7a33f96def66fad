//! How much standard error is told.
use crate::noted::Noted;
use std::cell::Cell;
use std::io::{IsTerminal, Stderr};

/// How much standard error is told of a run.
///
/// Where it is no terminal and `-v` isn't given, it is told the lines alone that programs read there.
#[derive(Clone, Copy)]
pub struct Detail<'c> {
    /// The command that is given.
    pub command: &'c str,
    /// Where it is told.
    pub errors: Stderr,
    verbose: bool,
    progress: bool,
    on_terminal: bool,
    undone: &'c Cell<u64>,
}

impl<'c> Detail<'c> {
    /// The detail of a command, with `-v` and `--progress` or without. Lines that aren't done are
    /// counted in `undone`.
    pub fn of(
        command: &'c str,
        errors: Stderr,
        verbose: bool,
        progress: bool,
        undone: &'c Cell<u64>,
    ) -> Detail<'c> {
        Detail {
            command,
            errors,
            verbose,
            progress,
            on_terminal: errors.is_terminal(),
            undone,
        }
    }

    /// Whether more is told than the lines that programs read.
    pub fn tells(&self) -> bool {
        self.verbose || self.on_terminal
    }

    /// Whether it is told how far a run over several files has come.
    pub fn tells_progress(&self) -> bool {
        self.progress
    }

    /// Where remarks on lines go, if they are made.
    pub fn remarks(&self) -> Option<Noted<'c>> {
        if !self.tells() {
            return None;
        }
        Some(Noted {
            errors: self.verbose.then_some(self.errors),
            lines: self.undone,
        })
    }

    /// How many lines weren't done of which nobody was told why.
    pub fn untold(&self) -> u64 {
        if self.verbose { 0 } else { self.undone.get() }
    }
}
