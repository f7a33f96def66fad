//! How far a run over several files has come.
use crate::words::oddity_of;
use std::rt::Clock;
use std::time::Instant;

/// How many seconds pass at least between two lines.
const PAUSE: u64 = 1;

/// How far a run over several files has come. Where that is asked for, standard error is told of the
/// first file as it is begun, and once a second at most of the one that is begun then: a line each, on
/// a terminal too, so that it stands apart from the lines of other messages and of standard output.
#[derive(Clone, Copy)]
pub struct Progress {
    is_told: bool,
    /// How many files there are.
    count: usize,
    /// How many of them are begun.
    number: usize,
    /// When one was told of.
    last: Option<Instant>,
}

impl Progress {
    /// That of so many files, none of which is begun.
    pub fn of(is_told: bool, count: usize) -> Progress {
        Progress {
            is_told,
            count,
            number: 0,
            last: None,
        }
    }

    /// The next file is begun. Nothing is told where the clock fails, or its name isn't UTF-8.
    pub fn begin<R: Clock + Eprint>(&mut self, rt: &R, path: &str) {
        self.number = self.number.saturating_add(1);
        if self.is_told && oddity_of(path).is_none() && self.is_due(rt) {
            let _ = eprintln!(rt; "{}/{} {path}", self.number, self.count);
        }
    }

    // Whether it is time for a line; then it is noted.
    fn is_due<R: Clock>(&mut self, rt: &R) -> bool {
        let Ok(now) = Instant::now(rt) else {
            return false;
        };
        if let Some(last) = self.last {
            if now.duration_since(last).as_secs() < PAUSE {
                return false;
            }
        }
        self.last = Some(now);
        true
    }
}
