//! The program `fitsed`: words to a run, and its end to a status.
#![tactic(auto)]

mod arguments;
mod comparing;
mod detail;
mod drawing;
mod editing;
mod explaining;
mod files;
mod form;
mod help;
mod listed;
mod noted;
mod overwriting;
mod piece;
mod progress;
mod reading;
mod remarks;
mod reporting;
mod saved_end;
mod scaled;
mod subject;
mod task;
mod unfinished;
mod unopened;
mod word;
mod words;
mod wrong_sums;

use arguments::command;
use clap::error::ErrorKind;
use clap::{ArgMatches, Error};
use comparing::compare;
use detail::Detail;
use drawing::draw;
use editing::{edit, edit_in_place};
use fits_cli::Fault;
use reading::{Job, Sought, ask, each, name};
use reporting::{NOT_TAKEN, report_untold, reported, reported_odd_word};
use std::cell::Cell;
use std::fs;
use std::fs::File;
use std::io::IsTerminal;
use std::process::ExitCode;
use std::rt::{Clock, Files};
use subject::Subject;
use task::{Inputs, Task, TaskFault, task_of};
use words::{oddity_of, words};

/// How many characters a keyword name has at most.
const NAME_LEN: usize = 8;

fn main(rt: HostRuntime) -> ExitCode {
    // A stream that was closed when the program started: this takes its place, so that no file that
    // is opened does. It can be neither read as a file nor written.
    let _held = [fs::open(&rt, "/"), fs::open(&rt, "/"), fs::open(&rt, "/")];
    let Ok(words) = words(&rt) else {
        return ExitCode::from(reported(&rt, Fault::Memory));
    };
    let Ok(command) = command(rt.alloc()) else {
        return ExitCode::from(reported(&rt, Fault::Memory));
    };
    ExitCode::from(match command.try_get_matches_from(words.as_slice()) {
        Ok(matches) => asked(&rt, &words, &matches),
        Err(error) => usage(&rt, &words, error),
    })
}

// Does what words ask for, and gives its status.
fn asked(rt: &HostRuntime, words: &[String], matches: &ArgMatches<'_>) -> u8 {
    let undone = Cell::new(0);
    let (command, verbose, progress) = match matches.subcommand() {
        Some((name, of_command)) => (
            name,
            of_command.get_flag("verbose"),
            of_command.get_flag("progress"),
        ),
        None => ("", false, false),
    };
    let detail = Detail::of(command, rt.stderr(), verbose, progress, &undone);
    let status = match task_of(rt.alloc(), matches) {
        Ok(task) => status_of(rt, detail, task),
        Err(why) => unsettled(rt, words, detail, why),
    };
    report_untold(rt, detail.untold());
    status
}

// Does a task, and gives its status.
fn status_of<R: Files<File = File> + Input + Print + Eprint + Clock + AllocGlobal + Clone + Drop>(
    rt: &R,
    detail: Detail<'_>,
    task: Task<'_, '_>,
) -> u8 {
    match task {
        Task::Edit {
            script,
            from,
            to,
            named,
            terms,
        } => {
            let subject = Subject {
                name: from,
                named,
                detail,
            };
            edit(rt, &script, subject, to, terms)
        }
        Task::EditInPlace {
            script,
            paths,
            named,
            recursive,
            done,
            terms,
        } => {
            let files = Inputs {
                paths: Some(&paths),
                named,
                recursive,
                from: None,
                json: false,
            };
            edit_in_place(rt, &script, files, done, terms, detail)
        }
        Task::Ask {
            script,
            manner,
            files,
        } => ask(rt, &script, manner, files, detail),
        Task::Show { choice, files } => each(rt, Job::Show(&choice), files, detail),
        Task::Table { choice, files } => each(rt, Job::Table(&choice), files, detail),
        Task::Compare {
            first,
            second,
            script: false,
        } => compare(rt, first, second, detail),
        Task::Compare { first, second, .. } => draw(rt, first, second, detail),
        Task::Tell { telling, files } => each(rt, Job::Tell(telling), files, detail),
        Task::Name {
            telling,
            files,
            end,
        } => name(rt, Sought::Problems(telling), files, end, detail),
        Task::Lack {
            choices,
            files,
            end,
        } => name(rt, Sought::Lacking(&choices), files, end, detail),
    }
}

// Explains words that clap takes and that ask for nothing. They end with 2 whether that can be
// written or not.
fn unsettled<R: Eprint>(rt: &R, words: &[String], detail: Detail<'_>, why: TaskFault<'_>) -> u8 {
    let _ = match why {
        TaskFault::Memory => return reported(rt, Fault::Memory),
        TaskFault::NotText => return reported_odd_word(rt, words, detail.tells()),
        TaskFault::LongName(name) => {
            let unit = if name.chars().count() > NAME_LEN {
                "characters"
            } else {
                "bytes"
            };
            eprintln!(rt; "fitsed: not a keyword name: {name}: more than 8 {unit}")
        }
        TaskFault::NotName(word) => eprintln!(rt; "fitsed: not a keyword name: {word}"),
        TaskFault::NotHdu(word) => eprintln!(rt; "fitsed: not the number of an HDU: {word}"),
        TaskFault::Missing => Ok(()),
    };
    NOT_TAKEN
}

// Help that was asked for is printed with status 0; wrong words are explained on standard error,
// and end with 2 whether that can be written or not.
fn usage(rt: &HostRuntime, words: &[String], error: Error) -> u8 {
    if error.kind() == ErrorKind::OutOfMemory {
        return reported(rt, Fault::Memory);
    }
    if words.iter().any(|word| oddity_of(word.as_str()).is_some()) {
        return reported_odd_word(rt, words, rt.stderr().is_terminal());
    }
    let printed = error.print(rt);
    if error.use_stderr() {
        return NOT_TAKEN;
    }
    match printed {
        Ok(()) => 0,
        Err(_) => reported(rt, Fault::WriteFailed),
    }
}
