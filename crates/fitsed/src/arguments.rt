//! The words that the command line takes, as clap reads them.
use crate::form::Form;
use crate::help::{
    ABOUT, ASK, CARDS, COMPARED, DIFF, EDIT, EDIT_USAGE, FOUND, KEYED, KEYS, LINES, LIST, LISTED,
    SHOWN, STAT, STATED, STATUSES, SUM, SUMMED, VERIFY, VERSION, WHY_FILES, WHY_LINES,
};
use crate::word::Word;
use clap::Command;
use std::alloc::{AllocError, Global};

// The commands, as the help lists them.
const FORMS: &[Form] = &[
    EDITS, ASKS, SHOWS, TABLES, COMPARES, LISTS, SUMS, STATES, VERIFIES,
];

const EDITS: Form = Form {
    name: "edit",
    about: EDIT,
    help: LINES,
    usage: Some(EDIT_USAGE),
    words: &[
        Word::Line,
        Word::File,
        Word::Extended,
        Word::Verbose(WHY_LINES),
        Word::Named,
        Word::RecursiveInPlace,
        Word::ProgressInPlace,
        Word::Flag("all", 'a', "Save nothing unless every line is done"),
        Word::Flag(
            "check",
            'c',
            "Save nothing if the result has more errors of some code than IN, and print them",
        ),
        Word::Strict,
        Word::Flag(
            "in-place",
            'i',
            "Edit IN, and each further file, where it stands; there is no OUT",
        ),
        Word::Flag(
            "sums",
            's',
            "Keep sums right that are right, and leave wrong ones as they are",
        ),
        Word::Flag(
            "tables",
            't',
            "Refuse what would leave a table other columns, and count its errors with -c",
        ),
        Word::Done,
        Word::NoClobber,
        Word::Flag(
            "safe",
            'S',
            "Save nothing where what stands at OUT can't stay whole until all is saved",
        ),
        Word::Overwrite,
        Word::Backup,
        Word::In,
        Word::Out,
        Word::More,
    ],
};

const ASKS: Form = Form {
    name: "ask",
    about: ASK,
    help: LINES,
    usage: None,
    words: &[
        Word::Line,
        Word::File,
        Word::Extended,
        Word::Verbose(WHY_LINES),
        Word::Named,
        Word::Json,
        Word::Recursive,
        Word::NamesFrom,
        Word::Progress,
        Word::Files,
        Word::Flag(
            "tables",
            't',
            "Refuse what would leave a table other columns",
        ),
    ],
};

const SHOWS: Form = Form {
    name: "cards",
    about: CARDS,
    help: SHOWN,
    usage: None,
    words: &[
        Word::Verbose(WHY_FILES),
        Word::Named,
        Word::JsonUnless("files-without"),
        Word::Recursive,
        Word::NamesFrom,
        Word::Progress,
        Word::Files,
        Word::Hdu,
        Word::Name,
        Word::Lacking,
        Word::Null("files-without"),
    ],
};

const TABLES: Form = Form {
    name: "keys",
    about: KEYS,
    help: KEYED,
    usage: None,
    words: &[
        Word::Verbose(WHY_FILES),
        Word::Recursive,
        Word::NamesFrom,
        Word::Progress,
        Word::Files,
        Word::OneHdu,
        Word::Keyword,
    ],
};

const COMPARES: Form = Form {
    name: "diff",
    about: DIFF,
    help: COMPARED,
    usage: None,
    words: &[
        Word::Verbose(WHY_FILES),
        Word::Flag(
            "script",
            's',
            "Print the script that makes the headers of A those of B",
        ),
        Word::First,
        Word::Second,
    ],
};

const LISTS: Form = Form {
    name: "list",
    about: LIST,
    help: LISTED,
    usage: None,
    words: &[
        Word::Verbose(WHY_FILES),
        Word::Named,
        Word::Json,
        Word::Recursive,
        Word::NamesFrom,
        Word::Progress,
        Word::Files,
        Word::Flag(
            "long",
            'l',
            "Say in each line what its HDU is called, too: type, name and version",
        ),
    ],
};

const SUMS: Form = Form {
    name: "sum",
    about: SUM,
    help: SUMMED,
    usage: None,
    words: &[
        Word::Verbose(WHY_FILES),
        Word::Named,
        Word::Json,
        Word::Recursive,
        Word::NamesFrom,
        Word::Progress,
        Word::Files,
        Word::Flag(
            "check",
            'c',
            "Print the lines with a -1 alone, and end with 1 if there is one",
        ),
    ],
};

const STATES: Form = Form {
    name: "stat",
    about: STAT,
    help: STATED,
    usage: None,
    words: &[
        Word::Verbose(WHY_FILES),
        Word::Named,
        Word::Json,
        Word::Recursive,
        Word::NamesFrom,
        Word::Progress,
        Word::Files,
    ],
};

const VERIFIES: Form = Form {
    name: "verify",
    about: VERIFY,
    help: FOUND,
    usage: None,
    words: &[
        Word::Verbose(WHY_FILES),
        Word::Named,
        Word::JsonUnless("files-with-errors"),
        Word::Recursive,
        Word::NamesFrom,
        Word::Progress,
        Word::Files,
        Word::Flag("errors", 'e', "List errors alone"),
        Word::Flag("quiet", 'q', "List nothing: print the counts alone"),
        Word::Flag(
            "print-cards",
            'p',
            "Print the card of its place after each problem",
        ),
        Word::Flag(
            "tables",
            't',
            "Judge what headers of tables say of columns, too",
        ),
        Word::Flag(
            "summary",
            's',
            "Print how many problems there are of each code, in place of a line for each",
        ),
        Word::Flag("warnings", 'w', "Warnings count for the status too"),
        Word::Flag(
            "files-with-errors",
            'l',
            "Print the names alone of files with errors, and of those that don't open",
        ),
        Word::Null("files-with-errors"),
    ],
};

/// The command line.
pub fn command<'a>(alloc: Global) -> Result<Command<'a>, AllocError> {
    let mut all = Command::new(alloc, "fitsed")
        .version(VERSION)
        .about(ABOUT)
        .after_help(STATUSES)
        .subcommand_required(true);
    for form in FORMS {
        all = all.subcommand(form.command(alloc)?)?;
    }
    Ok(all)
}
