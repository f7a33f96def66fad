//! A word that a command takes.
use clap::{Arg, ArgAction};
use std::alloc::{AllocError, Global};

/// A word that a command takes.
#[derive(Clone, Copy)]
pub enum Word {
    /// A flag of one command: its name, its letter, and what the help says of it.
    Flag(&'static str, char, &'static str),
    /// A line of the script.
    Line,
    /// A file with lines of the script.
    File,
    /// Whether extended lines are taken.
    Extended,
    /// Whether standard error is told more.
    Verbose(&'static str),
    /// Whether warnings count as errors.
    Strict,
    /// Whether each file is told of once it is done.
    Done,
    /// Whether a file that stands at OUT stays.
    NoClobber,
    /// Whether the file itself is written.
    Overwrite,
    /// What ends the name that the old file keeps.
    Backup,
    /// Whether each line begins with the name of its file.
    Named,
    /// Whether each line is a JSON object.
    Json,
    /// The same, but not with this flag.
    JsonUnless(&'static str),
    /// An HDU whose cards are printed.
    Hdu,
    /// A keyword whose cards are printed.
    Name,
    /// Whether a folder stands for the files below it.
    Recursive,
    /// The same of files that are edited in place.
    RecursiveInPlace,
    /// A file with names of files to read.
    NamesFrom,
    /// Whether it is told how far a run over several files has come.
    Progress,
    /// The same of files that are edited in place.
    ProgressInPlace,
    /// Whether names of files lack a keyword that is asked for.
    Lacking,
    /// Whether a zero byte ends each name that is printed; and with which flag names are.
    Null(&'static str),
    /// The HDU whose keywords are asked for.
    OneHdu,
    /// A keyword that is asked for.
    Keyword,
    /// The file to edit.
    In,
    /// The file to write.
    Out,
    /// More files to edit.
    More,
    /// The files to read.
    Files,
    /// The first of two files to compare.
    First,
    /// The second one.
    Second,
}

impl Word {
    /// The word, as clap reads it.
    pub fn arg<'a>(&self, alloc: Global) -> Result<Arg<'a>, AllocError> {
        match *self {
            Word::Flag(id, letter, help) => Ok(flag(alloc, id, letter, help)),
            Word::Line => Ok(line(alloc)),
            Word::File => Ok(file(alloc)),
            Word::Extended => Ok(extended(alloc)),
            Word::Verbose(help) => Ok(flag(alloc, "verbose", 'v', help)),
            Word::Strict => strict(alloc),
            Word::Done => done(alloc),
            Word::NoClobber => no_clobber(alloc),
            Word::Overwrite => overwrite(alloc),
            Word::Backup => Ok(backup(alloc)),
            Word::Named => Ok(named(alloc)),
            Word::Json => Ok(json(alloc)),
            Word::JsonUnless(flag) => json(alloc).conflicts_with(flag),
            Word::Recursive => Ok(recursive(alloc)),
            Word::RecursiveInPlace => recursive(alloc).requires_arg("in-place"),
            Word::Hdu => Ok(hdu(alloc)),
            Word::Name => Ok(name(alloc)),
            Word::NamesFrom => Ok(names_from(alloc)),
            Word::Progress => Ok(progress(alloc)),
            Word::ProgressInPlace => progress(alloc).requires_arg("in-place"),
            Word::Lacking => lacking(alloc),
            Word::Null(names) => null(alloc, names),
            Word::OneHdu => Ok(one_hdu(alloc)),
            Word::Keyword => Ok(keyword(alloc)),
            Word::In => Ok(path(alloc, "IN", "The file to read").required(true)),
            Word::Out => out(alloc),
            Word::More => more(alloc),
            Word::Files => files(alloc),
            Word::First => Ok(path(alloc, "A", "The first file").required(true)),
            Word::Second => Ok(path(alloc, "B", "The second file").required(true)),
        }
    }
}

fn line<'a>(alloc: Global) -> Arg<'a> {
    let help = "A line of the script, in place of standard input; may be repeated";
    list(alloc, "line", 'e', "LINE", help).allow_hyphen_values(true)
}

fn file<'a>(alloc: Global) -> Arg<'a> {
    let help = "A file with lines of the script, - for standard input; may be repeated";
    list(alloc, "file", 'f', "SCRIPT", help)
}

fn extended<'a>(alloc: Global) -> Arg<'a> {
    let help = "Take extended lines too, each for a plain line";
    flag(alloc, "extended", 'x', help)
}

fn strict<'a>(alloc: Global) -> Result<Arg<'a>, AllocError> {
    let help = "With -c: warnings count as errors do";
    flag(alloc, "warnings", 'w', help).requires_arg("check")
}

fn done<'a>(alloc: Global) -> Result<Arg<'a>, AllocError> {
    Arg::new(alloc, "done")
        .long("done")
        .action(ArgAction::SetTrue)
        .help("With -i: write the name of each file to standard error once it is saved")
        .requires_arg("in-place")
}

fn no_clobber<'a>(alloc: Global) -> Result<Arg<'a>, AllocError> {
    let help = "Do nothing where something stands at OUT";
    flag(alloc, "no-clobber", 'n', help).conflicts_with("in-place")
}

fn overwrite<'a>(alloc: Global) -> Result<Arg<'a>, AllocError> {
    let help =
        "With -i: write changed blocks alone, into the file itself, where its data stay in place";
    flag(alloc, "overwrite", 'o', help)
        .requires_arg("in-place")?
        .conflicts_with("safe")?
        .conflicts_with("backup")
}

fn backup<'a>(alloc: Global) -> Arg<'a> {
    Arg::new(alloc, "backup")
        .short('b')
        .long("backup")
        .value_name("SUFFIX")
        .action(ArgAction::Set)
        .help("Keep the file that stands at OUT, with SUFFIX after its name")
}

fn named<'a>(alloc: Global) -> Arg<'a> {
    let help = "Print the name of the file before each line, also of one file";
    flag(alloc, "with-filename", 'H', help)
}

fn json<'a>(alloc: Global) -> Arg<'a> {
    Arg::new(alloc, "json")
        .long("json")
        .action(ArgAction::SetTrue)
        .help("Print each line as a JSON object, which has the name of its file")
}

fn recursive<'a>(alloc: Global) -> Arg<'a> {
    let help = "Of a folder take the files below it that end in .fits, .fit, .fts or .fz";
    flag(alloc, "recursive", 'r', help)
}

fn hdu<'a>(alloc: Global) -> Arg<'a> {
    let help = "Cards of this HDU alone: its number, @NAME or @NAME,VER; may be repeated";
    list(alloc, "hdu", 'u', "HDU", help)
}

fn name<'a>(alloc: Global) -> Arg<'a> {
    let help = "Cards of this keyword alone; may be repeated";
    list(alloc, "name", 'k', "NAME", help).allow_hyphen_values(true)
}

fn one_hdu<'a>(alloc: Global) -> Arg<'a> {
    Arg::new(alloc, "hdu")
        .short('u')
        .long("hdu")
        .value_name("HDU")
        .action(ArgAction::Set)
        .help(
            "The HDU that has the keywords: its number, 1 where none is given, @NAME or @NAME,VER",
        )
}

fn keyword<'a>(alloc: Global) -> Arg<'a> {
    let help = "A keyword, which is a column of the table; may be repeated";
    list(alloc, "name", 'k', "NAME", help)
        .allow_hyphen_values(true)
        .required(true)
}

fn out<'a>(alloc: Global) -> Result<Arg<'a>, AllocError> {
    let help = "The file to write; it may be IN. What stands there is replaced once all is saved";
    path(alloc, "OUT", help).required_unless_present("in-place")
}

fn more<'a>(alloc: Global) -> Result<Arg<'a>, AllocError> {
    path(alloc, "FILE", "More files to edit in place")
        .action(ArgAction::Append)
        .num_args(0..)
        .requires_arg("in-place")
}

fn files<'a>(alloc: Global) -> Result<Arg<'a>, AllocError> {
    path(alloc, "IN", "The files to read")
        .action(ArgAction::Append)
        .num_args(1..)
        .required_unless_present("files0-from")
}

fn names_from<'a>(alloc: Global) -> Arg<'a> {
    Arg::new(alloc, "files0-from")
        .long("files0-from")
        .value_name("FILE")
        .action(ArgAction::Set)
        .help(
            "Read the files too whose names FILE has, a zero byte after each; - for standard input",
        )
}

fn progress<'a>(alloc: Global) -> Arg<'a> {
    Arg::new(alloc, "progress")
        .long("progress")
        .action(ArgAction::SetTrue)
        .help("Write to standard error how far the files are done, once a second at most")
}

fn lacking<'a>(alloc: Global) -> Result<Arg<'a>, AllocError> {
    let help = "Print the names alone of files that have no card of one of the NAMEs";
    flag(alloc, "files-without", 'L', help).requires_arg("name")
}

fn null<'a>(alloc: Global, names: &'static str) -> Result<Arg<'a>, AllocError> {
    let help = "End each name that is printed with a zero byte, for xargs -0";
    flag(alloc, "null", '0', help).requires_arg(names)
}

fn path<'a>(alloc: Global, id: &'a str, help: &'a str) -> Arg<'a> {
    Arg::new(alloc, id).action(ArgAction::Set).help(help)
}

fn flag<'a>(alloc: Global, id: &'a str, letter: char, help: &'a str) -> Arg<'a> {
    Arg::new(alloc, id)
        .short(letter)
        .long(id)
        .action(ArgAction::SetTrue)
        .help(help)
}

fn list<'a>(alloc: Global, id: &'a str, letter: char, value: &'a str, help: &'a str) -> Arg<'a> {
    Arg::new(alloc, id)
        .short(letter)
        .long(id)
        .value_name(value)
        .action(ArgAction::Append)
        .help(help)
}
