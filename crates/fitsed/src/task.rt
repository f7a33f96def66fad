//! What the words of the command line ask for.
use crate::piece::{Piece, pieces_of};
use crate::words::oddity_of;
use clap::ArgMatches;
use fits_card::Name;
use fits_cli::{CardChoice, Level, Manner, NamePattern, Telling};
use fits_keys::KeyChoice;
use fits_save::Saving;
use fits_tell::{AskedExtension, AskedHdu};
use std::alloc::{AllocError, Global};

/// The options that have values.
const VALUES: &[&str] = &["line", "file", "hdu", "name", "backup", "files0-from"];

/// What the command line asks for.
#[derive(Drop)]
pub enum Task<'m, 'a> {
    /// A script edits the file at `from`; the result goes to `to`.
    Edit {
        script: Vec<Piece<'a>>,
        from: &'a str,
        to: &'a str,
        named: bool,
        terms: SavingTerms<'a>,
    },
    /// A script edits each file where it stands.
    EditInPlace {
        script: Vec<Piece<'a>>,
        paths: Vec<&'a str>,
        named: bool,
        recursive: bool,
        /// Whether the name of each is told once it is saved.
        done: bool,
        terms: SavingTerms<'a>,
    },
    /// A script is done on each file, and nothing is saved.
    Ask {
        script: Vec<Piece<'a>>,
        manner: Manner,
        files: Inputs<'m, 'a>,
    },
    /// Cards of each file are printed.
    Show {
        choice: CardChoice,
        files: Inputs<'m, 'a>,
    },
    /// Values of keywords of each file are printed.
    Table {
        choice: KeyChoice,
        files: Inputs<'m, 'a>,
    },
    /// What differs in two files is printed.
    Compare {
        first: &'a str,
        second: &'a str,
        /// Whether it is the script that makes the headers of the first those of the second.
        script: bool,
    },
    /// A text of each file is printed.
    Tell {
        telling: Telling,
        files: Inputs<'m, 'a>,
    },
    /// The names of files are printed of which a report has something.
    Name {
        telling: Telling,
        files: Inputs<'m, 'a>,
        end: char,
    },
    /// The names of files are printed that have no card of one of these choices.
    Lack {
        choices: Vec<CardChoice>,
        files: Inputs<'m, 'a>,
        end: char,
    },
}

/// When the result of a script is saved, and how.
#[derive(Clone, Copy)]
pub struct SavingTerms<'a> {
    /// Only where every line was done.
    pub whole: bool,
    /// Only where there are no more errors of any code.
    pub checked: bool,
    /// And no more warnings.
    pub strict: bool,
    /// So that sums that were right are right.
    pub sums: bool,
    /// With extended lines.
    pub extended: bool,
    /// So that the columns of tables stay.
    pub tables: bool,
    /// Only where nothing stands.
    pub fresh: bool,
    /// By its changed blocks alone, where they can be written into the file itself.
    pub overwrite: bool,
    /// Only where the file that stands there stays whole, or is kept.
    pub saving: Saving<'a>,
}

impl SavingTerms<'_> {
    /// Whether it is asked before the run how the result can be saved.
    pub fn asks_first(&self) -> bool {
        self.saving.safe || self.saving.backup.is_some()
    }
}

/// The files that a command reads.
#[derive(Clone, Copy)]
pub struct Inputs<'m, 'a> {
    /// Those that are typed, if some are.
    pub paths: Option<&'m [&'a str]>,
    /// Whether each line of its output begins with the file's name.
    pub named: bool,
    /// Whether a folder stands for the files below it.
    pub recursive: bool,
    /// The file that has the names of more, if one is given.
    pub from: Option<&'a str>,
    /// Whether each line of its output is a JSON object.
    pub json: bool,
}

/// Why words ask for nothing.
#[derive(Clone, Copy)]
pub enum TaskFault<'a> {
    /// A keyword name has more than 8 characters.
    LongName(&'a str),
    /// A word is no name of one keyword.
    NotName(&'a str),
    /// An HDU's number is none.
    NotHdu(&'a str),
    /// An argument isn't UTF-8, and is no path among several.
    NotText,
    /// No command is there, or an argument that it wants; clap tells of that before.
    Missing,
    /// Memory was refused.
    Memory,
}

impl From<AllocError> for TaskFault<'_> {
    fn from(_: AllocError) -> Self {
        TaskFault::Memory
    }
}

/// The task of words that were read.
pub fn task_of<'m, 'a>(
    alloc: Global,
    matches: &'m ArgMatches<'a>,
) -> Result<Task<'m, 'a>, TaskFault<'a>> {
    let Some((name, words)) = matches.subcommand() else {
        return Err(TaskFault::Missing);
    };
    if has_odd_value(words) {
        return Err(TaskFault::NotText);
    }
    if name == "edit" {
        return edit_of(alloc, words);
    }
    if name == "diff" {
        return compared_of(words);
    }
    let files = files_of(words)?;
    Ok(match name {
        "ask" => Task::Ask {
            script: pieces_of(alloc, words)?,
            manner: Manner {
                extended: words.get_flag("extended"),
                tables: words.get_flag("tables"),
            },
            files,
        },
        "cards" if words.get_flag("files-without") => Task::Lack {
            choices: each_of(alloc, words)?,
            files,
            end: name_end(words),
        },
        "cards" => Task::Show {
            choice: choice_of(alloc, words)?,
            files,
        },
        "keys" => Task::Table {
            choice: keys_of(alloc, words)?,
            files: Inputs {
                named: true,
                ..files
            },
        },
        "verify" if words.get_flag("files-with-errors") => Task::Name {
            telling: report_of(words, Level::Quiet, false),
            files,
            end: name_end(words),
        },
        _ => Task::Tell {
            telling: telling_of(name, words)?,
            files,
        },
    })
}

// Whether an option has a value that isn't UTF-8.
fn has_odd_value(words: &ArgMatches<'_>) -> bool {
    VALUES.iter().any(|id| {
        let values = words.get_strs(id).unwrap_or(&[]);
        values.iter().any(|value| oddity_of(value).is_some())
    })
}

// The words of `edit`: with `-i` all paths are files to edit.
fn edit_of<'m, 'a>(
    alloc: Global,
    words: &'m ArgMatches<'a>,
) -> Result<Task<'m, 'a>, TaskFault<'a>> {
    let Some(from) = words.get_str("IN") else {
        return Err(TaskFault::Missing);
    };
    let script = pieces_of(alloc, words)?;
    let terms = terms_of(words);
    let named = words.get_flag("with-filename");
    if words.get_flag("in-place") {
        let paths = paths_of(alloc, words, from)?;
        let recursive = words.get_flag("recursive");
        return Ok(Task::EditInPlace {
            script,
            named: are_named(&paths, named || recursive)?,
            paths,
            recursive,
            done: words.get_flag("done"),
            terms,
        });
    }
    let Some(to) = words.get_str("OUT") else {
        return Err(TaskFault::Missing);
    };
    if oddity_of(from).is_some() || oddity_of(to).is_some() {
        return Err(TaskFault::NotText);
    }
    Ok(Task::Edit {
        script,
        from,
        to,
        named,
        terms,
    })
}

// The words of `diff`: two files.
fn compared_of<'m, 'a>(words: &'m ArgMatches<'a>) -> Result<Task<'m, 'a>, TaskFault<'a>> {
    let (Some(first), Some(second)) = (words.get_str("A"), words.get_str("B")) else {
        return Err(TaskFault::Missing);
    };
    if oddity_of(first).is_some() || oddity_of(second).is_some() {
        return Err(TaskFault::NotText);
    }
    Ok(Task::Compare {
        first,
        second,
        script: words.get_flag("script"),
    })
}

// When the words of `edit` want the result saved.
fn terms_of<'a>(words: &ArgMatches<'a>) -> SavingTerms<'a> {
    SavingTerms {
        whole: words.get_flag("all"),
        checked: words.get_flag("check"),
        strict: words.get_flag("warnings"),
        sums: words.get_flag("sums"),
        extended: words.get_flag("extended"),
        tables: words.get_flag("tables"),
        fresh: words.get_flag("no-clobber"),
        overwrite: words.get_flag("overwrite"),
        saving: Saving {
            safe: words.get_flag("safe"),
            backup: words.get_str("backup"),
        },
    }
}

// All paths of `edit -i`.
fn paths_of<'a>(
    alloc: Global,
    words: &ArgMatches<'a>,
    from: &'a str,
) -> Result<Vec<&'a str>, AllocError> {
    let mut paths = Vec::new(alloc);
    paths.push(from)?;
    if let Some(next) = words.get_str("OUT") {
        paths.push(next)?;
    }
    for path in words.get_strs("FILE").unwrap_or(&[]) {
        paths.push(*path)?;
    }
    Ok(paths)
}

fn files_of<'m, 'a>(words: &'m ArgMatches<'a>) -> Result<Inputs<'m, 'a>, TaskFault<'a>> {
    let paths = words.get_strs("IN");
    let recursive = words.get_flag("recursive");
    let from = words.get_str("files0-from");
    let named = words.get_flag("with-filename") || recursive || from.is_some();
    Ok(Inputs {
        paths,
        named: are_named(paths.unwrap_or(&[]), named)?,
        recursive,
        from,
        json: words.get_flag("json"),
    })
}

// Whether files are told apart by their names: with several, and where that is asked for. One alone
// is to be UTF-8.
fn are_named<'a>(paths: &[&str], asked: bool) -> Result<bool, TaskFault<'a>> {
    match paths {
        [path] if oddity_of(path).is_some() => Err(TaskFault::NotText),
        [_] => Ok(asked),
        _ => Ok(true),
    }
}

// Which text of a file a command prints.
fn telling_of<'a>(name: &str, words: &ArgMatches<'a>) -> Result<Telling, TaskFault<'a>> {
    match name {
        "list" if words.get_flag("long") => Ok(Telling::LongList),
        "list" => Ok(Telling::List),
        "sum" if words.get_flag("check") => Ok(Telling::WrongSums),
        "sum" => Ok(Telling::Sums),
        "stat" => Ok(Telling::Statistics),
        "verify" if words.get_flag("summary") => Ok(Telling::Summary {
            level: level_of(words),
            strict: words.get_flag("warnings"),
            tables: words.get_flag("tables"),
        }),
        "verify" => {
            let cards = words.get_flag("print-cards");
            Ok(report_of(words, level_of(words), cards))
        }
        _ => Err(TaskFault::Missing),
    }
}

// The report of `verify`, as a level has it.
fn report_of(words: &ArgMatches<'_>, level: Level, cards: bool) -> Telling {
    Telling::Report {
        level,
        strict: words.get_flag("warnings"),
        cards,
        tables: words.get_flag("tables"),
    }
}

// The level of the words of `verify`. With both flags nothing is listed.
fn level_of(words: &ArgMatches<'_>) -> Level {
    if words.get_flag("quiet") {
        Level::Quiet
    } else if words.get_flag("errors") {
        Level::Errors
    } else {
        Level::All
    }
}

// Which cards the words of `cards` ask for.
fn choice_of<'a>(alloc: Global, words: &ArgMatches<'a>) -> Result<CardChoice, TaskFault<'a>> {
    let hdus = hdus_of(alloc, words)?;
    let mut names = Vec::new(alloc);
    for word in words.get_strs("name").unwrap_or(&[]) {
        let Some(pattern) = NamePattern::of(word.as_bytes()) else {
            return Err(TaskFault::LongName(*word));
        };
        let Ok(()) = names.push(pattern) else {
            return Err(TaskFault::Memory);
        };
    }
    Ok(CardChoice { hdus, names })
}

// Which HDUs they ask for.
fn hdus_of<'a>(alloc: Global, words: &ArgMatches<'a>) -> Result<Vec<AskedHdu>, TaskFault<'a>> {
    let mut hdus = Vec::new(alloc);
    for word in words.get_strs("hdu").unwrap_or(&[]) {
        let Ok(()) = hdus.push(hdu_of(alloc, word)?) else {
            return Err(TaskFault::Memory);
        };
    }
    Ok(hdus)
}

// The HDU that a word asks for: by its number, or by `@NAME` or `@NAME,VER`.
fn hdu_of<'a>(alloc: Global, word: &'a str) -> Result<AskedHdu, TaskFault<'a>> {
    match word.strip_prefix('@') {
        Some(name) if !name.is_empty() => {
            let asked = AskedExtension::of(alloc, name.as_bytes())?;
            Ok(AskedHdu::Called(asked))
        }
        _ => match word.parse::<u64>() {
            Ok(number) => Ok(AskedHdu::Number(number)),
            Err(_) => Err(TaskFault::NotHdu(word)),
        },
    }
}

// What ends each name that is printed.
fn name_end(words: &ArgMatches<'_>) -> char {
    if words.get_flag("null") { '\0' } else { '\n' }
}

// A choice of each name alone.
fn each_of<'a>(alloc: Global, words: &ArgMatches<'a>) -> Result<Vec<CardChoice>, TaskFault<'a>> {
    let all = choice_of(alloc, words)?;
    let mut choices = Vec::new(alloc);
    for name in &all.names {
        let mut names = Vec::new(alloc);
        let Ok(()) = names.push(*name) else {
            return Err(TaskFault::Memory);
        };
        let hdus = hdus_of(alloc, words)?;
        let Ok(()) = choices.push(CardChoice { hdus, names }) else {
            return Err(TaskFault::Memory);
        };
    }
    Ok(choices)
}

// Which keywords the words of `keys` ask for.
fn keys_of<'a>(alloc: Global, words: &ArgMatches<'a>) -> Result<KeyChoice, TaskFault<'a>> {
    let hdu = match words.get_str("hdu") {
        Some(word) => hdu_of(alloc, word)?,
        None => AskedHdu::Number(1),
    };
    let mut names = Vec::new(alloc);
    for word in words.get_strs("name").unwrap_or(&[]) {
        let Some(name) = name_of(word) else {
            return Err(TaskFault::NotName(*word));
        };
        let Ok(()) = names.push(name) else {
            return Err(TaskFault::Memory);
        };
    }
    Ok(KeyChoice { hdu, names })
}

// The keyword that a word is; none where it is the front of several.
fn name_of(word: &str) -> Option<Name> {
    if word.ends_with('*') {
        return None;
    }
    let pattern = NamePattern::of(word.as_bytes())?;
    Some(pattern.name)
}
