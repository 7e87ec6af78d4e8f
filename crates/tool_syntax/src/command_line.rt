//! The words that the program is called with.
mod syntax;

use clap::{ArgMatches, Command, Error};
use std::alloc::{AllocError, Global};
use std::convert::AsStr;
pub use syntax::program;

/// An image file, and how long it is waited for where another program has it open.
#[derive(Clone, Copy)]
pub struct ImageFile<'a> {
    pub path: &'a str,
    /// In seconds.
    pub wait: u32,
}

/// What the program is to do with an image file.
#[derive(Drop)]
pub struct ArgumentWords<'a> {
    pub image: ImageFile<'a>,
    /// Whether nothing is to be told of work that goes well.
    pub quiet: bool,
    /// The names of a task on several files.
    pub names: Vec<&'a str>,
    pub task: Task<'a>,
}

/// The numbers of a volume that is to be made.
#[derive(Clone, Copy)]
pub struct VolumeSizes {
    pub is_tiny: bool,
    pub segments: u32,
    pub per_section: u32,
    pub files: u32,
    pub nodes: u32,
}

/// A part of a file's bytes: so many, behind so many.
#[derive(Clone, Copy)]
pub struct Portion {
    pub offset: u64,
    pub length: u64,
}

impl Portion {
    /// All bytes.
    pub const ALL: Portion = Portion {
        offset: 0,
        length: u64::MAX,
    };
}

/// Which disk is to be served, and how.
#[derive(Clone, Copy)]
pub struct ServeWords<'a> {
    /// The disk's name.
    pub disk: &'a str,
    /// Its bytes, where they are told.
    pub bytes: Option<u64>,
    pub read_only: bool,
    /// How many threads do requests.
    pub workers: u32,
    /// The seconds after which a checkpoint has what was written. 0: only where the client asks for one.
    pub flush_every: u32,
    /// A new file of the system's for what was done.
    pub stats: Option<&'a str>,
}

/// What is to be done. `file` is a file of the system's, in place of a standard stream.
#[derive(Clone, Copy)]
pub enum Task<'a> {
    Format(VolumeSizes),
    Put {
        name: &'a str,
        file: Option<&'a str>,
        replaces: bool,
    },
    Get {
        name: Option<&'a str>,
        number: u32,
        file: Option<&'a str>,
        part: Portion,
    },
    Append {
        name: &'a str,
        file: Option<&'a str>,
    },
    Copy {
        name: &'a str,
        to: &'a str,
        replaces: bool,
    },
    Concatenate,
    Remove,
    Rename {
        name: &'a str,
        to: &'a str,
    },
    List {
        json: bool,
    },
    Clean {
        background: bool,
    },
    Check {
        json: bool,
    },
    Stat {
        json: bool,
    },
    Room {
        json: bool,
    },
    Map {
        svg: Option<&'a str>,
        json: bool,
    },
    Dump {
        folder: &'a str,
    },
    /// Writes the volume into a new image file of format 3.
    Upgrade {
        to: &'a str,
    },
    Import {
        folder: &'a str,
    },
    Serve(ServeWords<'a>),
    /// Writes completions for a shell.
    Complete {
        shell: &'a str,
    },
    /// Writes the manual page.
    Describe,
}

impl<'a> Task<'a> {
    /// What is done once the task is, where it changes the image.
    pub fn done(&self) -> Option<&'static str> {
        match self {
            Task::Format(_) => Some("the volume is made"),
            Task::Put { .. } => Some("the file is put"),
            Task::Append { .. } => Some("the bytes are appended"),
            Task::Copy { .. } => Some("the file is copied"),
            Task::Remove => Some("the files are removed"),
            Task::Rename { .. } => Some("the file is renamed"),
            Task::Clean { .. } => Some("the volume is cleaned"),
            Task::Import { .. } => Some("the files are put"),
            Task::Upgrade { .. } => Some("the new image is made"),
            Task::Serve(_) => Some("the disk was served"),
            _ => None,
        }
    }
}

/// Reads the words; the first is the program's own name. An error is to be printed: it may be the help that was asked for.
pub fn read_words<'a, S: AsStr>(alloc: Global, words: &'a [S]) -> Result<ArgumentWords<'a>, Error> {
    let mut program = program(alloc)?;
    let read = read_by(&mut program, alloc, words)?;
    match read {
        Some(words) => Ok(words),
        None => Err(program.error(
            clap::error::ErrorKind::MissingRequiredArgument,
            "give NAME, or --number N",
        )?),
    }
}

// None where what is asked for lacks a word that the library can't ask for.
fn read_by<'a, S: AsStr>(
    program: &mut Command<'a>,
    alloc: Global,
    words: &'a [S],
) -> Result<Option<ArgumentWords<'a>>, Error> {
    let matches = program.try_get_matches_from_mut(words)?;
    Ok(words_of(alloc, &matches)?)
}

fn words_of<'a>(
    alloc: Global,
    matches: &ArgMatches<'a>,
) -> Result<Option<ArgumentWords<'a>>, AllocError> {
    let Some((command, found)) = matches.subcommand() else {
        return Ok(None);
    };
    let Some(task) = task_of(command, found) else {
        return Ok(None);
    };
    let mut names = Vec::new(alloc);
    if let Some(found) = found.get_strs("names") {
        names.extend_from_slice(found)?;
    }
    Ok(Some(ArgumentWords {
        image: ImageFile {
            path: text_of(found, "image"),
            wait: number_of(found, "wait"),
        },
        quiet: found.get_flag("quiet"),
        names,
        task,
    }))
}

fn task_of<'a>(command: &str, found: &ArgMatches<'a>) -> Option<Task<'a>> {
    let name = text_of(found, "name");
    let json = found.get_flag("json");
    Some(match command {
        "format" => Task::Format(numbers_of(found)),
        "put" => put_of(found, name),
        "get" => get_of(found)?,
        "append" => Task::Append {
            name,
            file: file_of(found),
        },
        "cp" => copy_of(found, name),
        "cat" => Task::Concatenate,
        "rm" => Task::Remove,
        "mv" => rename_of(found, name),
        "ls" => Task::List { json },
        "clean" => Task::Clean {
            background: found.get_flag("background"),
        },
        "stat" => Task::Stat { json },
        "df" => Task::Room { json },
        "map" => Task::Map {
            svg: found.get_str("svg"),
            json,
        },
        "dump" => Task::Dump {
            folder: text_of(found, "folder"),
        },
        "upgrade" => upgrade_of(found),
        "import" => Task::Import {
            folder: text_of(found, "folder"),
        },
        "serve" => Task::Serve(serve_of(found)),
        "completions" => Task::Complete {
            shell: text_of(found, "shell"),
        },
        "manual" => Task::Describe,
        _ => Task::Check { json },
    })
}

fn put_of<'a>(found: &ArgMatches<'a>, name: &'a str) -> Task<'a> {
    Task::Put {
        name,
        file: file_of(found),
        replaces: !found.get_flag("no-clobber"),
    }
}

fn copy_of<'a>(found: &ArgMatches<'a>, name: &'a str) -> Task<'a> {
    Task::Copy {
        name,
        to: text_of(found, "to"),
        replaces: !found.get_flag("no-clobber"),
    }
}

fn rename_of<'a>(found: &ArgMatches<'a>, name: &'a str) -> Task<'a> {
    Task::Rename {
        name,
        to: text_of(found, "to"),
    }
}

fn upgrade_of<'a>(found: &ArgMatches<'a>) -> Task<'a> {
    Task::Upgrade {
        to: text_of(found, "to"),
    }
}

fn serve_of<'a>(found: &ArgMatches<'a>) -> ServeWords<'a> {
    ServeWords {
        disk: text_of(found, "disk"),
        bytes: found.get_one::<u64>("size"),
        read_only: found.get_flag("read-only"),
        workers: number_of(found, "workers"),
        flush_every: number_of(found, "flush-every"),
        stats: found.get_str("stats"),
    }
}

// What `get` is to write. None where there is neither a name nor a number, or both.
fn get_of<'a>(found: &ArgMatches<'a>) -> Option<Task<'a>> {
    let name = found.get_str("name");
    let number = number_of(found, "number");
    if name.is_some() == (number > 0) {
        return None;
    }
    Some(Task::Get {
        name,
        number,
        file: file_of(found),
        part: Portion {
            offset: found.get_one::<u64>("offset").unwrap_or(0),
            length: found.get_one::<u64>("length").unwrap_or(u64::MAX),
        },
    })
}

// The file of the system's that is named; `-` stands for the standard stream, as no name does.
fn file_of<'a>(found: &ArgMatches<'a>) -> Option<&'a str> {
    found.get_str("file").filter(|file| *file != "-")
}

fn text_of<'a>(found: &ArgMatches<'a>, id: &str) -> &'a str {
    found.get_str(id).unwrap_or("")
}

fn number_of(found: &ArgMatches<'_>, id: &str) -> u32 {
    found.get_one::<u32>(id).unwrap_or(0)
}

fn numbers_of(found: &ArgMatches<'_>) -> VolumeSizes {
    VolumeSizes {
        is_tiny: text_of(found, "shape") == "tiny",
        segments: number_of(found, "segments"),
        per_section: number_of(found, "per-section"),
        files: number_of(found, "files"),
        nodes: number_of(found, "nodes"),
    }
}
