//! The words that the program is called with.
ghost use Rattle.std.specs.Prelude.{◌≡◌, [], map, IfOk, IfSome, OnOk};
ghost use Rattle.clap.specs.Words.{app_of, fault_of, subcommand_of, with_subcommand};
ghost use Rattle.program_script.specs.Call.{AsksFor, bare, of_image, program, run};

use clap::error::ErrorKind;
use clap::{Arg, Command, Error};
use std::alloc::{AllocError, Global};
use std::convert::AsStr;
use thiserror::Error as ThisError;

/// What is printed of words that are refused, or ask for help.
pub const USAGE: &str = "usage: f2fsim run [--save PATH] | check IMAGE";

/// What the program is to do.
#[derive(Clone, Copy)]
pub enum CommandLine<'a> {
    /// Runs a script on a volume that threads by a rule of this name, and saves the bytes of the device at a path.
    Run {
        save: Option<&'a str>,
        hole_reuse: Option<&'a str>,
    },
    /// Checks an image file.
    Check {
        image: &'a str,
    },
    /// Tells the files of an image file.
    Files {
        image: &'a str,
    },
}

/// Why the words of a call are refused.
#[derive(Clone, Copy, Debug, PartialEq, Eq, ThisError)]
pub enum WordsError {
    /// They are not those of a call, or ask for help.
    #[error("usage: f2fsim run [--save PATH] | check IMAGE")]
    Usage,
    /// A growth was refused.
    #[error("out of memory")]
    NoMemory,
}

impl<'a> CommandLine<'a> {
    /// What these words ask for. The first is the program's own name. Paths are taken as they stand.
    pub fn parse<S: AsStr>(alloc: Global, words: &'a [S]) -> Result<CommandLine<'a>, WordsError>
        ensures asked { IfOk result (λ asked. AsksFor asked (subcommand_of program (map S.text words.entry.now))) }
        ensures faultless { OnOk result (fault_of program (map S.text words.entry.now) ≡ []) }
    {
        match parsed(alloc, words) {
            Ok(found) => found.ok_or(WordsError::Usage),
            Err(error) => Err(match error.kind() {
                ErrorKind::OutOfMemory => WordsError::NoMemory,
                _ => WordsError::Usage,
            }),
        }
    }
}

fn parsed<'a, S: AsStr>(alloc: Global, words: &'a [S]) -> Result<Option<CommandLine<'a>>, Error>
    ensures asked { IfOk result (λ found. IfSome found (λ asked.
        AsksFor asked (subcommand_of program (map S.text words.entry.now)))) }
    ensures faultless { OnOk result (fault_of program (map S.text words.entry.now) ≡ []) }
{
    let matches = program(alloc)?.try_get_matches_from(words)?;
    if let Some(run) = matches.subcommand_matches("run") {
        return Ok(Some(CommandLine::Run {
            save: run.get_str("save"),
            hole_reuse: run.get_str("threading"),
        }));
    }
    if let Some(check) = matches.subcommand_matches("check")
        && let Some(image) = check.get_str("image")
    {
        return Ok(Some(CommandLine::Check { image }));
    }
    if let Some(files) = matches.subcommand_matches("files")
        && let Some(image) = files.get_str("image")
    {
        return Ok(Some(CommandLine::Files { image }));
    }
    Ok(None)
}

fn program<'a>(alloc: Global) -> Result<Command<'a>, AllocError>
    ensures { IfOk result (λ command. app_of command ≡ program) }
{
    let command = with_run(alloc)?;
    let command = with_image_command(alloc, command, "check")?;
    with_image_command(alloc, command, "files")
}

fn with_run<'a>(alloc: Global) -> Result<Command<'a>, AllocError>
    ensures { IfOk result (λ command. app_of command ≡ with_subcommand bare run.top) }
{
    let run = Command::new(alloc, "run");
    let run = run.arg(Arg::new(alloc, "save").long("save"))?;
    let run = run.arg(Arg::new(alloc, "threading").long("threading"))?;
    Command::new(alloc, "f2fsim")
        .subcommand_required(true)
        .subcommand(run)
}

// Adds a subcommand that works on an image file.
fn with_image_command<'a>(
    alloc: Global,
    command: Command<'a>,
    name: &'a str,
) -> Result<Command<'a>, AllocError>
    ensures { IfOk result (λ added. app_of added ≡ with_subcommand (app_of command.entry) (of_image name.now).top) }
{
    let image = Arg::new(alloc, "image").required(true);
    command.subcommand(Command::new(alloc, name).arg(image)?)
}
