//! The program's commands, with their help.
mod argument;
mod rows;

use crate::command_line::syntax::argument::Argument;
use crate::command_line::syntax::rows::{ARGUMENTS, COMMANDS, QUIET, WAIT};
use clap::Command;
use std::alloc::{AllocError, Global};

// What `--version` tells.
const VERSION: &str = "0.1.0";

// A command, or why there is none for want of memory.
type Made<'a> = Result<Command<'a>, AllocError>;

/// The program.
pub fn program<'a>(alloc: Global) -> Result<Command<'a>, AllocError> {
    let mut program = program_alone(alloc);
    for (name, about) in COMMANDS.as_slice() {
        program = with_command(program, command(alloc, *name, *about));
    }
    program
}

// The program without its commands.
fn program_alone<'a>(alloc: Global) -> Made<'a> {
    let program = Command::new(alloc, "rusziveg")
        .version(VERSION)
        .about(
            "Keeps named files, or a disk for NBD clients, in a flash volume, which is stored in an image file.",
        )
        .after_help(
            "Exit status: 0: success; 1: a volume, image, name or number was rejected; 2: the command line was wrong; 4: a file, stream or memory failed.",
        )
        .subcommand_required(true);
    let program = program.arg(QUIET.made(alloc).short('q').global(true));
    program?.arg(WAIT.made(alloc).global(true))
}

fn with_command<'a>(program: Made<'a>, command: Made<'a>) -> Made<'a> {
    program?.subcommand(command?)
}

// A command, with what the rows have of it.
fn command<'a>(alloc: Global, name: &'static str, about: &'static str) -> Made<'a> {
    let mut command = Ok(Command::new(alloc, name).about(about));
    for (of, argument) in ARGUMENTS.as_slice() {
        if *of == name {
            command = with_argument(alloc, command, argument);
        }
    }
    command
}

fn with_argument<'a>(alloc: Global, command: Made<'a>, argument: &Argument) -> Made<'a> {
    let made = argument.made(alloc);
    // A picture is no JSON.
    let made = if argument.id == "svg" {
        made.conflicts_with("json")
    } else {
        Ok(made)
    };
    command?.arg(made?)
}
