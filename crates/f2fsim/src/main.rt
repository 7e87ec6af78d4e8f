//! The program: it runs a script, checks an image file, or tells the files of one.
#![tactic(auto)]

mod help;
mod saving;

use flash_volume::{HoleReuse, Packing};
use help::{HELP, asks_for_help};
use program_run::status::{DONE, FAILED, MISUSED};
use program_run::{OpenGate, Rules, check_image, run_script, tell_files, tell_io_failure};
use program_script::words::USAGE;
use program_script::{CommandLine, WordsError};
use saving::save;
use std::fs::File;
use std::io::{LineWriter, Write};
use std::process::ExitCode;
use std::rt::Runtime;
use std::sync::Wait;
use std::thread::Threads;
use std::{env, io};

// The bytes of output that are put together at most: a line goes out once it is whole, so that who reads along sees it.
const BUFFER: usize = 8192;

fn main(rt: HostRuntime) -> ExitCode {
    let mut errors = rt.stderr();
    let status = match LineWriter::with_capacity(rt.alloc(), BUFFER, rt.stdout()) {
        Ok(mut out) => flushed(&rt, &mut out, &mut errors),
        Err(error) => tell_io_failure(&error, &mut errors),
    };
    ExitCode::from(status)
}

// Does what the words ask for, and writes what is left of the output.
fn flushed<R: Runtime + AllocGlobal + Threads + Wait + Sync, W: Write, E: Write>(
    rt: &R,
    out: &mut W,
    errors: &mut E,
) -> u8 {
    let status = match called(rt, out, errors) {
        Ok(status) => status,
        Err(error) => return tell_io_failure(&error, errors),
    };
    match out.flush() {
        Err(error) if status != FAILED => tell_io_failure(&error, errors),
        _ => status,
    }
}

// Does what the words ask for, and answers the exit status.
fn called<R: Runtime + AllocGlobal + Threads + Wait + Sync, W: Write, E: Write>(
    rt: &R,
    out: &mut W,
    errors: &mut E,
) -> io::Result<u8> {
    let mut words = Vec::new(rt.alloc());
    match env::args(rt) {
        Ok(all) => {
            for word in all {
                words.push(word)?;
            }
        }
        // A word that is no text is none that the program knows, and no path that it can take.
        Err(error) if error.kind() == io::ErrorKind::InvalidData => return misused(errors),
        Err(error) => return Err(error),
    }
    match CommandLine::parse(rt.alloc(), words.as_slice()) {
        Ok(CommandLine::Check { image }) => {
            let mut file = File::open(rt, image)?;
            Ok(check_image(rt.alloc(), &mut file, out, errors))
        }
        Ok(CommandLine::Files { image }) => {
            let mut file = File::open(rt, image)?;
            Ok(tell_files(rt, rt.alloc(), &mut file, out, errors))
        }
        Ok(CommandLine::Run { save, hole_reuse }) => match rule_named(hole_reuse) {
            Some(rule) => run_saving(rt, out, errors, save, rule),
            None => misused(errors),
        },
        Err(WordsError::Usage) if asks_for_help(words.as_slice()) => tell_help(out),
        Err(WordsError::Usage) => misused(errors),
        Err(WordsError::NoMemory) => Err(io::Error::from(io::ErrorKind::OutOfMemory)),
    }
}

// The rule of a name. Where none is named, volumes thread whenever they can.
fn rule_named(name: Option<&str>) -> Option<HoleReuse> {
    match name {
        None | Some("whenever") => Some(HoleReuse::Always),
        Some("while-reserve-is-full") => Some(HoleReuse::WhileReserveIsFull),
        Some(_) => None,
    }
}

fn misused<E: Write>(errors: &mut E) -> io::Result<u8> {
    writeln!(errors, "{USAGE}")?;
    Ok(MISUSED)
}

// Tells the usage in a line, and all words: on the output, since they were asked for.
fn tell_help<W: Write>(out: &mut W) -> io::Result<u8> {
    writeln!(out, "{USAGE}")?;
    writeln!(out, "{HELP}")?;
    Ok(DONE)
}

// Runs the script on standard input, on volumes that thread by a rule. The bytes of the device, if some were put aside, become those of the file at `path`.
fn run_saving<R: Runtime + AllocGlobal + Threads + Wait + Sync, W: Write, E: Write>(
    rt: &R,
    out: &mut W,
    errors: &mut E,
    path: Option<&str>,
    hole_reuse: HoleReuse,
) -> io::Result<u8> {
    let mut bytes = Vec::new(rt.alloc());
    let saved = match path {
        Some(_) => Some(&mut bytes),
        None => None,
    };
    let status = run_script(
        rt,
        rt.alloc(),
        &mut rt.reader(),
        out,
        errors,
        saved,
        Rules {
            packing: Packing::Slots,
            hole_reuse,
        },
        &OpenGate,
    );
    match path {
        Some(path) if !bytes.is_empty() => {
            save(rt, rt.alloc(), path, bytes.as_slice())?;
            Ok(status)
        }
        _ => Ok(status),
    }
}
