//! The words are read and obeyed.
use crate::commands::obey;
use crate::fault::Fault;
use crate::machine::Machine;
use crate::opener::Opener;
use crate::screen::Screen;
use flash_volume::Error;
use std::io::{Read, Write};
use std::rt::Runtime;
use std::{env, io};
use tool_syntax::{ArgumentWords, read_words};

// The exit status where the words are refused.
const MISUSED: u8 = 2;

/// Does what the words ask for, the first of which is the program's own name, and answers the exit status: 0 done; 1 a volume, an
/// image or a name was refused; 2 the words were; 4 a file, a stream or memory failed. `put` reads `input` to its end; what is asked
/// for goes to `out`, and what is wrong, with what can be done, to `errors`. `serve` answers on `out` what a client asks on `input`.
pub fn run_words<P: Opener, R: Machine, I: Read + Send, O: Write + Send, E: Write>(
    rt: &R,
    opener: &P,
    screen: Screen,
    words: &[String],
    input: &mut I,
    out: &mut O,
    errors: &mut E,
) -> u8 {
    let words = match read_words(rt.alloc(), words) {
        Ok(words) => words,
        Err(error) if error.exit_code() == 0 => return tell_help(&error, out, errors),
        Err(error) => {
            let _ = write!(errors, "{error}");
            return MISUSED;
        }
    };
    let screen = screen.quieted(words.quiet);
    let done = obey(rt, opener, screen, &words, input, out, errors);
    status_of(&words, done, out, errors)
}

// Writes what is left of the output, tells what failed, and answers the exit status.
fn status_of<O: Write, E: Write>(
    words: &ArgumentWords<'_>,
    done: Result<u8, Fault>,
    out: &mut O,
    errors: &mut E,
) -> u8 {
    // What was written goes out before it is told what failed.
    let flushed = out.flush();
    let status = match done {
        Ok(status) => status,
        Err(fault) => return told(words, fault, errors),
    };
    match flushed {
        Ok(()) => status,
        Err(error) if error.kind() == io::ErrorKind::BrokenPipe => status,
        Err(error) => told(words, Fault::Output(error), errors),
    }
}

// Tells a fault, and what was done before where standard output failed.
fn told<E: Write>(words: &ArgumentWords<'_>, fault: Fault, errors: &mut E) -> u8 {
    fault
        .after(words.task.done())
        .tell(words.image.path, errors)
}

// Writes the help that was asked for.
fn tell_help<O: Write, E: Write>(help: &clap::Error, out: &mut O, errors: &mut E) -> u8 {
    match write!(out, "{help}").and_then(|()| out.flush()) {
        Ok(()) => 0,
        Err(error) => Fault::Output(error).tell("", errors),
    }
}

/// The words that the program was called with, its own name first. Answers NoWords where one is no text.
pub fn words_of_call<R: Runtime + AllocGlobal>(rt: &R) -> Result<Vec<String>, Fault> {
    let mut words = Vec::new(rt.alloc());
    match env::args(rt) {
        Ok(all) => {
            for word in all {
                words.push(word)?;
            }
        }
        Err(error) if error.kind() == io::ErrorKind::InvalidData => return Err(Fault::NoWords),
        Err(error) if error.kind() == io::ErrorKind::OutOfMemory => {
            return Err(Fault::Volume(Error::NoMemory));
        }
        Err(error) => return Err(Fault::Input(error)),
    }
    Ok(words)
}
