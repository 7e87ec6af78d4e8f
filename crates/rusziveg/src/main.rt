//! Volumes in image files: makes them, puts files in and gets them out by name, cleans, checks and draws them.
#![tactic(auto)]

use std::env;
use std::io::{BufWriter, IsTerminal};
use std::process::ExitCode;
use tool_words::{Fault, FileOpener, Screen, run_words, take_closed_streams, words_of_call};

// The bytes of output that are put together at most.
const BUFFER: usize = 65536;

fn main(rt: HostRuntime) -> ExitCode {
    // No file gets the number of a standard stream that is closed.
    let taken = take_closed_streams(&rt);
    let mut errors = rt.stderr();
    let out = rt.stdout();
    let screen = Screen {
        progress: errors.is_terminal(),
        colours: out.is_terminal() && !refuses_colours(env::var(&rt, "NO_COLOR")),
        quiet: false,
    };
    let begun = match taken {
        Ok(()) => words_of_call(&rt),
        Err(error) => Err(Fault::of_file(rt.alloc(), "/dev/null", error)),
    };
    let words = match begun {
        Ok(words) => words,
        Err(fault) => return ExitCode::from(fault.tell("", &mut errors)),
    };
    let mut out = match BufWriter::with_capacity(rt.alloc(), BUFFER, out) {
        Ok(out) => out,
        Err(error) => return ExitCode::from(Fault::Output(error).tell("", &mut errors)),
    };
    let mut input = rt.reader();
    let status = run_words(
        &rt,
        &FileOpener,
        screen,
        words.as_slice(),
        &mut input,
        &mut out,
        &mut errors,
    );
    ExitCode::from(status)
}

// Whether the environment asks for no colours: where NO_COLOR has any text (no-color.org).
fn refuses_colours(variable: Result<String, env::VarError>) -> bool {
    match variable {
        Ok(text) => !text.is_empty(),
        Err(env::VarError::NotPresent) => false,
        Err(_) => true,
    }
}
