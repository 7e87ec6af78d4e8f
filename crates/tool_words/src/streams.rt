//! The standard streams, kept apart from the files that are opened.
use std::fs::{File, Files, OpenOptions};
use std::io;
use std::os::fd::{AsRawFd, IntoRawFd};

// The numbers of standard input and of standard error; that of standard output lies between.
const INPUT: i32 = 0;

const ERRORS: i32 = 2;

// A file that is there, and has nothing.
const NOTHING: &str = "/dev/null";

/// Takes the numbers of the standard streams that are closed, for the whole run; to be called before any file is opened. The next file
/// would get such a number, and what is told would be written into it.
///
/// A stream that was closed can't be read or written afterwards either: what takes its number is open the other way round.
pub fn take_closed_streams<R: Files<File = File>>(rt: &R) -> io::Result<()> {
    keep_up_to(OpenOptions::new().write(true).open(rt, NOTHING)?, INPUT);
    keep_up_to(File::open(rt, NOTHING)?, ERRORS);
    keep_up_to(File::open(rt, NOTHING)?, ERRORS);
    Ok(())
}

// Keeps a file open for the whole run where its number is not past the last.
fn keep_up_to(file: File, last: i32) {
    if file.as_raw_fd() <= last {
        let _number = file.into_raw_fd();
    }
}
