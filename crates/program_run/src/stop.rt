//! Why a run ends before all was done.
ghost use Rattle.std.specs.Prelude.{◌≡◌, ◌⊎◌, true, false};
ghost use Rattle.program_run.specs.declared.stop.Stop.TheVariants.{NoMemory, Refused};
ghost use Rattle.program_run.specs.Run.{names_line};

use crate::lines::tell_refusal;
use crate::status::{BAD_LINE, FAILED, REFUSED};
use flash_volume::Error;
use program_script::ScriptError;
use std::alloc::AllocError;
use std::io;
use std::io::Write;

/// Why a run ends before all was done.
#[derive(Clone, Copy)]
pub enum Stop {
    /// The volume was refused.
    Refused(Error),
    /// The line of this number, counted from 1, is not of the grammar.
    BadLine(u64),
    /// The program found no memory, outside of a call of the volume.
    NoMemory,
    /// A stream could not be read or written.
    Failed,
}

impl Stop {
    /// Writes a refusal to `out`, and what else it is to `errors`. Answers the exit status.
    pub fn tell<W: Write, E: Write>(self, out: &mut W, errors: &mut E) -> u8
        ensures status { (result ≡ 1) ⊎ ((result ≡ 3) ⊎ (result ≡ 4)) }
        ensures line { result ≡ 3 → (names_line self ≡ true) × (out.new ≡ out.old) }
        ensures quiet { result ≡ 1 → errors.new ≡ errors.old }
    {
        match self {
            Stop::Refused(error) => match tell_refusal(error, out) {
                Ok(()) => REFUSED,
                Err(_) => tell_failure(errors),
            },
            Stop::BadLine(line) => {
                // What cannot be said there is left unsaid.
                let _ = writeln!(errors, "line {line}: bad command");
                BAD_LINE
            }
            Stop::NoMemory => tell_no_memory(errors),
            Stop::Failed => tell_failure(errors),
        }
    }
}

/// Writes that input or output failed. Answers the exit status.
pub fn tell_failure<E: Write>(errors: &mut E) -> u8
    ensures { result ≡ 4 }
{
    // What cannot be said there either is left unsaid.
    let _ = writeln!(errors, "input or output failed");
    FAILED
}

/// Writes that no memory was found. Answers the exit status.
pub fn tell_no_memory<E: Write>(errors: &mut E) -> u8
    ensures { result ≡ 4 }
{
    // What cannot be said there either is left unsaid.
    let _ = writeln!(errors, "out of memory");
    FAILED
}

/// Writes why a stream failed: that no memory was found, or that input or output failed. Answers the exit status.
pub fn tell_io_failure<E: Write>(error: &io::Error, errors: &mut E) -> u8
    ensures { result ≡ 4 }
{
    match error.kind() {
        io::ErrorKind::OutOfMemory => tell_no_memory(errors),
        _ => tell_failure(errors),
    }
}

impl From<io::Error> for Stop {
    ghost from_gives = { λ _ stop. names_line stop ≡ false };

    fn from(error: io::Error) -> Stop {
        match error.kind() {
            io::ErrorKind::OutOfMemory => Stop::NoMemory,
            _ => Stop::Failed,
        }
    }
}

impl From<AllocError> for Stop {
    ghost from_gives = { λ _ stop. stop ≡ NoMemory };

    fn from(_error: AllocError) -> Stop {
        Stop::NoMemory
    }
}

impl From<Error> for Stop {
    ghost from_gives = { λ error stop. stop ≡ Refused error };

    fn from(error: Error) -> Stop {
        Stop::Refused(error)
    }
}

impl From<ScriptError> for Stop {
    fn from(error: ScriptError) -> Stop {
        match error {
            ScriptError::BadCommand { line } => Stop::BadLine(line),
            ScriptError::NoMemory => Stop::NoMemory,
        }
    }
}
