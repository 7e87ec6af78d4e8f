//! The lines of a worker.
ghost use Rattle.std.specs.Prelude.{◌≡◌, OnOk};
ghost use Rattle.std.specs.Io.KnownBytes.{Appends};
ghost use Rattle.program_run.specs.WorkerLines.{done_text, end_line, read_text, refused_line};

use crate::{Content, lines};
use flash_volume::Error;
use std::io;
use std::io::Write;

/// Writes a refusal of a worker's work, and nothing for work that was done.
pub(crate) fn tell_done<T: Drop, W: Write>(
    worker: usize,
    done: Result<T, Error>,
    out: &mut W,
) -> io::Result<()>
    ensures { OnOk result (Appends (W.contents out.old) (W.contents out.new) (done_text worker done)) }
{
    match done {
        Ok(_) => Ok(()),
        Err(error) => tell_refusal(worker, error, out),
    }
}

/// Writes what a worker read at an index of a file, or why it could not.
pub(crate) fn tell_read<W: Write>(
    worker: usize,
    file: u32,
    index: u32,
    read: Result<Option<Content>, Error>,
    out: &mut W,
) -> io::Result<()>
    ensures { OnOk result (Appends (W.contents out.old) (W.contents out.new) (read_text worker file index read)) }
{
    match read {
        Ok(found) => lines::tell_read(file, index, Ok(found), out),
        Err(error) => tell_refusal(worker, error, out),
    }
}

/// Writes a refusal of a worker's work.
pub(crate) fn tell_refusal<W: Write>(worker: usize, error: Error, out: &mut W) -> io::Result<()>
    ensures { OnOk result (Appends (W.contents out.old) (W.contents out.new) (refused_line worker error)) }
{
    write!(out, "worker {worker}: ")?;
    lines::tell_refusal(error, out)
}

/// Writes that a worker has done all of its tasks.
pub(crate) fn tell_end<W: Write>(worker: usize, out: &mut W) -> io::Result<()>
    ensures { OnOk result (Appends (W.contents out.old) (W.contents out.new) (end_line worker)) }
{
    writeln!(out, "worker {worker} ok")
}
