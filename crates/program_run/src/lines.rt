//! The lines that the program writes.
ghost use Rattle.std.specs.Prelude.{◌≡◌, IfOk, OnOk};
ghost use Rattle.std.specs.Io.KnownBytes.{Appends};
ghost use Rattle.program_run.specs.Lines.{cleaned_line, created_line, done_line, name_of, numbers_line, read_line, refusal_line, status_line, synced_line, taken_line, total_line, unsynced_line};

use crate::content::Content;
use crate::synced::Synced;
use flash_volume::{Cleaned, Error, Status};
use std::io;
use std::io::Write;

/// Writes the line of a lawful image: its version and its total, and how many segments are free.
pub fn tell_numbers<W: Write>(version: u32, total: u32, free: u32, out: &mut W) -> io::Result<()>
    ensures { OnOk result (Appends (W.contents out.old) (W.contents out.new) (numbers_line version total free)) }
{
    writeln!(out, "version {version} total {total} free {free}")
}

/// Writes how many blocks are valid in an image.
pub fn tell_total<W: Write>(total: u32, out: &mut W) -> io::Result<()>
    ensures { OnOk result (Appends (W.contents out.old) (W.contents out.new) (total_line total)) }
{
    writeln!(out, "total {total}")
}

/// Writes that a volume was left without a checkpoint.
pub fn tell_unsynced<W: Write>(out: &mut W) -> io::Result<()>
    ensures { OnOk result (Appends (W.contents out.old) (W.contents out.new) unsynced_line) }
{
    writeln!(out, "closed without sync")
}

/// Writes that a command was done, or its refusal.
pub fn tell_done<W: Write>(done: Result<(), Error>, out: &mut W) -> io::Result<()>
    ensures { OnOk result (Appends (W.contents out.old) (W.contents out.new) (done_line done)) }
{
    match done {
        Ok(()) => writeln!(out, "ok"),
        Err(error) => tell_refusal(error, out),
    }
}

/// Writes the number of a new file, or why there is none.
pub fn tell_created<W: Write>(created: Result<u32, Error>, out: &mut W) -> io::Result<()>
    ensures { OnOk result (Appends (W.contents out.old) (W.contents out.new) (created_line created)) }
{
    match created {
        Ok(file) => writeln!(out, "file {file}"),
        Err(error) => tell_refusal(error, out),
    }
}

/// Writes how many segments are in each state.
pub fn tell_status<W: Write>(status: Status, out: &mut W) -> io::Result<()>
    ensures { OnOk result (Appends (W.contents out.old) (W.contents out.new) (status_line status)) }
{
    let Status {
        free,
        prefree,
        opened,
        sealed,
    } = status;
    writeln!(
        out,
        "free {free} prefree {prefree} open {opened} sealed {sealed}"
    )
}

/// Writes what a clean did: the section, and how many blocks were moved and how many were gone.
pub fn tell_cleaned<W: Write>(cleaned: Result<Cleaned, Error>, out: &mut W) -> io::Result<()>
    ensures { OnOk result (Appends (W.contents out.old) (W.contents out.new) (cleaned_line cleaned)) }
{
    let cleaned = match cleaned {
        Ok(cleaned) => cleaned,
        Err(error) => return tell_refusal(error, out),
    };
    let (moved, gone) = (cleaned.moved, cleaned.gone);
    match cleaned.section {
        Some(section) => writeln!(out, "clean section {section} moved {moved} gone {gone}"),
        None => writeln!(out, "clean none"),
    }
}

/// Writes the numbers of the image that a checkpoint wrote, or why none was written.
pub fn tell_synced<W: Write>(synced: Result<Synced, Error>, out: &mut W) -> io::Result<()>
    ensures { OnOk result (Appends (W.contents out.old) (W.contents out.new) (synced_line synced)) }
{
    match synced {
        Ok(synced) => tell_numbers(synced.version, synced.total, synced.free, out),
        Err(error) => tell_refusal(error, out),
    }
}

/// Writes the number of a reader, or why none was taken.
pub fn tell_taken<W: Write>(taken: Result<usize, Error>, out: &mut W) -> io::Result<()>
    ensures { OnOk result (Appends (W.contents out.old) (W.contents out.new) (taken_line taken)) }
{
    match taken {
        Ok(reader) => writeln!(out, "reader {reader}"),
        Err(error) => tell_refusal(error, out),
    }
}

/// Writes what stands at an index of a file, or that it is at or past the file's length, or why it could not be read.
pub fn tell_read<W: Write>(
    file: u32,
    index: u32,
    read: Result<Option<Content>, Error>,
    out: &mut W,
) -> io::Result<()>
    ensures { OnOk result (Appends (W.contents out.old) (W.contents out.new) (read_line file index read)) }
{
    let found = match read {
        Ok(found) => found,
        Err(error) => return tell_refusal(error, out),
    };
    write!(out, "read {file} {index}")?;
    match found {
        Some(content) => content.tell(out)?,
        None => write!(out, " end")?,
    }
    writeln!(out)
}

/// Writes the line of a refusal: its number, its name, and the number that it has beside them.
pub fn tell_refusal<W: Write>(error: Error, out: &mut W) -> io::Result<()>
    ensures { OnOk result (Appends (W.contents out.old) (W.contents out.new) (refusal_line error)) }
{
    let number = error.number();
    let name = refusal_name(error);
    match error {
        Error::BadImage(fault) => writeln!(out, "refused {number} {name} {fault}"),
        Error::PassesOut(count) => writeln!(out, "refused {number} {name} {count}"),
        Error::SeatsOut(count) => writeln!(out, "refused {number} {name} {count}"),
        _ => writeln!(out, "refused {number} {name}"),
    }
}

// What a refusal is called.
fn refusal_name(error: Error) -> &'static str
    ensures { result.now ≡ name_of error }
{
    match error {
        Error::NoMemory => "NoMemory",
        Error::Device => "Device",
        Error::NoSpace => "NoSpace",
        Error::NoFile => "NoFile",
        Error::NoNode => "NoNode",
        Error::TooFar => "TooFar",
        Error::BadLength => "BadLength",
        Error::Wounded => "Wounded",
        Error::BadGeometry => "BadGeometry",
        Error::NoPack => "NoPack",
        Error::BadImage(_) => "BadImage",
        Error::PassesOut(_) => "PassesOut",
        Error::SeatsOut(_) => "SeatsOut",
        Error::Exhausted => "Exhausted",
    }
}
