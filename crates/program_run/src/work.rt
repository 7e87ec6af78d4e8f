//! Work on the files of a volume, and the line that it writes.
ghost use Rattle.std.specs.Prelude.{◌≡◌, ◌<◌, OnOk};
ghost use Rattle.std.specs.Io.KnownBytes.{Appends};
ghost use Rattle.program_run.specs.Files.{HasReader, reader_at, shown_by};
ghost use Rattle.program_run.specs.Lines.{look_line};
ghost use Rattle.program_run.specs.Work.{IsLooked, WorkWrites, Wrote, policy_of};

use crate::lines::{tell_cleaned, tell_done, tell_read, tell_refusal, tell_synced};
use crate::session::Session;
use flash_volume::{Block, Meta, Policy, VolumeName};
use program_script::{Cleaning, WorkerDeed};
use std::io;
use std::io::Write;
use std::sync::Wait;

/// Does the work, and writes its line.
pub fn run_work<V: VolumeName, M: Meta, B: Block + Drop, T: Wait, W: Write>(
    rt: &T,
    session: &mut Session<'_, V, M, B>,
    work: WorkerDeed,
    out: &mut W,
) -> io::Result<()>
    ensures { OnOk result (Wrote (WorkWrites work session.old session.new) (W.contents out.old) (W.contents out.new)) }
{
    match work {
        WorkerDeed::Write { file, index, byte } => tell_done(
            session.write(rt, file, index, byte),
            out,
        ),
        WorkerDeed::Fill {
            file,
            first,
            last,
            byte,
        } => tell_done(session.fill(rt, file, first, last, byte), out),
        WorkerDeed::Read { file, index } => tell_read(
            file,
            index,
            session.read(rt, file, index),
            out,
        ),
        WorkerDeed::Cut { file, length } => tell_done(session.cut(rt, file, length), out),
        WorkerDeed::Clean(cleaning) => tell_cleaned(session.clean(rt, policy_of(cleaning)), out),
        WorkerDeed::Look { reader } => tell_look(session, reader, out),
        WorkerDeed::Sync => tell_synced(session.sync(rt), out),
    }
}

/// The policy that a script names.
pub fn policy_of(cleaning: Cleaning) -> Policy
    ensures { result ≡ policy_of cleaning }
{
    match cleaning {
        Cleaning::Foreground => Policy::Foreground,
        Cleaning::Background => Policy::Background,
    }
}

// Writes what a reader shows, or that no such reader is open.
fn tell_look<V: VolumeName, M: Meta, B: Block + Drop, W: Write>(
    session: &mut Session<'_, V, M, B>,
    reader: u32,
    out: &mut W,
) -> io::Result<()>
    ensures same { session.new ≡ session.old }
    ensures told { OnOk result (Wrote (IsLooked session.old reader) (W.contents out.old) (W.contents out.new)) }
{
    match session.shown_length(reader) {
        Ok(length) => tell_shown(session, reader, length, out),
        Err(error) => tell_refusal(error, out),
    }
}

// Writes what a reader shows, whose file has this length.
fn tell_shown<V: VolumeName, M: Meta, B: Block + Drop, W: Write>(
    session: &mut Session<'_, V, M, B>,
    reader: u32,
    length: u32,
    out: &mut W,
) -> io::Result<()>
    requires there { HasReader session.old reader }
    requires length { length ≡ (shown_by (reader_at session.old reader)).length }
    ensures same { session.new ≡ session.old }
    ensures told { OnOk result (Appends (W.contents out.old) (W.contents out.new) (look_line session.old.geometry.shape reader (shown_by (reader_at session.old reader)))) }
{
    write!(out, "look {reader}")?;
    for index in 0..length {
        session.look(reader, index).tell(out)?;
    }
    writeln!(out)
}
