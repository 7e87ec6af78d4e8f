//! Runs the commands of a script.
ghost use Rattle.std.specs.Prelude.{◌≡◌, ◌<◌, [], true, false, take, IfErr, IfOk, OnOk};
ghost use Rattle.std.specs.Io.KnownBytes.{Appends};
ghost use Rattle.program_script.specs.declared.command.Command.TheVariants.{Remount};
ghost use Rattle.program_run.specs.Files.{open_count};
ghost use Rattle.program_run.specs.Work.{Wrote};
ghost use Rattle.program_run.specs.Run.{CommandWrites, IsPaused, WroteSteps, is_remount, mounted_of, names_line, opening_line};

use crate::disk::Faults;
use crate::lines::{tell_created, tell_done, tell_refusal, tell_status, tell_taken};
use crate::stop::Stop;
use crate::{Session, run_work};
use flash_volume::{Block, Error, Meta, VolumeName};
use program_script::{Command, Step};
use std::io;
use std::io::Write;
use std::sync::Wait;

/// What a script carries from one volume to the next: whether the device was just formatted, the time that was set, and how many
/// readers were taken.
#[derive(Clone, Copy)]
pub struct Carried {
    pub formatted: bool,
    pub time: u64,
    pub readers: usize,
}

/// How a volume came to be under a script: the version that was mounted, if it was not formatted.
#[derive(Clone, Copy)]
pub struct Opening {
    pub mounted: Option<u32>,
    pub carried: Carried,
}

impl Carried {
    /// How the volume came to be that is opened at a version.
    pub fn opening(self, version: u32) -> Opening
        ensures { result ≡ record { mounted = mounted_of self version; carried = self } }
    {
        if self.formatted {
            return Opening {
                mounted: None,
                carried: self,
            };
        }
        Opening {
            mounted: Some(version),
            carried: self,
        }
    }
}

impl Opening {
    /// Writes that the volume is there.
    pub fn tell<W: Write>(self, out: &mut W) -> io::Result<()>
        ensures { OnOk result (Appends (W.contents out.old) (W.contents out.new) (opening_line self.mounted)) }
    {
        match self.mounted {
            Some(version) => writeln!(out, "mount version {version}"),
            None => writeln!(out, "format ok"),
        }
    }
}

/// Runs commands in order, up to one that mounts the volume again, or a part of workers. Answers how many were run.
pub fn run_commands<V: VolumeName, M: Meta, B: Block + Drop, R: Wait, O: Write>(
    rt: &R,
    session: &mut Session<'_, V, M, B>,
    steps: &[Step],
    faults: &Faults,
    out: &mut O,
) -> Result<usize, Stop>
    ensures done { IfOk result (λ run. WroteSteps (take run steps.now) session.old session.new [] (O.contents out.old) (O.contents out.new)) }
    ensures paused { IfOk result (λ run. IsPaused steps.now run session.new.readers) }
    ensures err { IfErr result (λ stop. names_line stop ≡ false) }
{
    let mut run = 0;
    for step in steps {
        if is_remount(step) && session.open_readers() == 0 {
            return Ok(run);
        }
        let Step::Command { line: _, command } = step else {
            return Ok(run);
        };
        run_command(rt, session, *command, faults, out)?;
        run += 1;
    }
    Ok(run)
}

// Whether a step mounts the volume again.
fn is_remount(step: &Step) -> bool
    ensures { result ≡ is_remount step.now }
{
    matches!(
        step,
        Step::Command {
            line: _,
            command: Command::Remount,
        }
    )
}

// Runs a command, and writes its line.
fn run_command<V: VolumeName, M: Meta, B: Block + Drop, R: Wait, O: Write>(
    rt: &R,
    session: &mut Session<'_, V, M, B>,
    command: Command,
    faults: &Faults,
    out: &mut O,
) -> io::Result<()>
    requires stays { command ≡ Remount → 0 < open_count session.old.readers }
    ensures { OnOk result (Wrote (CommandWrites command session.old session.new) (O.contents out.old) (O.contents out.new)) }
{
    match command {
        Command::Now(now) => {
            session.set_time(now);
            Ok(())
        }
        Command::Create(kind) => tell_created(session.create(rt, kind), out),
        Command::Delete { file } => tell_done(session.delete(rt, file), out),
        Command::Status => tell_status(session.status(rt), out),
        Command::Snap { file } => tell_taken(session.snap(rt, file), out),
        Command::Done { reader } => tell_done(session.close(reader), out),
        Command::Work(work) => run_work(rt, session, work, out),
        Command::Fail(failure) => {
            faults.arm(failure)?;
            Ok(())
        }
        Command::Remount => tell_refusal(Error::SeatsOut(session.open_readers()), out),
    }
}
