//! The steps of a script on one volume, up to the one where it is mounted again: a scheduler, whose parts are workers.
ghost use Rattle.std.specs.Prelude.{◌≡◌, ◌≤◌, false, length, map, IfErr, IfNone, IfOk, IfSome};
ghost use Rattle.program_run.specs.Files.{AreInOrder};
ghost use Rattle.program_run.specs.PartJobs.{AreFit};
ghost use Rattle.program_run.specs.Scheduler.{Begins, HasNoPart, HasPart, IsLeft, Pauses};
ghost use Rattle.program_run.specs.Run.{names_line};

use crate::gate::Gate;
use crate::hand::Hand;
use crate::lines::tell_unsynced;
use crate::part::{give_shares, take_shares};
use crate::setting::Setting;
use crate::steps::{Carried, run_commands};
use crate::stop::Stop;
use crate::{Session, close_readers, no_items};
use flash_volume::{
    Block, Ended, Error, Leave, Lent, Meta, PartJob, Scheduler, SchedulerRound, Volume, VolumeName,
};
use program_script::{Step, Worker};
use std::alloc::Global;
use std::io::Write;
use std::sync::Wait;
use std::{io, mem};

/// The steps that are to be run on a volume. Once some are begun, the next one is a part whose workers are at work.
#[derive(Drop)]
pub struct RunningScript<'s, 'g, 'o, G: Gate, O> {
    pub steps: &'s [Step],
    pub begun: Option<usize>,
    pub carried: Carried,
    pub setting: &'s Setting<'g, G>,
    pub out: &'o mut O,
}

/// Where the steps of a script halted: how many were run, and what the script carries on. All were run, or the next one mounts the
/// volume again.
#[derive(Clone, Copy)]
pub struct Halt {
    pub run: usize,
    pub carried: Carried,
}

/// The writer that was lent, and where the steps halted.
#[derive(Drop)]
pub struct Ran<'o, O> {
    pub out: &'o mut O,
    pub halt: Result<Halt, Stop>,
}

// How a round ends: with a part, or where the steps halt.
#[derive(Drop)]
enum Pause<D> {
    Part {
        run: usize,
        time: u64,
        part_jobs: Vec<D>,
    },
    Halt {
        halt: Halt,
        leave: Leave,
    },
}

impl<'s, 'g, 'o, M: Meta, B: Block + Drop, G: Gate, O: Write> Scheduler<M, B>
    for RunningScript<'s, 'g, 'o, G, O> {
    ghost use Rattle.std.specs.Prelude.{◌≡◌, ℕ, map, IfErr, IfOk, Result, Vec};
    ghost use Rattle.std.specs.declared.alloc.Global.{Global};
    ghost use Rattle.std.specs.declared.io.Error.{Error as IoError};
    ghost use Rattle.flash_volume.specs.Rounds.{Keeps};
    ghost use Rattle.program_run.specs.Scheduler.{HasHalted, MayGoOn};
    ghost use Rattle.program_run.specs.Files.{AreInOrder};
    ghost use Rattle.program_run.specs.PartJobs.{IsDone};

    type Part = Hand<'s, G>;

    type Output = Ran<'o, O>;

    ghost fits = { λ script geometry held ended. MayGoOn (λ text. text.items) script.steps.now script.begun geometry held ended };

    // The writer that comes back is the one that was lent, so who lent it knows what it holds.
    ghost did = { λ script geometry base held ended output leave after. (output.out.ghost_name ≡ script.out.ghost_name)
        × HasHalted (λ text. text.items) script.steps.now script.begun script.carried geometry base held ended output.halt leave after (O.contents script.out.now) (O.contents output.out.now) };

    // What goes wrong is told by the halt.
    ghost failed = { λ script geometry base held ended error. ⊥ };

    fn round<'v, V: VolumeName, R: Wait>(
        self,
        rt: &R,
        alloc: Global,
        volume: &'v Volume<V, M, B>,
        lent: &mut Lent<'v, V, B>,
        ended: &mut Vec<Ended<'v, V, B, io::Result<Vec<u8>>>>,
    ) -> Result<
        SchedulerRound<RunningScript<'s, 'g, 'o, G, O>, PartJob<'v, V, B, Hand<'s, G>>, Ran<'o, O>>,
        Error,
    >
        requires { MayGoOn (λ text. text.items) self.steps.now self.begun V.Numbers.geometry lent.old (map (λ end. record { what = end.done; held = end.lent }) ended.old.items) }
        ensures done { IfOk result (λ round. Keeps {D = Result (Vec ℕ Global) IoError}
            (λ hand held. AreInOrder V.Numbers.geometry.files held.passes)
            (λ hand before done after. IfOk done (λ text. IsDone V.Numbers.geometry hand before text.items after))
            (λ script held ended. MayGoOn (λ text. text.items) script.steps.now script.begun V.Numbers.geometry held ended)
            (λ script held ended output leave after. (output.out.ghost_name ≡ script.out.ghost_name)
            × HasHalted (λ text. text.items) script.steps.now script.begun script.carried V.Numbers.geometry volume.now.base held ended output.halt leave after (O.contents script.out.now) (O.contents output.out.now))
            (λ script held ended error. ⊥)
            (λ part_job. record { what = part_job.part; held = part_job.lent })
            (λ output leave after. (output.out.ghost_name ≡ self.entry.out.ghost_name)
            × HasHalted (λ text. text.items) self.entry.steps.now self.entry.begun self.entry.carried V.Numbers.geometry volume.now.base lent.old (map (λ end. record { what = end.done; held = end.lent }) ended.old.items) output.halt leave after (O.contents self.entry.out.now) (O.contents output.out.now))
            (λ error. ⊥)
            round lent.new) }
        ensures refused { IfErr result (λ error. ⊥) }
    {
        let RunningScript {
            steps,
            begun,
            carried,
            setting,
            out,
        } = self;
        let first = match begun {
            None => 0,
            Some(part) => part + 1,
        };
        let share = lent.take(alloc);
        let back = mem::replace(ended, Vec::new(alloc));
        let turned = match begin(alloc, volume, share, begun, carried, back, out) {
            Ok(session) => run_steps(rt, alloc, volume, session, steps, first, setting, out),
            Err(stop) => Err(stop),
        };
        match turned {
            Ok((pause, kept)) => {
                lent.put(kept);
                match pause {
                    Pause::Part {
                        run,
                        time,
                        part_jobs,
                    } => Ok(SchedulerRound::Beside {
                        scheduler: RunningScript {
                            steps,
                            begun: Some(run),
                            carried: Carried { time, ..carried },
                            setting,
                            out,
                        },
                        part_jobs,
                    }),
                    Pause::Halt { halt, leave } => {
                        let halt = Ok(halt);
                        Ok(SchedulerRound::Over {
                            output: Ran { out, halt },
                            leave,
                        })
                    }
                }
            }
            Err(stop) => {
                let halt = Err(stop);
                Ok(SchedulerRound::Over {
                    output: Ran { out, halt },
                    leave: Leave::Discard,
                })
            }
        }
    }
}

// The session with which a round begins: on a volume that was just opened, which is told, or once the workers of a part have ended.
fn begin<'v, V: VolumeName, M: Meta, B: Block + Drop, O: Write>(
    alloc: Global,
    volume: &'v Volume<V, M, B>,
    lent: Lent<'v, V, B>,
    begun: Option<usize>,
    carried: Carried,
    ended: Vec<Ended<'v, V, B, io::Result<Vec<u8>>>>,
    out: &mut O,
) -> Result<Session<'v, V, M, B>, Stop>
    requires in_order { AreInOrder V.Numbers.geometry.files lent.passes }
    requires fit { IfSome begun (λ part. AreFit (λ text. text.items) V.Numbers.geometry (length lent.readers) (map (λ end. record { what = end.done; held = end.lent }) ended.items)) }
    ensures begins { IfOk result (λ session. Begins (λ text. text.items) carried V.Numbers.geometry volume.now.base lent.entry (map (λ end. record { what = end.done; held = end.lent }) ended.entry.items) begun session (O.contents out.old) (O.contents out.new)) }
    ensures err { IfErr result (λ stop. names_line stop ≡ false) }
{
    if begun.is_some() {
        let mut session = Session::of(alloc, volume, lent, carried.time)?;
        take_shares(alloc, &mut session, ended, out)?;
        return Ok(session);
    }
    let (rights, _none) = lent.split();
    let lent = Lent::new(rights, no_items(alloc, carried.readers)?);
    let session = Session::of(alloc, volume, lent, carried.time)?;
    carried.opening(volume.base().version).tell(out)?;
    Ok(session)
}

// Runs the steps from this one on, up to a part or to where they halt. Answers what is kept, too.
fn run_steps<'v, 's, 'g, V: VolumeName, M: Meta, B: Block + Drop, R: Wait, G: Gate, O: Write>(
    rt: &R,
    alloc: Global,
    volume: &'v Volume<V, M, B>,
    mut session: Session<'v, V, M, B>,
    steps: &'s [Step],
    first: usize,
    setting: &'s Setting<'g, G>,
    out: &mut O,
) -> Result<(Pause<PartJob<'v, V, B, Hand<'s, G>>>, Lent<'v, V, B>), Stop>
    requires first { first ≤ length steps.now }
    ensures pauses { IfOk result (λ end. Pauses steps.now V.Numbers.geometry first session.entry (O.contents out.old) (O.contents out.new) (λ part_job. record { what = part_job.part; held = part_job.lent }) end.0 end.1) }
    ensures err { IfErr result (λ stop. names_line stop ≡ false) }
{
    let more = run_commands(rt, &mut session, &steps[first..], &setting.faults, out)?;
    let run = first + more;
    if let Some(workers) = part_at(steps, run) {
        let part_jobs = give_shares(alloc, &mut session, workers, setting.gate)?;
        let time = session.time();
        let kept = session.end()?;
        return Ok((
            Pause::Part {
                run,
                time,
                part_jobs,
            },
            kept,
        ));
    }
    let time = session.time();
    let (mut rights, readers) = session.end()?.split();
    let carried = Carried {
        formatted: false,
        time,
        readers: readers.len(),
    };
    close_readers(readers, &mut rights.seats)?;
    let kept = Lent::new(rights, Vec::new(alloc));
    let halt = Halt { run, carried };
    let leave = if run < steps.len() {
        Leave::Discard
    } else {
        leave_so(volume, out)?
    };
    Ok((Pause::Halt { halt, leave }, kept))
}

// The workers of the step at this place, if it is a part.
fn part_at(steps: &[Step], run: usize) -> Option<&[Worker]>
    ensures part { IfSome result (λ workers. HasPart steps.now run workers.now) }
    ensures none { IfNone result (HasNoPart steps.now run) }
{
    if run >= steps.len() {
        return None;
    }
    match &steps[run] {
        Step::Part { line: _, workers } => Some(workers.as_slice()),
        Step::Command {
            line: _,
            command: _,
        } => None,
    }
}

// How a volume is left whose steps were all run: by a close. A wounded one cannot be closed: it is left as it is, which is told.
fn leave_so<V: VolumeName, M: Meta, B: Block + Drop, O: Write>(
    volume: &Volume<V, M, B>,
    out: &mut O,
) -> Result<Leave, Stop>
    ensures leave { IfOk result (λ leave. IsLeft leave (O.contents out.old) (O.contents out.new)) }
    ensures err { IfErr result (λ stop. names_line stop ≡ false) }
{
    if volume.is_wounded() {
        tell_unsynced(out)?;
        return Ok(Leave::Discard);
    }
    Ok(Leave::Close)
}
