//! A parallel part.
ghost use Rattle.std.specs.Prelude.{◌≡◌, length, map, All, IfOk, OnOk};
ghost use Rattle.std.specs.Io.KnownBytes.{Appends};
ghost use Rattle.std.specs.List.{AllZip};
ghost use Rattle.program_run.specs.Files.{AreInOrder};
ghost use Rattle.program_run.specs.PartJobs.{AreBack, AreFit, AreGiven, IsMade, TookBack, told_text};

use crate::Session;
use crate::gate::Gate;
use crate::hand::{Hand, memory};
use crate::worker_lines::tell_end;
use flash_volume::{Block, Ended, Lent, Meta, PartJob, VolumeName};
use program_script::Worker;
use std::alloc::Global;
use std::io;
use std::io::Write;

// What a worker wrote, and the share that it hands back.
#[derive(Drop)]
struct Made<'a, V: VolumeName, B: Block + Drop> {
    text: Vec<u8>,
    lent: Lent<'a, V, B>,
}

/// Begins a parallel part: each worker in order is given a share of the session, to which the passes and the readers that its tasks
/// name have moved. What a part leaves and tells does not depend on which worker is faster, since each has a share of its own.
///
/// Where memory is refused nothing is said of the session any more.
pub fn give_shares<'t, 'a, V: VolumeName, M: Meta, B: Block + Drop, G: Gate>(
    alloc: Global,
    session: &mut Session<'a, V, M, B>,
    workers: &'t [Worker],
    gate: &'t G,
) -> io::Result<Vec<PartJob<'a, V, B, Hand<'t, G>>>>
    ensures { IfOk result (λ part_jobs. AreGiven V.Numbers.geometry 0 workers.now session.old (map (λ part_job. record { what = part_job.part; held = part_job.lent }) part_jobs.items) session.new) }
{
    let mut part_jobs = Vec::new(alloc);
    for (number, worker) in workers.iter().enumerate() {
        let tasks = worker.tasks.as_slice();
        let share = memory(session.take_share(tasks))?;
        let lent = memory(share.end())?;
        let part = Hand::new(number, tasks, session.time(), gate);
        part_jobs.push(PartJob { part, lent })?;
    }
    Ok(part_jobs)
}

/// Ends a parallel part, once all workers have ended: each of them tells its lines, in their order: what it has read and looked at,
/// its refusals, and that it is done; and its share comes back.
///
/// A worker's lines stand in memory until all have ended. Where memory is refused, or `out` can't be written, the part ends with that
/// error, and nothing is said of the session any more.
pub fn take_shares<'a, V: VolumeName, M: Meta, B: Block + Drop, O: Write>(
    alloc: Global,
    session: &mut Session<'a, V, M, B>,
    ended: Vec<Ended<'a, V, B, io::Result<Vec<u8>>>>,
    out: &mut O,
) -> io::Result<()>
    requires { AreFit (λ text. text.items) V.Numbers.geometry (length session.old.readers) (map (λ end. record { what = end.done; held = end.lent }) ended.items) }
    ensures { OnOk result (TookBack (λ text. text.items) V.Numbers.geometry session.old (map (λ end. record { what = end.done; held = end.lent }) ended.entry.items) session.new (O.contents out.old) (O.contents out.new)) }
{
    let all = all_done(alloc, ended)?;
    tell_all(&all, out)?;
    take_back(session, all)
}

// What all workers made, if none of them ended with an error.
fn all_done<'a, V: VolumeName, B: Block + Drop>(
    alloc: Global,
    ended: Vec<Ended<'a, V, B, io::Result<Vec<u8>>>>,
) -> io::Result<Vec<Made<'a, V, B>>>
    ensures { IfOk result (λ all. AllZip (IsMade (λ text. text.items) V.Numbers.geometry) (map (λ end. record { what = end.done; held = end.lent }) ended.entry.items) (map (λ made. record { what = made.text.items; held = made.lent }) all.items)) }
{
    let mut all = Vec::new(alloc);
    for end in ended {
        let Ended { done, lent } = end;
        all.push(Made { text: done?, lent })?;
    }
    Ok(all)
}

// Writes each worker's lines, in order, and that it is done.
fn tell_all<V: VolumeName, B: Block + Drop, O: Write>(
    all: &[Made<'_, V, B>],
    out: &mut O,
) -> io::Result<()>
    ensures { OnOk result (Appends (O.contents out.old) (O.contents out.new) (told_text 0 (map (λ made. record { what = made.text.items; held = made.lent }) all.now))) }
{
    for (number, made) in all.iter().enumerate() {
        out.write_all(made.text.as_slice())?;
        tell_end(number, out)?;
    }
    Ok(())
}

// Takes the shares back, the last one first.
fn take_back<'a, V: VolumeName, M: Meta, B: Block + Drop>(
    session: &mut Session<'a, V, M, B>,
    mut all: Vec<Made<'a, V, B>>,
) -> io::Result<()>
    requires { All (λ made. AreInOrder V.Numbers.geometry.files made.lent.passes × (length made.lent.readers ≡ length session.old.readers)) all.items }
    ensures { OnOk result (AreBack V.Numbers.geometry session.old (map (λ made. record { what = made.text.items; held = made.lent }) all.entry.items) session.new) }
{
    while let Some(made) = all.pop() {
        memory(session.put_back(made.lent))?;
    }
    Ok(())
}
