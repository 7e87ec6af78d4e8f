//! A scheduler's rounds, and its parts side by side between them.
ghost use Rattle.std.specs.Prelude.{◌≡◌, ◌⊎◌, [], All, IfOk, IfErr, map, vec_len};
ghost use Rattle.std.specs.List.{AllZip};
ghost use Rattle.geometry.specs.declared.error.Error.TheVariants.{NoMemory};

use crate::block::SharedBlock;
use crate::leave::Leave;
use crate::lent::Lent;
use crate::rights::Rights;
use crate::scheduler::{Ended, PartJob, ScheduledPart, Scheduler, SchedulerRound};
use device::{Block, Meta};
use geometry::Error;
use rights_permits::VolumeName;
use std::alloc::{AllocError, Global};
use std::sync::Wait;
use std::thread;
use std::thread::Threads;
use volume::{SharedName, Volume};

// What one thread does.
pub(crate) trait Job {
    type Done;

    ghost fits: { Self → Type 0 };

    ghost did: { Self → Self.Done → Type 0 };

    fn run<R: Wait>(self, rt: &R) -> Self::Done
        requires { fits self }
        ensures { did self result };
}

// A part, with the volume on which it is done.
#[derive(Drop)]
struct MountedJob<'v, V: VolumeName, M: Meta, B: Block + Drop, P> {
    alloc: Global,
    volume: &'v Volume<V, M, B>,
    part_job: PartJob<'v, V, B, P>,
}

impl<'v, V: VolumeName, M: Meta, B: Block + Drop, P: ScheduledPart<M, B>> Job
    for MountedJob<'v, V, M, B, P> {
    type Done = Ended<'v, V, B, P::Done>;

    ghost fits = { λ mounted_job. P.fits mounted_job.part_job.part V.Numbers.geometry mounted_job.part_job.lent };

    ghost did = { λ mounted_job ended. P.did mounted_job.part_job.part V.Numbers.geometry mounted_job.part_job.lent ended.done ended.lent };

    fn run<R: Wait>(self, rt: &R) -> Ended<'v, V, B, P::Done> {
        let MountedJob {
            alloc,
            volume,
            part_job,
        } = self;
        let PartJob { part, mut lent } = part_job;
        let done = part.run(rt, alloc, volume, &mut lent);
        Ended { done, lent }
    }
}

// Runs the rounds of a scheduler, one after the other, and does the parts side by side that they ask for. Answers the rights with which it
// ends, what it answers, and how the volume is to be left.
pub(crate) fn run_rounds<
    'v,
    V: SharedName,
    M: Meta + Send,
    B: SharedBlock,
    R: Threads + Wait + Sync,
    X: Scheduler<M, B> + Drop,
>(
    rt: &R,
    alloc: Global,
    volume: &'v Volume<V, M, B>,
    rights: Rights<V>,
    scheduler: X,
) -> Result<(Rights<V>, X::Output, Leave), Error>
where
    X::Part: Send + Drop,
    <X::Part as ScheduledPart<M, B>>::Done: Send,
    requires { X.fits scheduler V.Numbers.geometry (record { passes = rights.passes.items; seats = vec_len rights.seats; readers = [] }) [] }
    ensures done { IfOk result (λ over. X.did scheduler V.Numbers.geometry volume.now.base (record { passes = rights.passes.items; seats = vec_len rights.seats; readers = [] }) [] over.1 over.2 over.0.passes.items) }
    ensures refused { IfErr result (λ error. (error ≡ NoMemory) ⊎ X.failed scheduler V.Numbers.geometry volume.now.base (record { passes = rights.passes.items; seats = vec_len rights.seats; readers = [] }) [] error) }
{
    let mut scheduler = scheduler;
    let mut lent = Lent::new(rights, Vec::new(alloc));
    let mut ended = Vec::new(alloc);
    for _ in rt.forever() {
        match scheduler.round(rt, alloc, volume, &mut lent, &mut ended)? {
            SchedulerRound::Beside {
                scheduler: next,
                part_jobs,
            } => {
                scheduler = next;
                let mounted_jobs = send(alloc, volume, part_jobs)?;
                ended = do_side_by_side(rt, mounted_jobs)?;
            }
            SchedulerRound::Over { output, leave } => {
                let (rights, _readers) = lent.split();
                return Ok((rights, output, leave));
            }
        }
    }
    unreachable!()
}

// Makes a job of the mounted volume of each.
fn send<'v, V: VolumeName, M: Meta, B: Block + Drop, P: Drop>(
    alloc: Global,
    volume: &'v Volume<V, M, B>,
    part_jobs: Vec<PartJob<'v, V, B, P>>,
) -> Result<Vec<MountedJob<'v, V, M, B, P>>, AllocError>
    ensures { IfOk result (λ mounted_jobs. map (λ mounted_job. mounted_job.part_job) mounted_jobs.items ≡ part_jobs.entry.items) }
{
    let mut mounted_jobs = Vec::new(alloc);
    for part_job in part_jobs {
        mounted_jobs.push(MountedJob {
            alloc,
            volume,
            part_job,
        })?;
    }
    Ok(mounted_jobs)
}

// Does each job on a thread of its own, and answers what each hands back, in the order of the jobs.
pub(crate) fn do_side_by_side<J: Job + Send + Drop, R: Threads + Wait + Sync>(
    rt: &R,
    jobs: Vec<J>,
) -> Result<Vec<J::Done>, AllocError>
where
    J::Done: Send + Drop,
    requires { All J.fits jobs.items }
    ensures { IfOk result (λ all. AllZip J.did jobs.items all.items) }
{
    let all = thread::map_vec(
        rt,
        jobs,
        &|job: J| -> J::Done
            requires { J.fits job }
            ensures { J.did job result }
        { job.run(rt) },
    )?;
    Ok(all)
}
