//! One of the works that are done side by side, and what each of them is given.
ghost use Rattle.std.specs.Prelude.{◌≡◌, ◌+◌, [], map, vec_len, IfOk, IfErr, OnOk};
ghost use Rattle.flash_volume.specs.Beside.{AreDealt, is_named, passes_named, passes_unnamed};
ghost use Rattle.geometry.specs.Weights.{weigh};
ghost use Rattle.geometry.specs.declared.error.Error.TheVariants.{NoMemory};

use crate::lent::Lent;
use crate::rights::Rights;
use crate::scheduler::PartJob;
use crate::works::OneBeside;
use device::Block;
use file_cells::{FilePass, Seat};
use geometry::Error;
use rights_permits::VolumeName;
use std::alloc::Global;
use std::mem;

/// One of the works that are done side by side, each on a thread of its own, and the numbers of the files whose passes it is given:
/// those that are there, and that no work before it is given.
#[derive(Drop)]
pub struct Beside<W> {
    pub work: W,
    pub files: Vec<u32>,
}

impl<W> Beside<W> {
    /// A work that is given no pass. It can make files of its own.
    pub fn new(alloc: Global, work: W) -> Beside<W>
        ensures work { result.work ≡ work }
        ensures files { result.files.items ≡ [] }
    {
        Beside {
            work,
            files: Vec::new(alloc),
        }
    }
}

// Gives each work its share of the rights, one after the other: the passes of its files, and as many seats as any other.
pub(crate) fn deal<'v, V: VolumeName, B: Block + Drop, W: Drop>(
    alloc: Global,
    rights: &mut Rights<V>,
    works: Vec<Beside<W>>,
) -> Result<Vec<PartJob<'v, V, B, OneBeside<W>>>, Error>
    ensures works { IfOk result (λ part_jobs. map (λ part_job. part_job.part.work) part_jobs.items ≡ map (λ beside. beside.work) works.items) }
    ensures passes { IfOk result (λ part_jobs. AreDealt (map (λ beside. beside.files.items) works.items) rights.old.passes.items (map (λ part_job. part_job.lent.passes) part_jobs.items) rights.new.passes.items) }
    ensures seats { IfOk result (λ part_jobs. vec_len rights.old.seats ≡ vec_len rights.new.seats + weigh (λ part_job. part_job.lent.seats) part_jobs.items) }
    ensures error { IfErr result (λ error. error ≡ NoMemory) }
{
    let each = match works.len() {
        0 => 0,
        count => rights.seats.len() / count,
    };
    let mut part_jobs = Vec::new(alloc);
    for beside in works {
        let Beside { work, files } = beside;
        let passes = take_passes(alloc, &mut rights.passes, files.as_slice())?;
        let seats = take_seats(&mut rights.seats, each)?;
        let part = OneBeside { work };
        let lent = Lent::new(Rights { seats, passes }, Vec::new(alloc));
        part_jobs.push(PartJob { part, lent })?;
    }
    Ok(part_jobs)
}

// Takes the passes of these files out of the others. Their order stays.
fn take_passes<V: VolumeName>(
    alloc: Global,
    passes: &mut Vec<FilePass<V>>,
    files: &[u32],
) -> Result<Vec<FilePass<V>>, Error>
    ensures taken { IfOk result (λ taken. taken.items ≡ passes_named files.now passes.old.items) }
    ensures rest { OnOk result (passes.new.items ≡ passes_unnamed files.now passes.old.items) }
    ensures error { IfErr result (λ error. error ≡ NoMemory) }
{
    let mut taken = Vec::new(alloc);
    let mut rest = Vec::new(alloc);
    for pass in mem::replace(passes, Vec::new(alloc)) {
        if is_among(files, pass.number()) {
            taken.push(pass)?;
        } else {
            rest.push(pass)?;
        }
    }
    *passes = rest;
    Ok(taken)
}

fn is_among(files: &[u32], number: u32) -> bool
    ensures { result ≡ is_named files.now number }
{
    files.contains(&number)
}

// Takes so many seats out of the others, as far as there are so many.
fn take_seats<V: VolumeName>(seats: &mut Vec<Seat<V>>, count: usize) -> Result<Vec<Seat<V>>, Error>
    ensures seats { IfOk result (λ taken. vec_len seats.old ≡ vec_len seats.new + vec_len taken) }
    ensures error { IfErr result (λ error. error ≡ NoMemory) }
{
    let rest = seats.len().saturating_sub(count);
    let taken = seats.split_off(rest)?;
    Ok(taken)
}
