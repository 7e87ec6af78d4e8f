//! Works that are done side by side on one volume: a scheduler of one round to deal, and one to take back.
ghost use Rattle.std.specs.Prelude.{◌≡◌, ◌+◌, ◌⊎◌, ◌++◌, Ok, IfOk, IfErr, OnOk, map, vec_len};
ghost use Rattle.std.specs.List.{AllZip, flat_map};
ghost use Rattle.flash_volume.specs.Beside.{OneEnded};
ghost use Rattle.geometry.specs.Weights.{weigh};
ghost use Rattle.geometry.specs.declared.error.Error.TheVariants.{NoMemory};

use crate::beside::{Beside, deal};
use crate::leave::Leave;
use crate::lent::Lent;
use crate::rights::Rights;
use crate::scheduler::{Ended, PartJob, ScheduledPart, Scheduler, SchedulerRound};
use crate::work::Work;
use device::{Block, Meta};
use geometry::Error;
use rights_permits::VolumeName;
use std::alloc::Global;
use std::mem;
use std::sync::Wait;
use volume::Volume;

// Works that were not begun, or that were done; and how the volume is to be left.
#[derive(Drop)]
pub(crate) enum Works<W> {
    Fresh { works: Vec<Beside<W>>, leave: Leave },
    Dealt { leave: Leave },
}

// One of the works. An error of it ends no other.
#[derive(Drop)]
pub(crate) struct OneBeside<W> {
    pub(crate) work: W,
}

impl<M: Meta, B: Block + Drop, W: Work<M, B> + Drop> ScheduledPart<M, B> for OneBeside<W> {
    ghost use Rattle.std.specs.Prelude.{IfOk, IfErr};

    type Done = Result<W::Output, Error>;

    ghost did = { λ one geometry before done after. IfOk done (λ output. W.post one.work geometry before.passes output after.passes)
        × IfErr done (λ error. W.failed one.work geometry before.passes error) };

    fn run<'v, V: VolumeName, R: Wait>(
        self,
        rt: &R,
        alloc: Global,
        volume: &'v Volume<V, M, B>,
        lent: &mut Lent<'v, V, B>,
    ) -> Result<W::Output, Error> {
        self.work.run(rt, alloc, volume, &mut lent.rights)
    }
}

impl<M: Meta, B: Block + Drop, W: Work<M, B> + Drop> Scheduler<M, B> for Works<W> {
    ghost use Rattle.std.specs.Prelude.{map, IfOk, IfErr};
    ghost use Rattle.flash_volume.specs.Beside.{WorksDid, WorksFailed};
    ghost use Rattle.flash_volume.specs.Rounds.{Keeps};

    type Part = OneBeside<W>;

    type Output = Vec<W::Output>;

    ghost did = { λ works geometry base held ended outputs leave after. WorksDid W.post works geometry held ended outputs.items leave after };

    ghost failed = { λ works geometry base held ended error. WorksFailed W.failed works geometry held ended error };

    fn round<'v, V: VolumeName, R: Wait>(
        self,
        _rt: &R,
        alloc: Global,
        _volume: &'v Volume<V, M, B>,
        lent: &mut Lent<'v, V, B>,
        ended: &mut Vec<Ended<'v, V, B, Result<W::Output, Error>>>,
    ) -> Result<SchedulerRound<Works<W>, PartJob<'v, V, B, OneBeside<W>>, Vec<W::Output>>, Error>
        ensures done { IfOk result (λ round. Keeps
            (λ one held. Unit {0})
            (λ one before done after. IfOk done (λ output. W.post one.work V.Numbers.geometry before.passes output after.passes)
            × IfErr done (λ error. W.failed one.work V.Numbers.geometry before.passes error))
            (λ works held ended. Unit {0})
            (λ works held ended outputs leave after. WorksDid W.post works V.Numbers.geometry held ended outputs.items leave after)
            (λ works held ended error. WorksFailed W.failed works V.Numbers.geometry held ended error)
            (λ part_job. record { what = part_job.part; held = part_job.lent })
            (λ outputs leave after. WorksDid W.post self V.Numbers.geometry lent.old (map (λ end. record { what = end.done; held = end.lent }) ended.old.items) outputs.items leave after)
            (WorksFailed W.failed self V.Numbers.geometry lent.old (map (λ end. record { what = end.done; held = end.lent }) ended.old.items))
            round lent.new) }
        ensures refused { IfErr result (WorksFailed W.failed self V.Numbers.geometry lent.old (map (λ end. record { what = end.done; held = end.lent }) ended.old.items)) }
    {
        match self {
            Works::Fresh { works, leave } => {
                let part_jobs = deal(alloc, &mut lent.rights, works)?;
                Ok(SchedulerRound::Beside {
                    scheduler: Works::Dealt { leave },
                    part_jobs,
                })
            }
            Works::Dealt { leave } => {
                let back = mem::replace(ended, Vec::new(alloc));
                let output = take_back(alloc, &mut lent.rights, back)?;
                Ok(SchedulerRound::Over { output, leave })
            }
        }
    }
}

// What all works answered, if none of them ended with an error. Their rights are put behind the others.
fn take_back<V: VolumeName, B: Block + Drop, O: Drop>(
    alloc: Global,
    rights: &mut Rights<V>,
    ended: Vec<Ended<'_, V, B, Result<O, Error>>>,
) -> Result<Vec<O>, Error>
    ensures outputs { IfOk result (λ outputs. AllZip (λ end output. end.done ≡ Ok output) ended.entry.items outputs.items) }
    ensures passes { OnOk result (rights.new.passes.items ≡ rights.old.passes.items ++ flat_map (λ end. end.lent.passes) ended.entry.items) }
    ensures seats { OnOk result (vec_len rights.new.seats ≡ vec_len rights.old.seats + weigh (λ end. end.lent.seats) ended.entry.items) }
    ensures refused { IfErr result (λ error. (error ≡ NoMemory) ⊎ OneEnded (map (λ end. record { what = end.done; held = end.lent }) ended.entry.items) error) }
{
    let mut outputs = Vec::new(alloc);
    for end in ended {
        let Ended { done, lent } = end;
        let (mut back, _readers) = lent.split();
        outputs.push(done?)?;
        rights.passes.append(&mut back.passes)?;
        rights.seats.append(&mut back.seats)?;
    }
    Ok(outputs)
}
