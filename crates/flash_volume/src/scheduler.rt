//! What is done on a volume that was mounted, some of it side by side.
use crate::leave::Leave;
use crate::lent::Lent;
use device::{Block, Meta};
use geometry::Error;
use rights_permits::VolumeName;
use std::alloc::Global;
use std::sync::Wait;
use volume::Volume;

/// A part, and what it is lent.
#[derive(Drop)]
pub struct PartJob<'v, V: VolumeName, B: Block + Drop, P> {
    pub part: P,
    pub lent: Lent<'v, V, B>,
}

/// What a part answered, and what it hands back.
#[derive(Drop)]
pub struct Ended<'v, V: VolumeName, B: Block + Drop, D> {
    pub done: D,
    pub lent: Lent<'v, V, B>,
}

/// How a round of a scheduler ends.
#[derive(Drop)]
pub enum SchedulerRound<C, W, O> {
    /// These jobs are done, each on a thread of its own where one can be made. Then it is the scheduler's round again.
    Beside { scheduler: C, part_jobs: Vec<W> },
    /// All is done, and the volume is left so.
    Over { output: O, leave: Leave },
}

/// One of the parts of a scheduler's work that are done side by side, over any device.
pub trait ScheduledPart<M: Meta, B: Block + Drop> {
    ghost use Rattle.flash_volume.specs.Rounds.{Held};
    ghost use Rattle.geometry.specs.declared.geometry.Geometry.{Geometry};

    /// What the part answers.
    type Done: Drop;

    // With what the part may be done: of itself, the volume's numbers, and what it is lent.
    ghost fits: { Self → Geometry → Held → Type 0 } = { λ _ _ _. Unit {0} };

    // What it promises: of these, what it answers, and what it hands back.
    ghost did: { Self → Geometry → Held → Self.Done → Held → Type 0 };

    /// Does the part, in this thread alone.
    fn run<'v, V: VolumeName, R: Wait>(
        self,
        rt: &R,
        alloc: Global,
        volume: &'v Volume<V, M, B>,
        lent: &mut Lent<'v, V, B>,
    ) -> Self::Done
        requires { fits self V.Numbers.geometry lent.old }
        ensures { did self V.Numbers.geometry lent.old result lent.new };
}

/// What is done with a volume that was mounted, over any device, round by round: between the rounds parts of it are done side by side.
pub trait Scheduler<M: Meta, B: Block + Drop> {
    ghost use Rattle.std.specs.Prelude.{List, map, IfOk, IfErr};
    ghost use Rattle.file_cells.specs.Pass.{Pass};
    ghost use Rattle.flash_volume.specs.Rounds.{Held, Keeps, Lot};
    ghost use Rattle.flash_volume.specs.declared.leave.Leave.{Leave};
    ghost use Rattle.geometry.specs.declared.error.Error.{Error as Reason};
    ghost use Rattle.geometry.specs.declared.geometry.Geometry.{Geometry};
    ghost use Rattle.volume.specs.declared.volume.Base.{Base};

    /// What is done side by side.
    type Part: ScheduledPart<M, B>;

    /// What the scheduler answers in the end.
    type Output: Drop;

    // With what the scheduler may run a round: of itself, the volume's numbers, what it has, and how its parts ended.
    ghost fits: { Self → Geometry → Held → List (Lot Self.Part.Done) → Type 0 } = { λ _ _ _ _. Unit {0} };

    // What it promises from here on to its end: of itself, the volume's numbers, the image that was mounted, what it has, how its
    // parts ended, and then what it answers, how the volume is to be left, and the passes that it ends with.
    ghost did: { Self → Geometry → Base → Held → List (Lot Self.Part.Done) → Self.Output → Leave → List Pass → Type 0 };

    // Why the scheduler may end with an error from here on, of the same. Any may be, unless it says which.
    ghost failed: { Self → Geometry → Base → Held → List (Lot Self.Part.Done) → Reason → Type 0 } = { λ _ _ _ _ _ _. Unit {0} };

    /// Runs a round, in this thread alone. It is told how the parts ended that its last round asked for, and takes out of `ended` what it
    /// keeps of them. An error ends it all, as that of a work.
    fn round<'v, V: VolumeName, R: Wait>(
        self,
        rt: &R,
        alloc: Global,
        volume: &'v Volume<V, M, B>,
        lent: &mut Lent<'v, V, B>,
        ended: &mut Vec<Ended<'v, V, B, <Self::Part as ScheduledPart<M, B>>::Done>>,
    ) -> Result<SchedulerRound<Self, PartJob<'v, V, B, Self::Part>, Self::Output>, Error>
        requires { fits self V.Numbers.geometry lent.old (map (λ end. record { what = end.done; held = end.lent }) ended.old.items) }
        ensures done { IfOk result (λ round. Keeps
            (λ part. Self.Part.fits part V.Numbers.geometry)
            (λ part. Self.Part.did part V.Numbers.geometry)
            (λ scheduler. fits scheduler V.Numbers.geometry)
            (λ scheduler. did scheduler V.Numbers.geometry volume.now.base)
            (λ scheduler. failed scheduler V.Numbers.geometry volume.now.base)
            (λ part_job. record { what = part_job.part; held = part_job.lent })
            (did self V.Numbers.geometry volume.now.base lent.old (map (λ end. record { what = end.done; held = end.lent }) ended.old.items))
            (failed self V.Numbers.geometry volume.now.base lent.old (map (λ end. record { what = end.done; held = end.lent }) ended.old.items))
            round lent.new) }
        ensures refused { IfErr result (failed self V.Numbers.geometry volume.now.base lent.old (map (λ end. record { what = end.done; held = end.lent }) ended.old.items)) };
}
