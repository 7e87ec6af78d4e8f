//! A device's volume is mounted, a scheduler runs its rounds on it, and it is left: a function for each step of the mount, as for a visit.
//! They ask for more of a device and of the names, since threads share them.
ghost use Rattle.std.specs.Prelude.{◌≡◌, ℕ, [], IfOk, IfErr};
ghost use Rattle.device.specs.Parts.{IsBlockRun};
ghost use Rattle.flash_volume.specs.Refused.{HandsBack};
ghost use Rattle.flash_volume.specs.Rounds.{MayBegin, WasScheduled, at_first};
ghost use Rattle.flash_volume.specs.Visited.{VisitedFrom, VisitedOn};
ghost use Rattle.geometry.specs.declared.error.Error.TheVariants.{NoMemory};
ghost use Rattle.image_codec.specs.Blocks.{bytes_at};
ghost use Rattle.volume.specs.Picked.{HaveNames};

use crate::block::SharedBlock;
use crate::leave::{Done, LeaveFault};
use crate::leaving::run_rounds_and_leave;
use crate::mounting::mount_parts;
use crate::rights::Rights;
use crate::scheduler::{ScheduledPart, Scheduler};
use area::HoleReuse;
use device::{Block, Meta, Parts};
use mount::{Mounted, MountedQueues};
use mount_reading::OpenFault;
use rights_permits::{BooksOf, NumbersOf, PoolName, TablesName, TurnName, WordsOf};
use std::alloc::Global;
use std::marker::Brand;
use std::sync::Wait;
use std::thread::Threads;

/// Mounts the volume of a device, which threads by this rule, runs the rounds of a scheduler on it, and leaves it as the scheduler says. What the scheduler
/// promises holds of the image that the parts had.
///
/// The outer error is a refusal of the parts, as a mount's, and hands them back as they were: the pack that counted counts, but after
/// Device, and where a crash left one pack or the next, a crash at any moment of the call does too. The inner one is a fault of the scheduler or
/// of the close.
pub fn visit_by_rounds<
    M: Meta + Send,
    B: SharedBlock,
    R: Threads + Wait + Sync,
    X: Scheduler<M, B> + Drop,
>(
    rt: &R,
    alloc: Global,
    parts: Parts<M, B>,
    hole_reuse: HoleReuse,
    scheduler: X,
) -> Result<Result<Done<M, B, X::Output>, LeaveFault<M, B>>, OpenFault<M, B>>
where
    X::Part: Send + Drop,
    <X::Part as ScheduledPart<M, B>>::Done: Send,
    requires run { (bytes : ℕ) × IsBlockRun B.address_of B.content_of bytes 1 parts.blocks.items }
    requires fits { MayBegin (X.fits scheduler) }
    ensures done { IfOk result (VisitedOn M.seen B.address_of B.content_of (λ geometry base before left. WasScheduled M.seen M.may_leave B.address_of B.content_of (X.did scheduler geometry base (at_first before) []) (X.failed scheduler geometry base (at_first before) []) geometry left) parts) }
    ensures handed_back { IfErr result (λ fault. HandsBack M.seen M.may_leave M.moment M.left_since M.failed B.address_of B.content_of B.failed parts fault.parts fault.error) }
{
    match mount_parts(alloc, parts) {
        Ok(mounted) => {
            let scheduling = Scheduling {
                hole_reuse,
                scheduler,
            };
            on_mounted::<Brand, M, B, R, X>(rt, alloc, mounted, scheduling)
        }
        Err(fault) => Err(fault),
    }
}

// A scheduler, and the rule by which the volume threads meanwhile.
#[derive(Drop)]
struct Scheduling<X> {
    hole_reuse: HoleReuse,
    scheduler: X,
}

// The names ask for `Send` and `Sync` since threads share the volume that has them in its type.
fn on_mounted<
    K: TablesName + Send + Sync,
    M: Meta + Send,
    B: SharedBlock,
    R: Threads + Wait + Sync,
    X: Scheduler<M, B> + Drop,
>(
    rt: &R,
    alloc: Global,
    mounted: Mounted<M, B>,
    scheduling: Scheduling<X>,
) -> Result<Result<Done<M, B, X::Output>, LeaveFault<M, B>>, OpenFault<M, B>>
where
    X::Part: Send + Drop,
    <X::Part as ScheduledPart<M, B>>::Done: Send,
    requires books { mounted.books ≡ K.books }
    requires rows { mounted.rows ≡ K.rows }
    requires words { mounted.words ≡ K.words }
    requires geometry { mounted.geometry ≡ K.geometry }
    requires fits { MayBegin (X.fits scheduling.scheduler) }
    ensures done { IfOk result (VisitedFrom (λ geometry base before left. WasScheduled M.seen M.may_leave B.address_of B.content_of (X.did scheduling.scheduler geometry base (at_first before) []) (X.failed scheduling.scheduler geometry base (at_first before) []) geometry left) mounted.geometry mounted.image (bytes_at B.content_of mounted.parts.blocks.items)) }
    ensures back { IfErr result (λ fault. fault.parts ≡ mounted.parts) }
    ensures error { IfErr result (λ fault. fault.error ≡ NoMemory) }
{
    match mounted.name::<BooksOf<K>, WordsOf<K>, NumbersOf<K>>() {
        Ok(opened) => on_opened::<K, Brand, Brand, M, B, R, X>(rt, alloc, opened, scheduling),
        Err(fault) => Err(fault),
    }
}

fn on_opened<
    K: TablesName + Send + Sync,
    P: PoolName + Send + Sync,
    T: TurnName + Send + Sync,
    M: Meta + Send,
    B: SharedBlock,
    R: Threads + Wait + Sync,
    X: Scheduler<M, B> + Drop,
>(
    rt: &R,
    alloc: Global,
    opened: MountedQueues<BooksOf<K>, WordsOf<K>, NumbersOf<K>, M, B>,
    scheduling: Scheduling<X>,
) -> Result<Result<Done<M, B, X::Output>, LeaveFault<M, B>>, OpenFault<M, B>>
where
    X::Part: Send + Drop,
    <X::Part as ScheduledPart<M, B>>::Done: Send,
    requires named { HaveNames opened.queues opened.channel P.ordinary P.reserve T.turns T.key }
    requires fits { MayBegin (X.fits scheduling.scheduler) }
    ensures done { IfOk result (VisitedFrom (λ geometry base before left. WasScheduled M.seen M.may_leave B.address_of B.content_of (X.did scheduling.scheduler geometry base (at_first before) []) (X.failed scheduling.scheduler geometry base (at_first before) []) geometry left) opened.named.mounted.geometry opened.named.mounted.image (bytes_at B.content_of opened.named.mounted.parts.blocks.items)) }
    ensures back { IfErr result (λ fault. fault.parts ≡ opened.named.mounted.parts) }
    ensures error { IfErr result (λ fault. fault.error ≡ NoMemory) }
{
    match opened.name::<P, T, R>(rt) {
        Ok((volume, seats, passes)) => {
            let volume = volume.with_hole_reuse(rt, scheduling.hole_reuse);
            let rights = Rights { seats, passes };
            Ok(run_rounds_and_leave(rt, alloc, volume, rights, scheduling.scheduler))
        }
        Err(fault) => Err(fault),
    }
}
