//! A service on a device's volume: its threads side by side, and then the volume is left.
ghost use Rattle.std.specs.Prelude.{◌≡◌, ◌≢◌, ℕ, IfOk, IfErr};
ghost use Rattle.device.specs.Parts.{IsBlockRun};
ghost use Rattle.flash_volume.specs.Refused.{HandsBack};
ghost use Rattle.flash_volume.specs.Worked.{AreGivenUp, IsNotClosed, WorkedOn};
ghost use Rattle.flash_volume.specs.declared.leave.Stage.TheVariants.{Format as AtFormat, Mount as AtMount, Work as AtWork, Close as AtClose};
ghost use Rattle.geometry.specs.declared.error.Error.TheVariants.{NoMemory};
ghost use Rattle.geometry.specs.declared.geometry.Geometry.{Geometry};
ghost use Rattle.pack_tables.specs.Grammar.{HasSuper};

use crate::block::SharedBlock;
use crate::leave::{Done, Leave, LeaveFault};
use crate::one_work::unmounted;
use crate::pass_table::PassTable;
use crate::rights::Rights;
use crate::rounds::{Job, do_side_by_side};
use crate::serve_ladder::serve_by;
use crate::service::Service;
use device::{Block, Meta, Parts};
use geometry::Error;
use rights_permits::VolumeName;
use std::alloc::Global;
use std::sync::Wait;
use std::thread::Threads;
use volume::{SharedName, Volume};

/// Mounts the volume of a device, has a service on it by so many threads, and leaves it once they all have ended. Answers how each
/// ended, in the order of the threads.
///
/// With `Close` the parts that come back hold a lawful image, whose files are those of the passes that were in the pass table then, and no
/// other. What an answer of the service means is promised by `read_part`, `write_part` and `flush`, under the lock of its file. Threads
/// begin only while the reserve is full.
///
/// Its faults are those of `work_on`; at Work the only error is NoMemory.
pub fn serve_volume<
    M: Meta + Send,
    B: SharedBlock,
    R: Threads + Wait + Sync,
    S: Service<M, B> + Send + Sync,
>(
    rt: &R,
    alloc: Global,
    parts: Parts<M, B>,
    leave: Leave,
    threads: usize,
    service: &S,
) -> Result<Done<M, B, Vec<Result<(), Error>>>, LeaveFault<M, B>>
    requires run { (bytes : ℕ) × IsBlockRun B.address_of B.content_of bytes 1 parts.blocks.items }
    ensures done { IfOk result (λ done. WorkedOn M.seen M.may_leave B.address_of B.content_of (λ geometry before after. Unit {0}) parts leave done.parts) }
    ensures again { IfOk result (λ done. (bytes : ℕ) × IsBlockRun B.address_of B.content_of bytes 1 done.parts.blocks.items) }
    ensures stage { IfErr result (λ fault. fault.stage ≢ AtFormat) }
    ensures handed_back { IfErr result (λ fault. fault.stage ≡ AtMount → HandsBack M.seen M.may_leave M.moment M.left_since M.failed B.address_of B.content_of B.failed parts fault.parts fault.error) }
    ensures given_up { IfErr result (λ fault. fault.stage ≢ AtMount → (geometry : Geometry) × HasSuper geometry (M.seen parts.meta) × AreGivenUp M.seen M.may_leave B.address_of B.content_of geometry fault.parts) }
    ensures after_fault { IfErr result (λ fault. (bytes : ℕ) × IsBlockRun B.address_of B.content_of bytes 1 fault.parts.blocks.items) }
    ensures failed { IfErr result (λ fault. fault.stage ≡ AtWork → fault.error ≡ NoMemory) }
    ensures not_closed { IfErr result (λ fault. fault.stage ≡ AtClose → IsNotClosed fault.error) }
{
    let serving = Serving {
        service,
        threads,
        leave,
    };
    match serve_by(rt, alloc, parts, serving) {
        Ok(left) => left,
        Err(fault) => Err(unmounted(fault)),
    }
}

// A service by so many threads, and how the volume is left then.
#[derive(Drop)]
pub(crate) struct Serving<'s, S> {
    pub service: &'s S,
    pub threads: usize,
    pub leave: Leave,
}

// Has a service on a volume. Answers the rights with which its threads end, and how each ended. The only error is NoMemory.
pub(crate) fn serve_side_by_side<
    V: SharedName,
    M: Meta + Send,
    B: SharedBlock,
    R: Threads + Wait + Sync,
    S: Service<M, B> + Sync,
>(
    rt: &R,
    alloc: Global,
    volume: &Volume<V, M, B>,
    rights: Rights<V>,
    serving: Serving<'_, S>,
) -> Result<(Rights<V>, Vec<Result<(), Error>>), Error>
    ensures error { IfErr result (λ error. error ≡ NoMemory) }
{
    let Rights { seats, passes } = rights;
    let pass_table = PassTable::of(alloc, volume.geometry().files, passes)?;
    let mut threads = Vec::with_capacity(alloc, serving.threads)?;
    for thread in 0..serving.threads {
        threads.push(ServiceThread {
            alloc,
            volume,
            pass_table: &pass_table,
            service: serving.service,
            thread,
        })?;
    }
    let ended = do_side_by_side(rt, threads)?;
    let passes = pass_table.take_all(alloc)?;
    Ok((Rights { seats, passes }, ended))
}

// One of the threads of a service.
#[derive(Drop)]
struct ServiceThread<'s, V: VolumeName, M: Meta, B: Block + Drop, S> {
    alloc: Global,
    volume: &'s Volume<V, M, B>,
    pass_table: &'s PassTable<V>,
    service: &'s S,
    thread: usize,
}

impl<'s, V: VolumeName, M: Meta, B: Block + Drop, S: Service<M, B>> Job
    for ServiceThread<'s, V, M, B, S> {
    type Done = Result<(), Error>;

    ghost fits = { λ thread. Unit {0} };

    ghost did = { λ thread done. Unit {0} };

    fn run<R: Wait>(self, rt: &R) -> Result<(), Error> {
        let ServiceThread {
            alloc,
            volume,
            pass_table,
            service,
            thread,
        } = self;
        service.serve(rt, alloc, volume, pass_table, thread)
    }
}
