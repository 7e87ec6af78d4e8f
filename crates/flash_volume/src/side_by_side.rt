//! Works are done side by side on a device's volume.
ghost use Rattle.std.specs.Prelude.{◌≡◌, ◌≢◌, ℕ, IfOk, IfErr};
ghost use Rattle.device.specs.Parts.{IsBlockRun};
ghost use Rattle.flash_volume.specs.Beside.{AreDoneBeside, HaveFailed};
ghost use Rattle.flash_volume.specs.Refused.{HandsBack};
ghost use Rattle.flash_volume.specs.Worked.{AreGivenUp, IsNotClosed, IsSoOf, WorkedOn};
ghost use Rattle.flash_volume.specs.declared.leave.Stage.TheVariants.{Format as AtFormat, Mount as AtMount, Work as AtWork, Close as AtClose};
ghost use Rattle.geometry.specs.declared.geometry.Geometry.{Geometry};
ghost use Rattle.pack_tables.specs.Grammar.{HasSuper};

use crate::beside::Beside;
use crate::block::SharedBlock;
use crate::leave::{Done, Leave, LeaveFault};
use crate::one_work::unmounted;
use crate::scheduler_ladder::visit_by_rounds;
use crate::work::Work;
use crate::works::Works;
use area::HoleReuse;
use device::{Meta, Parts};
use std::alloc::Global;
use std::sync::Wait;
use std::thread::Threads;

/// Mounts the volume of a device, does works on it side by side, each on a thread of its own where one can be made, and leaves it.
/// What the works answer comes back in their order.
///
/// It promises what `work_on` promises of one work: after Ok each work kept its promise of the passes that it was given and of those
/// with which it ended, and the files that the volume is left with are those of these passes and of the ones that no work was given.
///
/// Its faults are those of `work_on`. At Work the error is that of the first work which was refused, once all have ended, or
/// NoMemory; and the volume is given up.
pub fn work_side_by_side<
    M: Meta + Send,
    B: SharedBlock,
    R: Threads + Wait + Sync,
    W: Work<M, B> + Drop + Send,
>(
    rt: &R,
    alloc: Global,
    parts: Parts<M, B>,
    leave: Leave,
    works: Vec<Beside<W>>,
) -> Result<Done<M, B, Vec<W::Output>>, LeaveFault<M, B>>
where
    W::Output: Send,
    requires run { (bytes : ℕ) × IsBlockRun B.address_of B.content_of bytes 1 parts.blocks.items }
    ensures done { IfOk result (λ done. WorkedOn M.seen M.may_leave B.address_of B.content_of (λ geometry before after. AreDoneBeside W.post geometry works.items before done.output.items after) parts leave done.parts) }
    ensures again { IfOk result (λ done. (bytes : ℕ) × IsBlockRun B.address_of B.content_of bytes 1 done.parts.blocks.items) }
    ensures stage { IfErr result (λ fault. fault.stage ≢ AtFormat) }
    ensures handed_back { IfErr result (λ fault. fault.stage ≡ AtMount → HandsBack M.seen M.may_leave M.moment M.left_since M.failed B.address_of B.content_of B.failed parts fault.parts fault.error) }
    ensures given_up { IfErr result (λ fault. fault.stage ≢ AtMount → (geometry : Geometry) × HasSuper geometry (M.seen parts.meta) × AreGivenUp M.seen M.may_leave B.address_of B.content_of geometry fault.parts) }
    ensures after_fault { IfErr result (λ fault. (bytes : ℕ) × IsBlockRun B.address_of B.content_of bytes 1 fault.parts.blocks.items) }
    ensures failed { IfErr result (λ fault. fault.stage ≡ AtWork → IsSoOf M.seen B.address_of B.content_of parts (λ geometry before. HaveFailed W.failed geometry works.items before fault.error)) }
    ensures not_closed { IfErr result (λ fault. fault.stage ≡ AtClose → IsNotClosed fault.error) }
{
    let works = Works::Fresh { works, leave };
    match visit_by_rounds(rt, alloc, parts, HoleReuse::WhileReserveIsFull, works) {
        Ok(left) => left,
        Err(fault) => Err(unmounted(fault)),
    }
}
