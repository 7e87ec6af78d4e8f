//! One work is done on a device's volume.
ghost use Rattle.std.specs.Prelude.{◌≡◌, ◌≢◌, ℕ, IfOk, IfErr};
ghost use Rattle.device.specs.Parts.{IsBlockRun};
ghost use Rattle.flash_volume.specs.Refused.{HandsBack};
ghost use Rattle.flash_volume.specs.Worked.{AreGivenUp, IsNotClosed, IsSoOf, WorkedOn};
ghost use Rattle.flash_volume.specs.declared.leave.Stage.TheVariants.{Format as AtFormat, Mount as AtMount, Work as AtWork, Close as AtClose};
ghost use Rattle.geometry.specs.declared.geometry.Geometry.{Geometry};
ghost use Rattle.pack_tables.specs.Grammar.{HasSuper};

use crate::ladder::visit_volume;
use crate::leave::{Done, Leave, LeaveFault, Stage};
use crate::rights::Rights;
use crate::visit::Visit;
use crate::work::Work;
use area::HoleReuse;
use device::{Block, Meta, Parts};
use geometry::Error;
use mount_reading::OpenFault;
use rights_permits::VolumeName;
use std::alloc::Global;
use std::sync::Wait;
use volume::Volume;

/// Mounts the volume of a device, does the work on it, and leaves it. After Ok the work's promise holds between the files that the
/// image on the parts had and those with which it ended. With `Close` the parts that come back hold a lawful image with these
/// files and no other; with `Discard` leaving wrote nothing to them. Threads begin only while the reserve is full.
///
/// Each fault hands the parts back. At Mount it is a refusal of the parts, as a mount's, and they are as they were: the pack that
/// counted counts, but after Device. At Work it is the error with which the work ended, and at Close PassesOut or SeatsOut where a
/// right is missing, or a refusal of the last checkpoint: then the volume is given up, and a mount finds what the last checkpoint has.
pub fn work_on<M: Meta, B: Block + Drop, R: Wait, W: Work<M, B> + Drop>(
    rt: &R,
    alloc: Global,
    parts: Parts<M, B>,
    leave: Leave,
    work: W,
) -> Result<Done<M, B, W::Output>, LeaveFault<M, B>>
    requires run { (bytes : ℕ) × IsBlockRun B.address_of B.content_of bytes 1 parts.blocks.items }
    ensures done { IfOk result (λ done. WorkedOn M.seen M.may_leave B.address_of B.content_of (λ geometry before after. W.post work geometry before done.output after) parts leave done.parts) }
    ensures again { IfOk result (λ done. (bytes : ℕ) × IsBlockRun B.address_of B.content_of bytes 1 done.parts.blocks.items) }
    ensures stage { IfErr result (λ fault. fault.stage ≢ AtFormat) }
    ensures handed_back { IfErr result (λ fault. fault.stage ≡ AtMount → HandsBack M.seen M.may_leave M.moment M.left_since M.failed B.address_of B.content_of B.failed parts fault.parts fault.error) }
    ensures given_up { IfErr result (λ fault. fault.stage ≢ AtMount → (geometry : Geometry) × HasSuper geometry (M.seen parts.meta) × AreGivenUp M.seen M.may_leave B.address_of B.content_of geometry fault.parts) }
    ensures after_fault { IfErr result (λ fault. (bytes : ℕ) × IsBlockRun B.address_of B.content_of bytes 1 fault.parts.blocks.items) }
    ensures failed { IfErr result (λ fault. fault.stage ≡ AtWork → IsSoOf M.seen B.address_of B.content_of parts (λ geometry before. W.failed work geometry before fault.error)) }
    ensures not_closed { IfErr result (λ fault. fault.stage ≡ AtClose → IsNotClosed fault.error) }
{
    match visit_volume(
        rt,
        alloc,
        parts,
        HoleReuse::WhileReserveIsFull,
        leave,
        OneWork { work },
    ) {
        Ok(left) => left,
        Err(fault) => Err(unmounted(fault)),
    }
}

// A mount was refused.
pub(crate) fn unmounted<M: Meta, B: Block>(fault: OpenFault<M, B>) -> LeaveFault<M, B>
    ensures parts { result.parts ≡ fault.parts }
    ensures stage { result.stage ≡ AtMount }
    ensures error { result.error ≡ fault.error }
{
    let OpenFault { parts, error } = fault;
    LeaveFault {
        parts,
        stage: Stage::Mount,
        error,
    }
}

// A visit that does one work.
#[derive(Drop)]
struct OneWork<W> {
    work: W,
}

impl<M: Meta, B: Block + Drop, W: Work<M, B> + Drop> Visit<M, B> for OneWork<W> {
    type Output = W::Output;

    ghost did = { λ one geometry base before output after. W.post one.work geometry before output after };

    ghost failed = { λ one geometry base before error. W.failed one.work geometry before error };

    fn visit<V: VolumeName, R: Wait>(
        self,
        rt: &R,
        alloc: Global,
        volume: &Volume<V, M, B>,
        rights: &mut Rights<V>,
    ) -> Result<W::Output, Error> {
        self.work.run(rt, alloc, volume, rights)
    }
}
