//! A volume is made, worked on and left.
ghost use Rattle.std.specs.Prelude.{◌≡◌, ◌⊎◌, ℕ, [], IfOk, IfErr};
ghost use Rattle.geometry.specs.Refusals.{IsOfRead};
ghost use Rattle.device.specs.Parts.{HasSize, IsBlockRun};
ghost use Rattle.flash_volume.specs.Beside.{AreDoneBeside, HaveFailed};
ghost use Rattle.flash_volume.specs.Worked.{EndedWith, IsNotClosed};
ghost use Rattle.flash_volume.specs.declared.leave.Stage.TheVariants.{Format as AtFormat, Mount as AtMount, Work as AtWork, Close as AtClose};
ghost use Rattle.image.specs.Empty.{empty_image};
ghost use Rattle.volume_format.specs.Mountable.{IsMountable};

use crate::beside::Beside;
use crate::block::SharedBlock;
use crate::leave::{Done, Leave, LeaveFault, Stage};
use crate::one_work::work_on;
use crate::side_by_side::work_side_by_side;
use crate::work::Work;
use device::{Block, Meta, Parts};
use geometry::Geometry;
use std::alloc::Global;
use std::sync::Wait;
use std::thread::Threads;
use volume_format::{FormatFault, format};
use volume_law::{format_law, mount_law};

/// Writes a volume without files to the parts of a device that has the size of the geometry, mounts it, does the work on it, and
/// leaves it, as `work_on`: the work begins with no pass.
///
/// Each fault hands the parts back. At Format and at Mount it is NoMemory, or Device where the device failed; the later ones are
/// those of `work_on`.
pub fn work_on_new<M: Meta, B: Block + Drop, R: Wait, W: Work<M, B> + Drop>(
    rt: &R,
    alloc: Global,
    parts: Parts<M, B>,
    geometry: Geometry,
    leave: Leave,
    work: W,
) -> Result<Done<M, B, W::Output>, LeaveFault<M, B>>
    requires size { HasSize M.seen B.address_of B.content_of geometry parts }
    ensures done { IfOk result (λ done. EndedWith M.seen M.may_leave B.address_of B.content_of (λ after. W.post work geometry [] done.output after) leave geometry done.parts) }
    ensures again { IfOk result (λ done. (bytes : ℕ) × IsBlockRun B.address_of B.content_of bytes 1 done.parts.blocks.items) }
    ensures early { IfErr result (λ fault. (fault.stage ≡ AtFormat) ⊎ (fault.stage ≡ AtMount) → IsOfRead fault.error) }
    ensures size_back { IfErr result (λ fault. HasSize M.seen B.address_of B.content_of geometry fault.parts) }
    ensures failed { IfErr result (λ fault. fault.stage ≡ AtWork → W.failed work geometry [] fault.error) }
    ensures not_closed { IfErr result (λ fault. fault.stage ≡ AtClose → IsNotClosed fault.error) }
{
    let parts = formatted(alloc, parts, geometry)?;
    mount_law::<M, B>();
    format_law::<M, B>();
    work_on(rt, alloc, parts, leave, work)
}

/// Writes a volume without files to the parts of a device that has the size of the geometry, mounts it, does works on it side by
/// side, and leaves it, as `work_side_by_side`: none of the works is given a pass.
///
/// Each fault hands the parts back, as one of `work_on_new`.
pub fn work_side_by_side_on_new<
    M: Meta + Send,
    B: SharedBlock,
    R: Threads + Wait + Sync,
    W: Work<M, B> + Drop + Send,
>(
    rt: &R,
    alloc: Global,
    parts: Parts<M, B>,
    geometry: Geometry,
    leave: Leave,
    works: Vec<Beside<W>>,
) -> Result<Done<M, B, Vec<W::Output>>, LeaveFault<M, B>>
where
    W::Output: Send,
    requires size { HasSize M.seen B.address_of B.content_of geometry parts }
    ensures done { IfOk result (λ done. EndedWith M.seen M.may_leave B.address_of B.content_of (λ after. AreDoneBeside W.post geometry works.items [] done.output.items after) leave geometry done.parts) }
    ensures again { IfOk result (λ done. (bytes : ℕ) × IsBlockRun B.address_of B.content_of bytes 1 done.parts.blocks.items) }
    ensures early { IfErr result (λ fault. (fault.stage ≡ AtFormat) ⊎ (fault.stage ≡ AtMount) → IsOfRead fault.error) }
    ensures size_back { IfErr result (λ fault. HasSize M.seen B.address_of B.content_of geometry fault.parts) }
    ensures failed { IfErr result (λ fault. fault.stage ≡ AtWork → HaveFailed W.failed geometry works.items [] fault.error) }
    ensures not_closed { IfErr result (λ fault. fault.stage ≡ AtClose → IsNotClosed fault.error) }
{
    let parts = formatted(alloc, parts, geometry)?;
    mount_law::<M, B>();
    format_law::<M, B>();
    work_side_by_side(rt, alloc, parts, leave, works)
}

// Writes a volume without files.
fn formatted<M: Meta, B: Block>(
    alloc: Global,
    parts: Parts<M, B>,
    geometry: Geometry,
) -> Result<Parts<M, B>, LeaveFault<M, B>>
    requires size { HasSize M.seen B.address_of B.content_of geometry parts }
    ensures mountable { IfOk result (λ written. IsMountable M.seen M.may_leave B.address_of B.content_of geometry (empty_image geometry) written) }
    ensures blocks { IfOk result (λ written. written.blocks ≡ parts.blocks) }
    ensures stage { IfErr result (λ fault. fault.stage ≡ AtFormat) }
    ensures error { IfErr result (λ fault. IsOfRead fault.error) }
    ensures size_back { IfErr result (λ fault. HasSize M.seen B.address_of B.content_of geometry fault.parts) }
{
    match format(alloc, parts, geometry) {
        Ok(parts) => Ok(parts),
        Err(FormatFault { parts, error }) => Err(LeaveFault {
            parts,
            stage: Stage::Format,
            error,
        }),
    }
}
