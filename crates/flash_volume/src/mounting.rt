//! The parts of a device are mounted.
ghost use Rattle.std.specs.Prelude.{◌≡◌, ℕ, IfOk, IfErr, map};
ghost use Rattle.device.specs.Parts.{IsBlockRun};
ghost use Rattle.flash_volume.specs.Refused.{HandsBack};
ghost use Rattle.geometry.specs.declared.error.Error.TheVariants.{NoMemory};
ghost use Rattle.volume_law.specs.Lawful.{HoldsLawfulVolume};

use device::{Block, Meta, Parts};
use mount::{Mounted, mount};
use mount_reading::OpenFault;
use std::alloc::Global;

// Mounts the parts of a device: what they held, and what is handed back where no volume comes of them, as work on a volume speaks of
// both.
pub(crate) fn mount_parts<M: Meta, B: Block + Drop>(
    alloc: Global,
    parts: Parts<M, B>,
) -> Result<Mounted<M, B>, OpenFault<M, B>>
    requires run { (bytes : ℕ) × IsBlockRun B.address_of B.content_of bytes 1 parts.blocks.items }
    ensures held { IfOk result (λ mounted. HoldsLawfulVolume M.seen B.address_of B.content_of mounted.geometry mounted.image parts) }
    ensures contents { IfOk result (λ mounted. map B.content_of mounted.parts.blocks.items ≡ map B.content_of parts.blocks.items) }
    // Memory may be wanting for what is made of them.
    ensures back { IfOk result (λ mounted. HandsBack M.seen M.may_leave M.moment M.left_since M.failed B.address_of B.content_of B.failed parts mounted.parts NoMemory) }
    ensures handed_back { IfErr result (λ fault. HandsBack M.seen M.may_leave M.moment M.left_since M.failed B.address_of B.content_of B.failed parts fault.parts fault.error) }
{
    match mount(alloc, parts) {
        Ok(mounted) => Ok(mounted),
        Err(fault) => Err(fault),
    }
}
