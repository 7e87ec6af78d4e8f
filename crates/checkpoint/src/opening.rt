//! The packs of an area that was written before.
ghost use Rattle.std.specs.Prelude.{◌≡◌, ◌⊎◌, ◌<◌, ◌≤◌, List, ℕ, length, Some, None, IfOk, IfErr};
ghost use Rattle.geometry.specs.Area.{meta_bytes};
ghost use Rattle.geometry.specs.declared.error.Error.TheVariants.{Device, NoPack};
ghost use Rattle.device.specs.Disk.{Leaves, LeavesOnly};
ghost use Rattle.packs.specs.Pack.{picked, Between};
ghost use Rattle.packs.specs.Area.{reading_of};
ghost use Rattle.packs.specs.Device.{IsSameArea, KeepsArea};
ghost use Rattle.checkpoint.specs.Holding.{AreWhole, counting_body};

use crate::ImagePacks;
use device::Meta;
use geometry::{Error, Geometry};
use packs::Packs;

impl<M: Meta> ImagePacks<M> {
    /// Opens an area with any bytes in it: settles what a read gives, and finds the pack that counts.
    ///
    /// Answers NoPack where neither pack is sound, and Device where the device failed; both hand the area back. Where a
    /// crash left the area between an old and a new pack, it stays between them at every moment of the call.
    pub fn open(meta: M, geometry: Geometry) -> Result<ImagePacks<M>, (Error, M)>
        requires { length (M.seen meta) ≡ meta_bytes geometry }

        ensures whole { IfOk result (λ packs. AreWhole M.seen M.may_leave packs) }
        ensures picked { IfOk result (λ packs. picked (reading_of geometry) (M.seen meta)
            ≡ Some (counting_body M.seen packs)) }
        ensures geometry { IfOk result (λ packs. packs.geometry ≡ geometry) }

        ensures errors { IfErr result (λ e. (e.0 ≡ NoPack) ⊎ (e.0 ≡ Device)) }
        ensures no_pack { IfErr result (λ e. e.0 ≡ NoPack
            → picked (reading_of geometry) (M.seen meta) ≡ None) }
        // Then nothing was written.
        ensures untouched { IfErr result (λ e. e.0 ≡ NoPack → M.seen e.1 ≡ M.seen meta) }
        ensures device { IfErr result (λ e. e.0 ≡ Device → M.failed meta < M.failed e.1) }
        ensures failures { IfOk result (λ packs. M.failed meta ≤ M.failed packs.area.meta) }
        ensures failures_err { IfErr result (λ e. M.failed meta ≤ M.failed e.1) }

        ensures any_moment { (old new : List ℕ) →
            let between = KeepsArea (M.seen meta) (Between (reading_of geometry) old new) in
            Leaves M.may_leave meta between → IfOk result (λ packs. LeavesOnly M.moment M.left_since meta packs.area.meta between) }
        ensures any_moment_err { (old new : List ℕ) →
            let between = KeepsArea (M.seen meta) (Between (reading_of geometry) old new) in
            Leaves M.may_leave meta between → IfErr result (λ e. LeavesOnly M.moment M.left_since meta e.1 between) }

        ensures same { IfOk result (λ packs. IsSameArea (M.seen meta) (M.seen packs.area.meta)) }
        ensures same_err { IfErr result (λ e. IsSameArea (M.seen meta) (M.seen e.1)) }
    {
        match Packs::open(meta, &geometry) {
            Ok(area) => Ok(ImagePacks { area, geometry }),
            Err(refused) => Err(refused),
        }
    }
}
