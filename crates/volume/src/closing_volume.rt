//! How a volume is closed.
ghost use Rattle.std.specs.Prelude.{◌≡◌, ◌⊎◌, ◌≤◌, vec_len, IfOk, IfErr};
ghost use Rattle.image.specs.Files.{files as files_of};
ghost use Rattle.checkpoint.specs.Holding.{WasWrittenOver};
ghost use Rattle.checkpoint_image.specs.View.{taken_view};
ghost use Rattle.image_codec.specs.Blocks.{bytes_at};
ghost use Rattle.volume_format.specs.Mountable.{IsMountable};
ghost use Rattle.close_area.specs.Shown.{AreShown};
ghost use Rattle.close_area.specs.Refused.{IsNotWritten};
ghost use Rattle.volume.specs.Leaving.{IsLeftOut};

use crate::cells::SpareCell;
use crate::leaving::CloseFault;
use crate::volume::Volume;
use checkpoint_image::TakenImage;
use close_area::{Last, close_area, write_last};
use device::{Block, Meta, Parts};
use file_cells::{FilePass, Seat};
use rights_permits::VolumeName;
use std::sync::{Mutex, Wait};

/// What a close hands back: the parts of the device, and the image that stands on them.
pub struct Closed<M: Meta, B: Block> {
    pub parts: Parts<M, B>,
    pub image: TakenImage,
}

impl<V: VolumeName, M: Meta, B: Block + Drop> Volume<V, M, B> {
    /// Closes the volume with a last checkpoint, and hands back the parts of the device. The files of the image over their
    /// blocks are exactly what the passes show, so a mount of the parts has these files again, whatever was migrated (Linux
    /// `filesystems/f2fs`, checkpoint).
    ///
    /// Answers PassesOut where fewer passes are handed in than there are files, with how many are missing, and then SeatsOut
    /// where fewer seats are handed in than the 64 of the volume. Then, as a sync, Wounded where a pack write failed before,
    /// Exhausted where the version is the largest that there is, NoMemory where a growth was refused, NoSpace where a log has
    /// no open segment for a node and none is free, and Device where the device failed; only where that was in the pack
    /// write is the volume wounded. All that was handed in comes back, and what the files are stays.
    pub fn close<R: Wait>(
        self,
        rt: &R,
        seats: Vec<Seat<V>>,
        passes: Vec<FilePass<V>>,
    ) -> Result<Closed<M, B>, CloseFault<V, M, B>>
        ensures mountable { IfOk result (λ closed. IsMountable M.seen M.may_leave B.address_of B.content_of V.Numbers.geometry (taken_view closed.image) closed.parts) }
        ensures files { IfOk result (λ closed. AreShown (files_of V.Numbers.geometry (taken_view closed.image) (bytes_at B.content_of closed.parts.blocks.items)) passes.items) }
        // A crash at any moment of the pack write leaves the pack that was there or the new one.
        ensures any_moment { IfOk result (λ closed. WasWrittenOver M.seen M.may_leave M.moment M.left_since V.Numbers.geometry closed.parts.meta (taken_view closed.image)) }
        ensures complete { IfOk result (λ closed. 64 ≤ vec_len seats) }
        ensures base { IfErr result (λ fault. fault.volume.base ≡ self.base) }
        // What lies under the locks of its files and its packs is not told.
        ensures area { IfErr result (λ fault. fault.volume.area ≡ self.area) }
        ensures spare { IfErr result (λ fault. fault.volume.spare ≡ self.spare) }
        ensures seats { IfErr result (λ fault. fault.seats.items ≡ seats.items) }
        ensures passes { IfErr result (λ fault. fault.passes.items ≡ passes.items) }
        ensures error { IfErr result (λ fault. IsLeftOut (vec_len seats) fault.error ⊎ IsNotWritten fault.error) }
    {
        if let Some(error) = self.find_missing(rt, seats.as_slice(), passes.len()) {
            return Err(CloseFault::of(self, seats, passes, error));
        }
        let Volume {
            alloc,
            area,
            files,
            packs,
            spare,
            base,
        } = self;
        let mut packs = packs.into_inner();
        match write_last(rt, alloc, &area, files, &mut packs, passes.len()) {
            Ok(last) => {
                let Last { all, files, image } = last;
                let SpareCell { rows, accounts } = spare.into_inner();
                let blocks = close_area(rt, area, rows, all, files, accounts, passes, &image);
                let meta = packs.into_meta();
                let parts = Parts { meta, blocks };
                Ok(Closed { parts, image })
            }
            Err((files, error)) => {
                let packs = Mutex::new(packs);
                let volume = Volume {
                    alloc,
                    area,
                    files,
                    packs,
                    spare,
                    base,
                };
                Err(CloseFault::of(volume, seats, passes, error))
            }
        }
    }
}
