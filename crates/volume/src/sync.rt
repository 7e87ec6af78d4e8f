//! A checkpoint of the running volume.
ghost use Rattle.std.specs.Prelude.{◌≡◌, ◌<◌, ◌+◌, ◌∷◌, [], map, reverse, vec_len, true, false, IfOk, IfErr};
ghost use Rattle.geometry.specs.Refusals.{IsOfRead, IsOfSync};
ghost use Rattle.image.specs.Rules.{IsLawful};
ghost use Rattle.checkpoint_image.specs.View.{taken_view};
ghost use Rattle.checkpoint.specs.Files.{files_of};
ghost use Rattle.checkpoint.specs.Holding.{IsInPack, IsShownOver};
ghost use Rattle.checkpoint_sync.specs.Lent.{shown_by};
ghost use Rattle.checkpoint_sync.specs.WrittenFiles.{AreWritten};

use crate::volume::Volume;
use area::{Unsettled, free_retired};
use checkpoint::{PacksCell, Stored};
use checkpoint_sync::{HeldFile, flush_files, take_volume};
use device::{Block, Meta};
use file_cells::FilePass;
use geometry::Error;
use rights_permits::{Auditing, VolumeName};
use std::sync::Wait;

impl<V: VolumeName, M: Meta, B: Block + Drop> Volume<V, M, B> {
    /// Writes a checkpoint: the marked nodes of all files, and then an image of the whole volume as the next pack. It waits for
    /// each call that is under way, and no other begins meanwhile; readers go on. With the image come the files of the passes
    /// lent, the last one first: what it has for their numbers is what the passes show. The pack that was written is shown with
    /// it: each crash right after the write leaves it as the one that counts. Then the segments that nothing names any more
    /// are freed, but for those that a reader holds (Linux `filesystems/f2fs`, checkpoint).
    ///
    /// Answers Wounded where a pack write failed before, then Exhausted where the version is the largest that there is; NoMemory
    /// where a growth was refused, NoSpace where a log has no open segment for a node and none is free or may be threaded, and Device
    /// where the device failed. What the files are stays. Only where the device failed in the pack write is the volume wounded.
    pub fn sync<R: Wait>(&self, rt: &R, passes: &[&FilePass<V>]) -> Result<Stored<M, B>, Error>
        ensures lawful { IfOk result (λ stored. IsLawful V.Numbers.geometry (taken_view stored.taken.image)) }
        ensures files { IfOk result (λ stored. files_of stored.taken.added.items ≡ reverse (map (λ pass. shown_by pass.now) passes.now)) }
        ensures written { IfOk result (λ stored. IsInPack M.may_leave V.Numbers.geometry (taken_view stored.taken.image) stored.pack.shown.items) }
        // A crash at any moment of the pack write leaves the pack that was there or the new one.
        ensures any_moment { IfOk result (λ stored. IsShownOver M.seen M.may_leave M.moment M.left_since V.Numbers.geometry (taken_view stored.taken.image) stored.pack.shown.items) }
        ensures geometry { IfOk result (λ stored. stored.taken.image.geometry ≡ V.Numbers.geometry) }
        ensures later { IfOk result (λ stored. self.now.base.version < stored.taken.image.tables.version) }
        ensures error { IfErr result IsOfSync }
    {
        let mut packs = self.packs.lock(rt);
        let version = packs.next_version()?;
        if version <= self.base.version {
            // Nothing ties the volume to what is in its lock, so the version is compared; it is always later.
            for _ in rt.forever() {}
            unreachable!();
        }
        let mut unsettled = Unsettled::new(self.alloc, self.area.geometry().segments)?;
        let mut all = self.area.turnstile().gather(rt);
        self.area.end_threads(rt, &all);
        let files = match flush_files(rt, self.alloc, &self.area, &self.files, &mut all.hand) {
            Ok(files) => files,
            Err(error) => {
                self.area.turnstile().scatter(rt, all);
                return Err(error);
            }
        };
        // Those that the nodes began, where nothing was free: what is threaded isn't cleaned.
        self.area.end_threads(rt, &all);
        let mut auditing = self.area.turnstile().audit(all);
        let stored = self.record(
            rt,
            &mut packs,
            files,
            &mut auditing,
            version,
            passes,
            &mut unsettled,
        );
        let all = self.area.turnstile().end_audit(auditing);
        self.area.turnstile().scatter(rt, all);
        stored
    }

    // Takes an image, writes it as the next pack, and frees what it lets be freed.
    fn record<R: Wait>(
        &self,
        rt: &R,
        packs: &mut PacksCell<V, M>,
        files: Vec<HeldFile<'_, V, B>>,
        auditing: &mut Auditing<V::Books, V::Turns>,
        version: u32,
        passes: &[&FilePass<V>],
        unsettled: &mut Unsettled,
    ) -> Result<Stored<M, B>, Error>
        requires fresh { auditing.old.audit ≡ record { book = V.Books.books.book; copies = [] } }
        requires files { AreWritten V.Books.books.book V.Numbers.geometry files.items }
        requires every { vec_len files ≡ V.Numbers.geometry.files }
        requires sound { packs.old.wounded ≡ false }
        requires next { version ≡ packs.old.packs.area.version + 1 }
        ensures version { IfOk result (λ stored. stored.taken.image.tables.version ≡ version) }
        ensures lawful { IfOk result (λ stored. IsLawful V.Numbers.geometry (taken_view stored.taken.image)) }
        ensures files { IfOk result (λ stored. files_of stored.taken.added.items ≡ reverse (map (λ pass. shown_by pass.now) passes.now)) }
        ensures written { IfOk result (λ stored. IsInPack M.may_leave V.Numbers.geometry (taken_view stored.taken.image) stored.pack.shown.items) }
        ensures any_moment { IfOk result (λ stored. IsShownOver M.seen M.may_leave M.moment M.left_since V.Numbers.geometry (taken_view stored.taken.image) stored.pack.shown.items) }
        ensures geometry { IfOk result (λ stored. stored.taken.image.geometry ≡ V.Numbers.geometry) }
        ensures error { IfErr result IsOfRead }
    {
        let taken = take_volume(
            rt,
            &self.area,
            files,
            auditing,
            version,
            passes,
            &mut packs.body,
            unsettled,
        )?;
        match packs.store(self.area.words(), taken) {
            Ok(stored) => {
                self.area.keep_marks(rt, packs.seat(), auditing, unsettled);
                free_retired(rt, &self.area, &mut packs.pass, &mut packs.kept, unsettled);
                Ok(stored)
            }
            Err(error) => {
                if packs.is_wounded() {
                    self.area.turnstile().wound(auditing);
                }
                Err(error)
            }
        }
    }
}
