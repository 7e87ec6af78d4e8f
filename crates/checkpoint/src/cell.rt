//! What a checkpoint needs, in its lock.
ghost use Rattle.std.specs.Prelude.{◌≡◌, ◌≤◌, ◌+◌, ◌^◌, ◌-◌, ◌<◌, ◌⊎◌, ◌∷◌, ℕ, [], true, false, All, length, vec_capacity, OnOk, IfOk, IfErr};
ghost use Rattle.packs_journal.specs.Places.{map_pages};
ghost use Rattle.geometry.specs.Area.{meta_bytes};
ghost use Rattle.geometry.specs.declared.error.Error.TheVariants.{BadGeometry, Device, Wounded, Exhausted};
ghost use Rattle.image.specs.Image.{Image};
ghost use Rattle.image.specs.Rules.{IsLawful};
ghost use Rattle.checkpoint_image.specs.View.{taken_view};
ghost use Rattle.checkpoint.specs.Holding.{AreWhole, IsInPack, IsShownOver, IsWrittenOver, counting_body};
ghost use Rattle.pack_tables.specs.Holding.{HoldsTables};
ghost use Rattle.device.specs.Disk.{Leaves};
ghost use Rattle.pack_tables.specs.Grammar.{HasSuper};
ghost use Rattle.checkpoint.specs.Standing.{HasVolume};
ghost use Rattle.image.specs.Pack.{body_bytes, pack_body};
ghost use Rattle.packs_journal.specs.Pages.{has_page, ChangesIn};

use crate::slips::end_slips;
use crate::{ImagePacks, Stored, Taken};
use checkpoint_image::KeptBody;
use device::{Block, Meta};
use geometry::Error;
use packs::Packs;
use pool::PoolPass;
use rights_permits::VolumeName;
use words::{CheckpointSeat, FreeSlip, Words};

/// What a checkpoint needs: the two packs of the meta area, the right to advance the version, and with what it gives free
/// segments back.
///
/// Whatever crash comes leaves the superblock of the volume's numbers and a pack that counts, which spells a lawful image. Until a
/// pack write fails the packs are whole: it is always the same pack, and its version is complete.
pub struct PacksCell<V: VolumeName, M: Meta> {
    // The version is advanced by `store` alone, once the next pack is the one that counts: so no segment that this pack no
    // longer names is free before.
    pub(crate) packs: ImagePacks<M>,
    // Whether a pack write failed: it is not known then which pack counts.
    pub(crate) wounded: bool,
    // The right to advance the version.
    pub(crate) checkpoint: CheckpointSeat,
    /// With which it puts the slips of free segments into the pool.
    pub pass: PoolPass<V::Words, V::Pool>,
    /// The slips that the pool did not take.
    pub kept: Vec<FreeSlip>,
    /// The body of the pack that was written last, with the rows that it spells.
    pub body: KeptBody,
    pub ghost size: { length (M.seen packs.area.meta) ≡ meta_bytes V.Numbers.geometry },
    pub ghost numbers: { packs.geometry ≡ V.Numbers.geometry },
    pub ghost of_words: { checkpoint.table ≡ V.Words.words },
    pub ghost whole: { wounded ≡ false → AreWhole M.seen M.may_leave packs },
    pub ghost front: { HasSuper V.Numbers.geometry (M.seen packs.area.meta) },
    pub ghost counts: { Leaves M.may_leave packs.area.meta (HasVolume V.Numbers.geometry) },
    pub ghost complete: { wounded ≡ false → checkpoint.version ≡ packs.area.version },
    pub ghost slips: { All (λ slip. (slip.table ≡ V.Words.words) × (slip.segment < V.Numbers.geometry.segments)) kept.items },
    pub ghost room: { V.Numbers.geometry.segments ≤ vec_capacity kept },
    pub ghost of_rows: { body.rows ≡ V.Books.rows },
    pub ghost of_numbers: { body.geometry ≡ V.Numbers.geometry },
    pub ghost touched: { wounded ≡ false → ChangesIn body.body.touched (body_bytes V.Numbers.geometry) (counting_body M.seen packs) body.body.bytes.items },
}

impl<V: VolumeName, M: Meta> PacksCell<V, M> {
    /// What a checkpoint needs of a volume whose packs are whole.
    pub fn of(
        packs: ImagePacks<M>,
        checkpoint: CheckpointSeat,
        pass: PoolPass<V::Words, V::Pool>,
        kept: Vec<FreeSlip>,
        body: KeptBody,
    ) -> PacksCell<V, M>
        requires size { length (M.seen packs.area.meta) ≡ meta_bytes V.Numbers.geometry }
        requires numbers { packs.geometry ≡ V.Numbers.geometry }
        requires words { checkpoint.table ≡ V.Words.words }
        requires whole { AreWhole M.seen M.may_leave packs }
        requires front { HasSuper V.Numbers.geometry (M.seen packs.area.meta) }
        requires lawful { (image : Image) × IsLawful V.Numbers.geometry image × Leaves M.may_leave packs.area.meta (HoldsTables V.Numbers.geometry image) }
        requires complete { checkpoint.version ≡ packs.area.version }
        requires slips { All (λ slip. (slip.table ≡ V.Words.words) × (slip.segment < V.Numbers.geometry.segments)) kept.items }
        requires room { V.Numbers.geometry.segments ≤ vec_capacity kept }
        requires rows { body.rows ≡ V.Books.rows }
        requires body_numbers { body.geometry ≡ V.Numbers.geometry }
        requires touched { (k : ℕ) → k < map_pages → has_page body.body.touched k ≡ true }
        ensures packs { result.packs ≡ packs }
        ensures sound { result.wounded ≡ false }
    {
        PacksCell {
            packs,
            wounded: false,
            checkpoint,
            pass,
            kept,
            body,
        }
    }

    /// Whether a pack write failed: it is not known then which pack counts.
    pub fn is_wounded(&self) -> bool
        ensures { result ≡ self.now.wounded }
    {
        self.wounded
    }

    /// The version of the next pack.
    ///
    /// Answers Wounded where a pack write failed, and Exhausted where the version is the largest that there is.
    pub fn next_version(&self) -> Result<u32, Error>
        ensures next { IfOk result (λ version. (self.now.wounded ≡ false) × (version ≡ self.now.packs.area.version + 1)) }
        ensures error { IfErr result (λ error. ((error ≡ Wounded) × (self.now.wounded ≡ true))
            ⊎ ((error ≡ Exhausted) × (self.now.packs.area.version ≡ 2 ^ 32 - 1))) }
    {
        if self.wounded {
            return Err(Error::Wounded);
        }
        match self.packs.area.version.checked_add(1) {
            Some(version) => Ok(version),
            None => Err(Error::Exhausted),
        }
    }

    /// The right to advance the version.
    pub fn seat(&self) -> &CheckpointSeat
        ensures seat { result.now ≡ self.now.checkpoint }
        ensures words { result.now.table ≡ V.Words.words }
    {
        &self.checkpoint
    }

    /// Writes an image, which the kept body spells, as the next pack, and advances the version once it is the one that counts. The image borrows all permits of
    /// the volume until then.
    ///
    /// Answers BadGeometry where the image is of a volume of another shape, and then nothing has changed; and Device where the
    /// device failed: the volume is wounded then. It takes no memory.
    pub fn store<B: Block>(
        &mut self,
        words: &Words,
        taken: Taken<'_, B>,
    ) -> Result<Stored<M, B>, Error>
        requires words { words.now.table ≡ V.Words.words }
        requires permits { taken.audit.now.book ≡ V.Books.books.book }
        requires sound { self.old.wounded ≡ false }
        requires lawful { IsLawful V.Numbers.geometry (taken_view taken.recorded.image) }
        requires next { taken.recorded.image.tables.version ≡ self.old.packs.area.version + 1 }
        requires spelled { self.old.body.body.bytes.items ≡ pack_body V.Numbers.geometry.shape (taken_view taken.recorded.image) }
        ensures taken { IfOk result (λ stored. stored.taken ≡ taken.entry.recorded) }
        ensures sound { OnOk result (self.new.wounded ≡ false) }
        ensures written { IfOk result (λ stored. IsInPack M.may_leave V.Numbers.geometry (taken_view taken.entry.recorded.image) stored.pack.shown.items) }
        ensures complete { OnOk result (self.new.checkpoint.version ≡ taken.entry.recorded.image.tables.version) }
        ensures held { OnOk result (Leaves M.may_leave self.new.packs.area.meta (HoldsTables V.Numbers.geometry (taken_view taken.entry.recorded.image))) }
        // A crash at any moment of the call leaves the old pack or the new one, also where it fails.
        ensures any_moment { IsWrittenOver M.seen M.moment M.left_since self.old.packs self.new.packs.area.meta (taken_view taken.entry.recorded.image) }
        ensures shown_over { IfOk result (λ stored. IsShownOver M.seen M.may_leave M.moment M.left_since V.Numbers.geometry (taken_view taken.entry.recorded.image) stored.pack.shown.items) }
        ensures area { IfOk result (λ stored. stored.pack.shown.items ≡ (self.new.packs.area, self.new.packs.area.version) ∷ []) }
        ensures error { IfErr result (λ error. ((error ≡ BadGeometry) × (self.new.wounded ≡ false)) ⊎ ((error ≡ Device) × (self.new.wounded ≡ true))) }
        ensures other { IfErr result (λ error. error ≡ BadGeometry → taken.entry.recorded.image.geometry.shape ≡ V.Numbers.geometry.shape → ⊥) }
        ensures unchanged { IfErr result (λ error. error ≡ BadGeometry → self.new.packs ≡ self.old.packs) }
        // A version is complete only once its pack is on the device.
        ensures refused { IfErr result (λ error. self.new.checkpoint ≡ self.old.checkpoint) }
        ensures slips { (self.new.pass ≡ self.old.pass) × (self.new.kept ≡ self.old.kept) }
    {
        let Taken { recorded, audit: _ } = taken;
        // A version fits its field.
        let _version = recorded.tables().version;
        match self.packs.write(recorded, &self.body.body) {
            Ok(stored) => {
                self.body.settle();
                words.advance(&mut self.checkpoint);
                Ok(stored)
            }
            Err(Error::BadGeometry) => Err(Error::BadGeometry),
            Err(error) => {
                self.wounded = true;
                Err(error)
            }
        }
    }

    /// The meta area alone.
    pub fn into_meta(self) -> M
        ensures meta { result ≡ self.packs.area.meta }
        ensures size { length (M.seen result) ≡ meta_bytes V.Numbers.geometry }
        ensures counts { Leaves M.may_leave result (HasVolume V.Numbers.geometry) }
    {
        let PacksCell {
            packs,
            wounded: _,
            checkpoint: _,
            pass: _,
            kept,
            body: _,
        } = self;
        end_slips(kept);
        let ImagePacks { area, geometry: _ } = packs;
        let Packs {
            meta,
            geometry: _,
            version: _,
            known: _,
        } = area;
        meta
    }
}
