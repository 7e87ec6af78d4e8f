//! The first pack of an area.
ghost use Rattle.std.specs.Prelude.{ℕ, ◌≡◌, ◌≤◌, ◌<◌, ◌+◌, [], ◌∷◌, None, length, IfOk, IfErr, OnOk};
ghost use Rattle.geometry.specs.Area.{meta_bytes};
ghost use Rattle.device.specs.Disk.{Only, HasCause};
ghost use Rattle.image.specs.Slots.{version_of};
ghost use Rattle.geometry.specs.declared.packing.Packing.TheVariants.{Slots, Pages};
ghost use Rattle.packs.specs.Area.{reading_of, slots_reading, pages_reading};
ghost use Rattle.packs.specs.Parts.{body_bytes as bytes_of_body};
ghost use Rattle.packs.specs.Device.{IsArea, IsSameArea, IsKnown, AreSettled, body_of};

use crate::area::footer_at;
use crate::{Known, Packs, WrittenPack};
use device::{DeviceError, Meta};
use geometry::{Geometry, Packing};
use packs_journal::{HEAD_BYTES, KnownPages, PageSet};

impl<M: Meta> Packs<M> {
    /// Writes version 1 into an area with any bytes in its slots. Answers DeviceError where the device failed, and hands
    /// the area back; the bytes in its slots are then any. Nothing is said of a crash in it.
    pub fn begin(
        meta: M,
        geometry: &Geometry,
        body: &[u8],
    ) -> Result<(Packs<M>, WrittenPack<M>), (DeviceError, M)>
        requires area { length (M.seen meta) ≡ meta_bytes geometry.now }
        requires len { length body.now ≡ bytes_of_body geometry.now }
        requires first { version_of body.now ≡ 1 }

        ensures settled { IfOk result (λ made. AreSettled (reading_of made.0.geometry) M.seen M.may_leave made.0 body.now) }
        ensures body { IfOk result (λ made. body_of (reading_of made.0.geometry) M.seen made.0 ≡ body.now) }
        ensures stored { IfOk result (λ made. made.1.shown.items ≡ (made.0, made.0.version) ∷ []) }
        ensures geometry { IfOk result (λ made. made.0.geometry ≡ geometry.now) }
        ensures same { IfOk result (λ made. IsSameArea (M.seen meta) (M.seen made.0.meta)) }
        ensures same_err { IfErr result (λ e. IsSameArea (M.seen meta) (M.seen e.1)) }
        ensures failures { IfOk result (λ made. M.failed meta ≤ M.failed made.0.meta) }
        ensures device { IfErr result (λ e. M.failed meta < M.failed e.1) }
    {
        let mut packs = Packs {
            meta,
            geometry: *geometry,
            version: 0,
            known: Known::nothing(),
        };
        match packs.write_first(body) {
            Ok(()) => {
                let stored = WrittenPack::of(&packs);
                Ok((packs, stored))
            }
            Err(error) => Err((error, packs.meta)),
        }
    }

    // Slot 0 has no sound pack once its footer is 0, and version 1 lies in slot 1.
    fn write_first(&mut self, body: &[u8]) -> Result<(), DeviceError>
        requires area { IsArea self.old.geometry (M.seen self.old.meta) }
        requires fresh { (self.old.version ≡ 0) × (self.old.known.map ≡ None) }
        requires len { length body.now ≡ bytes_of_body self.old.geometry }
        requires first { version_of body.now ≡ 1 }
        ensures settled { OnOk result (AreSettled (reading_of self.new.geometry) M.seen M.may_leave self.new body.now) }
        ensures same { IsSameArea (M.seen self.old.meta) (M.seen self.new.meta) }
        ensures geometry { self.new.geometry ≡ self.old.geometry }
        ensures cause { HasCause (M.failed self.old.meta) (M.failed self.new.meta) result }
    {
        self.meta.write(footer_at(&self.geometry, 0), &[0; 4])?;
        self.meta.sync()?;
        let known = self.stage_first(body)?;
        self.meta
            .write(footer_at(&self.geometry, 1), &[1, 0, 0, 0])?;
        self.meta.sync()?;
        self.version = 1;
        self.known = known;
        Ok(())
    }

    // Settles the first body, all but its footer.
    fn stage_first(&mut self, body: &[u8]) -> Result<Known, DeviceError>
        requires area { IsArea self.old.geometry (M.seen self.old.meta) }
        requires fresh { (self.old.version ≡ 0) × (self.old.known.map ≡ None) }
        requires len { length body.now ≡ bytes_of_body self.old.geometry }
        ensures staged { OnOk result ((reading_of self.new.geometry).body 1 (M.seen self.new.meta) ≡ body.now) }
        ensures known { IfOk result (λ known. IsKnown self.new.geometry 1 known (M.seen self.new.meta)) }
        ensures footers { (slot : ℕ) → slot < 2 → (reading_of self.new.geometry).footer slot (M.seen self.new.meta) ≡ (reading_of self.old.geometry).footer slot (M.seen self.old.meta) }
        ensures durable { OnOk result (Only (M.seen self.new.meta) (M.may_leave self.new.meta)) }
        ensures same { IsSameArea (M.seen self.old.meta) (M.seen self.new.meta) }
        ensures rest { self.new ≡ record self.old { meta = self.new.meta } }
        ensures cause { HasCause (M.failed self.old.meta) (M.failed self.new.meta) result }
    {
        match self.geometry.packing {
            Packing::Slots => self.put_first_parts(body),
            Packing::Pages => self.put_first_pages(body),
        }
    }

    // The same, of packs in slots.
    fn put_first_parts(&mut self, body: &[u8]) -> Result<Known, DeviceError>
        requires slots { self.old.geometry.packing ≡ Slots }
        requires area { IsArea self.old.geometry (M.seen self.old.meta) }
        requires fresh { (self.old.version ≡ 0) × (self.old.known.map ≡ None) }
        requires len { length body.now ≡ bytes_of_body self.old.geometry }
        ensures staged { OnOk result ((slots_reading self.new.geometry).body 1 (M.seen self.new.meta) ≡ body.now) }
        ensures known { IfOk result (λ known. IsKnown self.new.geometry 1 known (M.seen self.new.meta)) }
        ensures footers { (slot : ℕ) → slot < 2 → (slots_reading self.new.geometry).footer slot (M.seen self.new.meta) ≡ (slots_reading self.old.geometry).footer slot (M.seen self.old.meta) }
        ensures durable { OnOk result (Only (M.seen self.new.meta) (M.may_leave self.new.meta)) }
        ensures same { IsSameArea (M.seen self.old.meta) (M.seen self.new.meta) }
        ensures rest { self.new ≡ record self.old { meta = self.new.meta } }
        ensures cause { HasCause (M.failed self.old.meta) (M.failed self.new.meta) result }
    {
        let known = self.put_parts(body)?;
        Ok(known)
    }

    // The same, of packs in pages.
    fn put_first_pages(&mut self, body: &[u8]) -> Result<Known, DeviceError>
        requires pages { self.old.geometry.packing ≡ Pages }
        requires area { IsArea self.old.geometry (M.seen self.old.meta) }
        requires len { length body.now ≡ bytes_of_body self.old.geometry }
        ensures staged { OnOk result ((pages_reading self.new.geometry).body 1 (M.seen self.new.meta) ≡ body.now) }
        ensures known { IfOk result (λ known. IsKnown self.new.geometry 1 known (M.seen self.new.meta)) }
        ensures footers { (slot : ℕ) → slot < 2 → (pages_reading self.new.geometry).footer slot (M.seen self.new.meta) ≡ (pages_reading self.old.geometry).footer slot (M.seen self.old.meta) }
        ensures durable { OnOk result (Only (M.seen self.new.meta) (M.may_leave self.new.meta)) }
        ensures same { IsSameArea (M.seen self.old.meta) (M.seen self.new.meta) }
        ensures rest { self.new ≡ record self.old { meta = self.new.meta } }
        ensures cause { HasCause (M.failed self.old.meta) (M.failed self.new.meta) result }
    {
        // A head of zeros names the first copies.
        self.meta
            .write(packs_journal::head_at(0), &[0; HEAD_BYTES])?;
        self.meta.sync()?;
        let mut pages = KnownPages::nothing();
        packs_journal::stage(&mut self.meta, 0, &mut pages, &PageSet::all(), body)?;
        Ok(Known { map: None, pages })
    }
}
