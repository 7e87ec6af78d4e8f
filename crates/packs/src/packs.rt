//! A pack is written where the picked one does not lie: all but its footer is settled before its footer is touched.
ghost use Rattle.std.specs.Prelude.{◌≡◌, ◌<◌, ◌+◌, ℕ, [], ◌∷◌, None, true, replicate, length, OnOk, IfOk};
ghost use Rattle.packs_journal.specs.Places.{map_bytes, map_pages};
ghost use Rattle.device.specs.Disk.{LeavesOnly, IsQuiet, HasCause};
ghost use Rattle.image.specs.Slots.{version_of};
ghost use Rattle.packs.specs.Pack.{IsSettled, Between};
ghost use Rattle.geometry.specs.declared.packing.Packing.TheVariants.{Slots, Pages};
ghost use Rattle.packs.specs.Area.{reading_of, slots_reading, pages_reading};
ghost use Rattle.packs.specs.Parts.{body_bytes as bytes_of_body, format_of, newest_format};
ghost use Rattle.packs.specs.Device.{IsSameArea, KeepsArea, AreSettled, AreStaged, body_of, staged_in};
ghost use Rattle.packs_journal.specs.Pages.{has_page, ChangesIn};

use crate::WrittenPack;
use crate::area::footer_at;
use crate::map::Map;
use byteorder::{ByteOrder, LittleEndian};
use device::{DeviceError, Meta};
use geometry::{Geometry, Packing};
use packs_journal::{KnownPages, PageSet};

/// The two packs of a meta area, of which one counts.
#[derive(Drop)]
pub struct Packs<M> {
    pub meta: M,
    /// The numbers of the volume, by which a pack's parts have their places.
    pub geometry: Geometry,
    /// The version of the pack that counts.
    pub version: u32,
    /// What is known of where the parts or the pages of the pack that counts lie.
    pub known: Known,
}

/// What is known of where the parts or the pages of a pack lie.
#[derive(Clone, Copy)]
pub struct Known {
    /// The map of a pack in slots, if it is one.
    pub map: Option<Map>,
    /// What is known of the pages of a pack in pages: which copy of each counts, and in which the body may differ from it.
    pub pages: KnownPages,
}

impl Known {
    /// Nothing.
    pub(crate) fn nothing() -> Known
        ensures map { result.map ≡ None }
        ensures pages { result.pages.map ≡ replicate map_bytes 0 }
        ensures noted { (k : ℕ) → k < map_pages → has_page result.pages.noted k ≡ true }
    {
        Known {
            map: None,
            pages: KnownPages::nothing(),
        }
    }
}

impl<M: Meta> Packs<M> {
    /// The format of the pack that counts: 1 where it was written whole, 2 where in parts, 3 where in pages.
    pub fn format(&self) -> u32
        ensures { result ≡ format_of self.now.geometry.packing self.now.known.map }
    {
        match self.geometry.packing {
            Packing::Slots => match &self.known.map {
                Some(map) if map.in_parts => 2,
                _ => 1,
            },
            Packing::Pages => 3,
        }
    }

    /// Writes the next pack; then a sync, the footer, and a sync. Of a pack in slots its map, header and logs, each part of the two
    /// tables that differs from that of the pack that counts, and the summaries are written; of one in pages a head, and where its
    /// journal has no room each page that differs. After an Ok it is the one that counts whatever crash
    /// comes. Answers DeviceError where the device failed; then it is not known which of the two counts, and the area has
    /// to be opened again.
    ///
    /// Of packs in pages the body has to be that of the pack that counts in each page that is not touched; of the pages that are
    /// neither touched nor in the journal of that pack nothing is read. Of packs in slots `touched` is not looked at.
    pub fn write(&mut self, body: &[u8], touched: &PageSet) -> Result<WrittenPack<M>, DeviceError>
        requires settled { let reading = reading_of self.old.geometry in
            AreSettled reading M.seen M.may_leave self.old (body_of reading M.seen self.old) }
        requires len { length body.now ≡ bytes_of_body self.old.geometry }
        requires next { version_of body.now ≡ self.old.version + 1 }
        requires changes { self.old.geometry.packing ≡ Pages
            → ChangesIn touched.now (bytes_of_body self.old.geometry) (body_of (reading_of self.old.geometry) M.seen self.old) body.now }

        ensures settled { OnOk result (AreSettled (reading_of self.new.geometry) M.seen M.may_leave self.new body.now) }

        ensures body { OnOk result (body_of (reading_of self.new.geometry) M.seen self.new ≡ body.now) }
        ensures stored { IfOk result (λ stored. stored.shown.items ≡ (self.new, self.new.version) ∷ []) }
        ensures format { OnOk result (format_of self.new.geometry.packing self.new.known.map ≡ newest_format self.new.geometry.packing) }

        // A crash at any moment of the call leaves the old pack or the new one, also where it fails.
        ensures any_moment { LeavesOnly M.moment M.left_since self.old.meta self.new.meta
            (let reading = reading_of self.old.geometry in
            KeepsArea (M.seen self.old.meta) (Between reading (body_of reading M.seen self.old) body.now)) }

        ensures same { IsSameArea (M.seen self.old.meta) (M.seen self.new.meta) }
        ensures geometry { self.new.geometry ≡ self.old.geometry }
        ensures cause { HasCause (M.failed self.old.meta) (M.failed self.new.meta) result }
    {
        let version = LittleEndian::read_u32(body);
        let known = self.stage(body, touched)?;
        self.commit(version, known)?;
        Ok(WrittenPack::of(self))
    }

    // Settles a body as the other pack, and tells what is known of it. Both footers stay, and so does the picked pack.
    fn stage(&mut self, body: &[u8], touched: &PageSet) -> Result<Known, DeviceError>
        requires settled { let reading = reading_of self.old.geometry in
            AreSettled reading M.seen M.may_leave self.old (body_of reading M.seen self.old) }
        requires len { length body.now ≡ bytes_of_body self.old.geometry }
        requires changes { self.old.geometry.packing ≡ Pages
            → ChangesIn touched.now (bytes_of_body self.old.geometry) (body_of (reading_of self.old.geometry) M.seen self.old) body.now }
        ensures staged { IfOk result (λ known. AreStaged (reading_of self.new.geometry) M.seen M.may_leave self.new
            (body_of (reading_of self.old.geometry) M.seen self.old) body.now known) }
        ensures format { IfOk result (λ known. format_of self.old.geometry.packing known.map ≡ newest_format self.old.geometry.packing) }
        ensures any_moment { LeavesOnly M.moment M.left_since self.old.meta self.new.meta
            (let reading = reading_of self.old.geometry in
            KeepsArea (M.seen self.old.meta) (IsSettled reading (body_of reading M.seen self.old))) }
        ensures same { IsSameArea (M.seen self.old.meta) (M.seen self.new.meta) }
        ensures rest { self.new ≡ record self.old { meta = self.new.meta } }
        ensures cause { HasCause (M.failed self.old.meta) (M.failed self.new.meta) result }
    {
        match self.geometry.packing {
            Packing::Slots => self.stage_parts(body),
            Packing::Pages => self.stage_pages(body, touched),
        }
    }

    // The same, of packs in slots.
    pub(crate) fn stage_parts(&mut self, body: &[u8]) -> Result<Known, DeviceError>
        requires slots { self.old.geometry.packing ≡ Slots }
        requires settled { let reading = slots_reading self.old.geometry in
            AreSettled reading M.seen M.may_leave self.old (body_of reading M.seen self.old) }
        requires len { length body.now ≡ bytes_of_body self.old.geometry }
        ensures staged { IfOk result (λ known. AreStaged (slots_reading self.new.geometry) M.seen M.may_leave self.new
            (body_of (slots_reading self.old.geometry) M.seen self.old) body.now known) }
        ensures format { IfOk result (λ known. format_of Slots known.map ≡ 2) }
        ensures any_moment { LeavesOnly M.moment M.left_since self.old.meta self.new.meta
            (let reading = slots_reading self.old.geometry in
            KeepsArea (M.seen self.old.meta) (IsSettled reading (body_of reading M.seen self.old))) }
        ensures same { IsSameArea (M.seen self.old.meta) (M.seen self.new.meta) }
        ensures rest { self.new ≡ record self.old { meta = self.new.meta } }
        ensures cause { HasCause (M.failed self.old.meta) (M.failed self.new.meta) result }
    {
        let known = self.put_parts(body)?;
        Ok(known)
    }

    // The same, of packs in pages.
    pub(crate) fn stage_pages(
        &mut self,
        body: &[u8],
        touched: &PageSet,
    ) -> Result<Known, DeviceError>
        requires pages { self.old.geometry.packing ≡ Pages }
        requires settled { let reading = pages_reading self.old.geometry in
            AreSettled reading M.seen M.may_leave self.old (body_of reading M.seen self.old) }
        requires len { length body.now ≡ bytes_of_body self.old.geometry }
        requires changes { ChangesIn touched.now (bytes_of_body self.old.geometry) (body_of (pages_reading self.old.geometry) M.seen self.old) body.now }
        ensures staged { IfOk result (λ known. AreStaged (pages_reading self.new.geometry) M.seen M.may_leave self.new
            (body_of (pages_reading self.old.geometry) M.seen self.old) body.now known) }
        ensures any_moment { LeavesOnly M.moment M.left_since self.old.meta self.new.meta
            (let reading = pages_reading self.old.geometry in
            KeepsArea (M.seen self.old.meta) (IsSettled reading (body_of reading M.seen self.old))) }
        ensures same { IsSameArea (M.seen self.old.meta) (M.seen self.new.meta) }
        ensures rest { self.new ≡ record self.old { meta = self.new.meta } }
        ensures cause { HasCause (M.failed self.old.meta) (M.failed self.new.meta) result }
    {
        let mut pages = self.known.pages;
        packs_journal::stage(&mut self.meta, self.version % 2, &mut pages, touched, body)?;
        Ok(Known { map: None, pages })
    }

    // Makes the body that is staged count.
    fn commit(&mut self, version: u32, known: Known) -> Result<(), DeviceError>
        requires staged { let reading = reading_of self.old.geometry in
            AreStaged reading M.seen M.may_leave self.old (body_of reading M.seen self.old) (staged_in reading M.seen self.old) known }
        requires version { version ≡ version_of (staged_in (reading_of self.old.geometry) M.seen self.old) }
        requires next { version ≡ self.old.version + 1 }
        ensures settled { OnOk result (AreSettled (reading_of self.new.geometry) M.seen M.may_leave self.new
            (staged_in (reading_of self.old.geometry) M.seen self.old)) }
        ensures any_moment { LeavesOnly M.moment M.left_since self.old.meta self.new.meta
            (let reading = reading_of self.old.geometry in
            KeepsArea (M.seen self.old.meta) (Between reading (body_of reading M.seen self.old) (staged_in reading M.seen self.old))) }
        ensures same { IsSameArea (M.seen self.old.meta) (M.seen self.new.meta) }
        ensures geometry { self.new.geometry ≡ self.old.geometry }
        ensures known { OnOk result (self.new.known ≡ known) }
        ensures cause { HasCause (M.failed self.old.meta) (M.failed self.new.meta) result }
    {
        let mut footer = [0u8; 4];
        LittleEndian::write_u32(&mut footer, version);
        let at = footer_at(&self.geometry, 1 - self.version % 2);
        self.meta.write(at, &footer)?;
        self.meta.sync()?;
        self.version = version;
        self.known = known;
        Ok(())
    }
}
