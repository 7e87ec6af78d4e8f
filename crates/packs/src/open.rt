//! Finding the pack that counts, whatever a crash left, and making the area fit for the next write.
ghost use Rattle.std.specs.Prelude.{◌≡◌, ◌⊎◌, ◌≤◌, ◌<◌, ◌+◌, ◌-◌, List, ℕ, length};
ghost use Rattle.std.specs.Prelude.{true, false, Some, None, IfOk, IfErr, OnOk, MatchOption};
ghost use Rattle.byteorder.specs.Endian.{little_number};
ghost use Rattle.geometry.specs.Area.{meta_bytes};
ghost use Rattle.geometry.specs.declared.error.Error.TheVariants.{Device, NoPack};
ghost use Rattle.device.specs.Disk.{part, Only, Leaves, LeavesOnly, IsQuiet, HasCause};
ghost use Rattle.packs.specs.Pack.{picked_slot, picked, IsSettled, Between, MayClear};
ghost use Rattle.packs.specs.Area.{reading_of};
ghost use Rattle.packs.specs.Parts.{body_bytes as bytes_of_body, map_in};
ghost use Rattle.packs.specs.Device.{IsArea, IsSlots, IsSameArea, KeepsArea, AreSettled, HoldEnds, IsFound, IsKnown, body_of};

use crate::area::{body_bytes, footer_at, header_at, map_at};
use crate::choice::{Found, find};
use crate::map::{MAP, Map, read_map};
use crate::{Ends, Known, Packs};
use byteorder::{ByteOrder, LittleEndian};
use device::{DeviceError, Meta};
use geometry::{Error, Geometry, Packing};

impl<M: Meta> Packs<M> {
    /// Opens an area with any bytes in it: settles what a read gives, picks the sound pack of the higher version, and
    /// clears the other slot's footer where that is not below it, since such a footer was torn in its own write.
    ///
    /// Answers NoPack where neither pack is sound, and Device where the device failed; both hand the area back. Where a
    /// crash left the area between an old and a new pack, it stays between them at every moment of the call.
    pub fn open(meta: M, geometry: &Geometry) -> Result<Packs<M>, (Error, M)>
        requires { length (M.seen meta) ≡ meta_bytes geometry.now }

        ensures settled { IfOk result (λ packs. let reading = reading_of packs.geometry in
            AreSettled reading M.seen M.may_leave packs (body_of reading M.seen packs)) }
        ensures picked { IfOk result (λ packs. picked (reading_of geometry.now) (M.seen meta)
            ≡ Some (body_of (reading_of packs.geometry) M.seen packs)) }
        ensures geometry { IfOk result (λ packs. packs.geometry ≡ geometry.now) }

        ensures errors { IfErr result (λ e. (e.0 ≡ NoPack) ⊎ (e.0 ≡ Device)) }
        ensures no_pack { IfErr result (λ e. e.0 ≡ NoPack
            → picked (reading_of geometry.now) (M.seen meta) ≡ None) }
        // Then nothing was written.
        ensures untouched { IfErr result (λ e. e.0 ≡ NoPack → M.seen e.1 ≡ M.seen meta) }
        ensures device { IfErr result (λ e. e.0 ≡ Device → M.failed meta < M.failed e.1) }
        ensures failures { IfOk result (λ packs. M.failed meta ≤ M.failed packs.meta) }
        ensures failures_err { IfErr result (λ e. M.failed meta ≤ M.failed e.1) }

        // A crash at any moment of the call leaves the area between two packs, where one before it did.
        ensures any_moment { (old new : List ℕ) →
            let between = KeepsArea (M.seen meta) (Between (reading_of geometry.now) old new) in
            Leaves M.may_leave meta between → IfOk result (λ packs. LeavesOnly M.moment M.left_since meta packs.meta between) }
        ensures any_moment_err { (old new : List ℕ) →
            let between = KeepsArea (M.seen meta) (Between (reading_of geometry.now) old new) in
            Leaves M.may_leave meta between → IfErr result (λ e. LeavesOnly M.moment M.left_since meta e.1 between) }

        ensures same { IfOk result (λ packs. IsSameArea (M.seen meta) (M.seen packs.meta)) }
        ensures same_err { IfErr result (λ e. IsSameArea (M.seen meta) (M.seen e.1)) }
    {
        let mut packs = Packs {
            meta,
            geometry: *geometry,
            version: 0,
            known: Known::nothing(),
        };
        match packs.settle() {
            Ok(true) => Ok(packs),
            Ok(false) => Err((Error::NoPack, packs.meta)),
            Err(DeviceError) => Err((Error::Device, packs.meta)),
        }
    }

    // Finds the pack that counts, if there is one, and clears the other slot's footer where that is not below it.
    fn settle(&mut self) -> Result<bool, DeviceError>
        requires { IsArea self.old.geometry (M.seen self.old.meta) }
        ensures found { IfOk result (λ found. found ≡ true → let reading = reading_of self.new.geometry in
            AreSettled reading M.seen M.may_leave self.new (body_of reading M.seen self.new)
            × (picked (reading_of self.old.geometry) (M.seen self.old.meta) ≡ Some (body_of reading M.seen self.new))) }
        ensures none { IfOk result (λ found. found ≡ false
            → picked (reading_of self.old.geometry) (M.seen self.old.meta) ≡ None) }
        ensures untouched { IfOk result (λ found. found ≡ false → M.seen self.new.meta ≡ M.seen self.old.meta) }
        ensures any_moment { (old new : List ℕ) →
            let between = KeepsArea (M.seen self.old.meta) (Between (reading_of self.old.geometry) old new) in
            Leaves M.may_leave self.old.meta between
            → LeavesOnly M.moment M.left_since self.old.meta self.new.meta between }
        ensures geometry { self.new.geometry ≡ self.old.geometry }
        ensures same { IsSameArea (M.seen self.old.meta) (M.seen self.new.meta) }
        ensures cause { HasCause (M.failed self.old.meta) (M.failed self.new.meta) result }
    {
        let Some(found) = look(&mut self.meta, &self.geometry)? else {
            return Ok(false);
        };
        lower_other(&mut self.meta, &self.geometry, found)?;
        let known = find_known(&mut self.meta, &self.geometry, found.slot)?;
        self.known = known;
        self.version = found.version;
        Ok(true)
    }
}

// Settles what a read gives, and finds the pack that counts.
fn look<M: Meta>(meta: &mut M, geometry: &Geometry) -> Result<Option<Found>, DeviceError>
    requires { IsArea geometry.now (M.seen meta.old) }
    ensures found { IfOk result (λ found. MatchOption found (picked_slot (reading_of geometry.now) (M.seen meta.old) ≡ None)
        (λ found. IsFound (reading_of geometry.now) (M.seen meta.old) found)) }
    ensures durable { OnOk result (Only (M.seen meta.old) (M.may_leave meta.new)) }
    ensures quiet { IsQuiet M.seen M.may_leave M.moment M.left_since meta.old meta.new }
    ensures cause { HasCause (M.failed meta.old) (M.failed meta.new) result }
{
    meta.sync()?;
    let first = read_ends(meta, geometry, 0)?;
    let second = read_ends(meta, geometry, 1)?;
    Ok(find(first, second))
}

fn read_ends<M: Meta>(meta: &mut M, geometry: &Geometry, slot: u32) -> Result<Ends, DeviceError>
    requires { IsArea geometry.now (M.seen meta.old) × (slot ≤ 1) }
    ensures ends { IfOk result (λ ends. HoldEnds (reading_of geometry.now) slot (M.seen meta.old) ends) }
    ensures quiet { IsQuiet M.seen M.may_leave M.moment M.left_since meta.old meta.new }
    ensures cause { HasCause (M.failed meta.old) (M.failed meta.new) result }
{
    let header = read_number(meta, header_at(geometry, slot))?;
    let footer = read_number(meta, footer_at(geometry, slot))?;
    Ok(Ends { header, footer })
}

fn read_number<M: Meta>(meta: &mut M, at: u64) -> Result<u32, DeviceError>
    requires { at + 4 ≤ length (M.seen meta.old) }
    ensures number { IfOk result (λ number. number ≡ little_number 4 (part at 4 (M.seen meta.old))) }
    ensures quiet { IsQuiet M.seen M.may_leave M.moment M.left_since meta.old meta.new }
    ensures cause { HasCause (M.failed meta.old) (M.failed meta.new) result }
{
    let mut bytes = [0u8; 4];
    meta.read(at, &mut bytes)?;
    Ok(LittleEndian::read_u32(&bytes))
}

// What is known of a slot's pack.
fn find_known<M: Meta>(meta: &mut M, geometry: &Geometry, slot: u32) -> Result<Known, DeviceError>
    requires { IsArea geometry.now (M.seen meta.old) × (slot ≤ 1) }
    ensures known { IfOk result (λ known. IsKnown geometry.now slot known (M.seen meta.old)) }
    ensures quiet { IsQuiet M.seen M.may_leave M.moment M.left_since meta.old meta.new }
    ensures cause { HasCause (M.failed meta.old) (M.failed meta.new) result }
{
    let mut known = Known::nothing();
    match geometry.packing {
        Packing::Slots => known.map = find_map(meta, geometry, slot)?,
        Packing::Pages => {
            // Any page may have a word in the journal.
            if let Some(map) = packs_journal::find_map(meta, body_bytes(geometry), slot)? {
                known.pages.map = map;
            }
        }
    }
    Ok(known)
}

// The map of a slot, if it is one.
fn find_map<M: Meta>(
    meta: &mut M,
    geometry: &Geometry,
    slot: u32,
) -> Result<Option<Map>, DeviceError>
    requires { IsSlots (bytes_of_body geometry.now) (M.seen meta.old) × (slot ≤ 1) }
    ensures map { IfOk result (λ map. map ≡ map_in geometry.now slot (M.seen meta.old)) }
    ensures quiet { IsQuiet M.seen M.may_leave M.moment M.left_since meta.old meta.new }
    ensures cause { HasCause (M.failed meta.old) (M.failed meta.new) result }
{
    let mut bytes = [0u8; MAP];
    meta.read(map_at(slot), &mut bytes)?;
    Ok(read_map(geometry, &bytes))
}

// Settles a footer of 0 in the other slot, where its number is not below the picked version.
fn lower_other<M: Meta>(meta: &mut M, geometry: &Geometry, found: Found) -> Result<(), DeviceError>
    requires area { IsArea geometry.now (M.seen meta.old) }
    requires found { IsFound (reading_of geometry.now) (M.seen meta.old) found }
    requires durable { Only (M.seen meta.old) (M.may_leave meta.old) }
    ensures lowered { OnOk result (IsSettled (reading_of geometry.now) ((reading_of geometry.now).body found.slot (M.seen meta.old)) (M.seen meta.new)) }
    ensures durable { OnOk result (Only (M.seen meta.new) (M.may_leave meta.new)) }
    ensures any_moment { LeavesOnly M.moment M.left_since meta.old meta.new
        (KeepsArea (M.seen meta.old) (MayClear (reading_of geometry.now) found.slot (M.seen meta.old))) }
    ensures same { IsSameArea (M.seen meta.old) (M.seen meta.new) }
    ensures cause { HasCause (M.failed meta.old) (M.failed meta.new) result }
{
    if found.other < found.version {
        return Ok(());
    }
    meta.write(footer_at(geometry, 1 - found.slot), &[0; 4])?;
    meta.sync()?;
    Ok(())
}
