//! The body of a pack is put together from its parts.
ghost use Rattle.std.specs.Prelude.{◌≡◌, ◌≢◌, ◌≤◌, ◌<◌, ◌+◌, ◌-◌, suc, true, false, length, take, IfOk, OnOk, MatchOption};
ghost use Rattle.device.specs.Disk.{part, IsQuiet, HasCause};
ghost use Rattle.image.specs.Slots.{slot_of};
ghost use Rattle.geometry.specs.Area.{meta_bytes};
ghost use Rattle.geometry.specs.declared.packing.Packing.TheVariants.{Slots};
ghost use Rattle.packs.specs.Area.{reading_of, slots_reading};
ghost use Rattle.packs.specs.Parts.{body_bytes as bytes_of_body, slot_at as place_of_slot, place as place_of_part, lies as slot_of_part, map_in, assembled, gathered};
ghost use Rattle.packs.specs.Device.{AreSettled, IsSlots, body_of};

use crate::Packs;
use crate::area::{body_bytes, map_at};
use crate::map::{MAP, Map, read_map};
use crate::parts::{PARTS, part_at, place, side};
use device::{DeviceError, Meta};
use geometry::{Geometry, Packing};
use std::alloc::{AllocError, Global};

impl<M: Meta> Packs<M> {
    /// Reads the body of the pack that counts. Answers false where its map is none: then the body is shorter. Answers
    /// DeviceError where the device failed. The packs stay as they are.
    pub fn read(&mut self, out: &mut [u8]) -> Result<bool, DeviceError>
        requires settled { let reading = reading_of self.old.geometry in
            AreSettled reading M.seen M.may_leave self.old (body_of reading M.seen self.old) }
        requires len { length out.old ≡ bytes_of_body self.old.geometry }
        ensures body { IfOk result (λ found. found ≡ true → out.new ≡ body_of (reading_of self.old.geometry) M.seen self.old) }
        ensures none { IfOk result (λ found. found ≡ false
            → length (body_of (reading_of self.old.geometry) M.seen self.old) ≢ bytes_of_body self.old.geometry) }
        ensures quiet { IsQuiet M.seen M.may_leave M.moment M.left_since self.old.meta self.new.meta }
        ensures rest { self.new ≡ record self.old { meta = self.new.meta } }
        ensures cause { HasCause (M.failed self.old.meta) (M.failed self.new.meta) result }
    {
        match self.geometry.packing {
            Packing::Slots => self.read_slot(out),
            Packing::Pages => packs_journal::read_body(&mut self.meta, self.version % 2, out),
        }
    }

    // Reads the body of a pack in slots.
    fn read_slot(&mut self, out: &mut [u8]) -> Result<bool, DeviceError>
        requires slots { self.old.geometry.packing ≡ Slots }
        requires settled { let reading = slots_reading self.old.geometry in
            AreSettled reading M.seen M.may_leave self.old (body_of reading M.seen self.old) }
        requires len { length out.old ≡ bytes_of_body self.old.geometry }
        ensures body { IfOk result (λ found. found ≡ true → out.new ≡ body_of (slots_reading self.old.geometry) M.seen self.old) }
        ensures none { IfOk result (λ found. found ≡ false
            → length (body_of (slots_reading self.old.geometry) M.seen self.old) ≢ bytes_of_body self.old.geometry) }
        ensures quiet { IsQuiet M.seen M.may_leave M.moment M.left_since self.old.meta self.new.meta }
        ensures rest { self.new ≡ record self.old { meta = self.new.meta } }
        ensures cause { HasCause (M.failed self.old.meta) (M.failed self.new.meta) result }
    {
        match self.known.map {
            Some(map) => {
                self.read_parts(&map, out)?;
                Ok(true)
            }
            None => Ok(false),
        }
    }

    // Reads the parts that a map names.
    fn read_parts(&mut self, map: &Map, out: &mut [u8]) -> Result<(), DeviceError>
        requires area { IsSlots (bytes_of_body self.old.geometry) (M.seen self.old.meta) }
        requires len { length out.old ≡ bytes_of_body self.old.geometry }
        ensures read { OnOk result (out.new ≡ gathered self.old.geometry (slot_of self.old.version) map.now.sides 66 (M.seen self.old.meta)) }
        ensures quiet { IsQuiet M.seen M.may_leave M.moment M.left_since self.old.meta self.new.meta }
        ensures rest { self.new ≡ record self.old { meta = self.new.meta } }
        ensures cause { HasCause (M.failed self.old.meta) (M.failed self.new.meta) result }
    {
        for k in 0..PARTS {
            self.read_part(map, k, out)?;
        }
        Ok(())
    }

    // Reads one part of a body.
    fn read_part(&mut self, map: &Map, k: u32, out: &mut [u8]) -> Result<(), DeviceError>
        requires area { IsSlots (bytes_of_body self.old.geometry) (M.seen self.old.meta) }
        requires len { length out.old ≡ bytes_of_body self.old.geometry }
        requires within { k < 66 }
        ensures read { OnOk result (take (place_of_part self.old.geometry k) out.old
            ≡ gathered self.old.geometry (slot_of self.old.version) map.now.sides k (M.seen self.old.meta)
            → take (place_of_part self.old.geometry (suc k)) out.new
            ≡ gathered self.old.geometry (slot_of self.old.version) map.now.sides (suc k) (M.seen self.old.meta)) }
        ensures quiet { IsQuiet M.seen M.may_leave M.moment M.left_since self.old.meta self.new.meta }
        ensures rest { self.new ≡ record self.old { meta = self.new.meta } }
        ensures long { length out.new ≡ length out.old }
        ensures cause { HasCause (M.failed self.old.meta) (M.failed self.new.meta) result }
    {
        let from = place(&self.geometry, k);
        let end = place(&self.geometry, k + 1);
        let at = part_at(&self.geometry, self.version % 2, side(&map.sides, k), k);
        let (_, rest) = out.split_at_mut(from as usize);
        let (part, _) = rest.split_at_mut((end - from) as usize);
        self.meta.read(at, part)?;
        Ok(())
    }
}

/// The body of a slot's pack in the bytes of a meta area. None where the slot's map is none: then the body is shorter.
pub fn assemble(
    alloc: Global,
    geometry: &Geometry,
    area: &[u8],
    slot: u32,
) -> Result<Option<Vec<u8>>, AllocError>
    requires slot { slot ≤ 1 }
    requires long { meta_bytes geometry.now ≤ length area.now }
    ensures { IfOk result (λ found. MatchOption found (length ((reading_of geometry.now).body slot area.now) ≢ bytes_of_body geometry.now)
        (λ body. body.items ≡ (reading_of geometry.now).body slot area.now)) }
{
    match geometry.packing {
        Packing::Slots => assemble_parts(alloc, geometry, area, slot),
        Packing::Pages => packs_journal::assemble(alloc, body_bytes(geometry), area, slot),
    }
}

// The same, of packs in slots.
fn assemble_parts(
    alloc: Global,
    geometry: &Geometry,
    area: &[u8],
    slot: u32,
) -> Result<Option<Vec<u8>>, AllocError>
    requires slot { slot ≤ 1 }
    requires slots { geometry.now.packing ≡ Slots }
    requires long { meta_bytes geometry.now ≤ length area.now }
    ensures { IfOk result (λ found. MatchOption found (length (assembled geometry.now slot area.now) ≢ bytes_of_body geometry.now)
        (λ body. body.items ≡ assembled geometry.now slot area.now)) }
{
    match find_map(geometry, area, slot) {
        Some(map) => Ok(Some(parts_of(alloc, geometry, area, slot, &map)?)),
        None => Ok(None),
    }
}

// The parts that a map names, one after the other.
fn parts_of(
    alloc: Global,
    geometry: &Geometry,
    area: &[u8],
    slot: u32,
    map: &Map,
) -> Result<Vec<u8>, AllocError>
    requires slot { slot ≤ 1 }
    requires slots { geometry.now.packing ≡ Slots }
    requires long { meta_bytes geometry.now ≤ length area.now }
    ensures { IfOk result (λ body. body.items ≡ gathered geometry.now slot map.now.sides 66 area.now) }
{
    let mut body = Vec::with_capacity(alloc, body_bytes(geometry) as usize)?;
    for k in 0..PARTS {
        let piece = piece_of(geometry, area, slot, side(&map.sides, k), k);
        body.extend_from_slice(piece)?;
    }
    Ok(body)
}

// A part of a slot's pack.
fn piece_of<'a>(geometry: &Geometry, area: &'a [u8], slot: u32, other: bool, k: u32) -> &'a [u8]
    requires within { (slot ≤ 1) × (k < 66) }
    requires slots { geometry.now.packing ≡ Slots }
    requires long { meta_bytes geometry.now ≤ length area.now }
    ensures { result.now ≡ part (place_of_slot (bytes_of_body geometry.now) (slot_of_part slot other) + place_of_part geometry.now k)
        (place_of_part geometry.now (suc k) - place_of_part geometry.now k) area.now }
{
    let from = place(geometry, k);
    let end = place(geometry, k + 1);
    let at = part_at(geometry, slot, other, k);
    let (_, rest) = area.split_at(at as usize);
    let (piece, _) = rest.split_at((end - from) as usize);
    piece
}

// The map of a slot, if it is one.
fn find_map(geometry: &Geometry, area: &[u8], slot: u32) -> Option<Map>
    requires slot { slot ≤ 1 }
    requires slots { geometry.now.packing ≡ Slots }
    requires long { meta_bytes geometry.now ≤ length area.now }
    ensures { result ≡ map_in geometry.now slot area.now }
{
    let (_, rest) = area.split_at(map_at(slot) as usize);
    let (map, _) = rest.split_at(MAP);
    let mut bytes = [0u8; MAP];
    bytes.copy_from_slice(map);
    read_map(geometry, &bytes)
}
