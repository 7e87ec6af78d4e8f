//! All of a pack but its footer is put where the picked pack does not lie.
ghost use Rattle.std.specs.Prelude.{◌≡◌, ◌≢◌, ◌⊎◌, ◌≤◌, ◌<◌, ◌+◌, ◌-◌, ◌^◌, suc, List, ℕ, true, false, length, OnOk, IfOk};
ghost use Rattle.device.specs.Disk.{part, Only, IsQuiet, HasCause};
ghost use Rattle.image.specs.Slots.{slot_of};
ghost use Rattle.geometry.specs.declared.packing.Packing.TheVariants.{Slots};
ghost use Rattle.packs.specs.Parts.{body_bytes as bytes_of_body, known_sides, side as side_of_part, piece, place as place_of_part, map_in, assembled, format_of};
ghost use Rattle.packs.specs.Device.{IsSlots};
ghost use Rattle.packs.specs.Staging.{IsPlan, IsPut, KeepsPicked, SameEnds, body_piece};

use crate::area::map_at;
use crate::map::{Map, spell_map};
use crate::parts::{PARTS, part_at, part_of, side};
use crate::{Known, Packs};
use device::{DeviceError, Meta};

// So many bytes are compared at once.
const CHUNK: usize = 4096;

impl<M: Meta> Packs<M> {
    // Settles the next pack of slots, all but its footer, and tells what is then known of it. Both footers and the picked pack
    // stay at every moment.
    pub(crate) fn put_parts(&mut self, body: &[u8]) -> Result<Known, DeviceError>
        requires area { IsSlots (bytes_of_body self.old.geometry) (M.seen self.old.meta) }
        requires len { length body.now ≡ bytes_of_body self.old.geometry }
        ensures body { OnOk result (assembled self.old.geometry (1 - slot_of self.old.version) (M.seen self.new.meta) ≡ body.now) }
        ensures map { IfOk result (λ known. map_in self.old.geometry (1 - slot_of self.old.version) (M.seen self.new.meta) ≡ known.map) }
        ensures format { IfOk result (λ known. format_of Slots known.map ≡ 2) }
        ensures ends { SameEnds self.old.geometry (M.seen self.old.meta) (M.seen self.new.meta) }
        ensures durable { OnOk result (Only (M.seen self.new.meta) (M.may_leave self.new.meta)) }
        ensures any_moment { KeepsPicked M.moment M.left_since M.may_leave self.old self.new.meta }
        ensures rest { self.new ≡ record self.old { meta = self.new.meta } }
        ensures cause { HasCause (M.failed self.old.meta) (M.failed self.new.meta) result }
    {
        let sides = self.plan(body)?;
        self.put(body, &sides)?;
        self.meta.sync()?;
        Ok(Known {
            map: Some(Map {
                in_parts: true,
                sides,
            }),
            pages: self.known.pages,
        })
    }

    // Whether a part of the picked pack is known to lie in the other slot.
    fn known_side(&self, k: u32) -> bool
        requires { k < 66 }
        ensures side { result ≡ side_of_part (known_sides self.now.known.map) k }
        ensures few { length (known_sides self.now.known.map) ≤ 64 }
    {
        match &self.known.map {
            Some(map) => side(&map.sides, k),
            None => false,
        }
    }

    // Where the parts of the next pack are to lie: a part that equals the picked pack's stays where that lies. The area stays
    // as it is.
    fn plan(&mut self, body: &[u8]) -> Result<[bool; 64], DeviceError>
        requires area { IsSlots (bytes_of_body self.old.geometry) (M.seen self.old.meta) }
        requires len { length body.now ≡ bytes_of_body self.old.geometry }
        ensures plan { IfOk result (λ sides. IsPlan self.old.geometry (slot_of self.old.version) (known_sides self.old.known.map) sides
            body.now (M.seen self.old.meta)) }
        ensures quiet { IsQuiet M.seen M.may_leave M.moment M.left_since self.old.meta self.new.meta }
        ensures rest { self.new ≡ record self.old { meta = self.new.meta } }
        ensures cause { HasCause (M.failed self.old.meta) (M.failed self.new.meta) result }
    {
        // A map has a side for each part of the two tables, and no more.
        let _last = self.known_side(65);
        let mut sides = [false; 64];
        for k in 0..64usize {
            sides[k] = self.side_for(body, k as u32 + 1)?;
        }
        Ok(sides)
    }

    // The side of a part of the next pack.
    fn side_for(&mut self, body: &[u8], k: u32) -> Result<bool, DeviceError>
        requires area { IsSlots (bytes_of_body self.old.geometry) (M.seen self.old.meta) }
        requires len { length body.now ≡ bytes_of_body self.old.geometry }
        requires within { k < 66 }
        ensures equal { IfOk result (λ side. side ≢ side_of_part (known_sides self.old.known.map) k
            → piece self.old.geometry (slot_of self.old.version) (known_sides self.old.known.map) k (M.seen self.old.meta)
            ≡ body_piece self.old.geometry k body.now) }
        ensures named { IfOk result (λ side. side ≡ true → place_of_part self.old.geometry k < place_of_part self.old.geometry (suc k)) }
        ensures quiet { IsQuiet M.seen M.may_leave M.moment M.left_since self.old.meta self.new.meta }
        ensures rest { self.new ≡ record self.old { meta = self.new.meta } }
        ensures cause { HasCause (M.failed self.old.meta) (M.failed self.new.meta) result }
    {
        let bytes = part_of(&self.geometry, body, k);
        if bytes.is_empty() || self.known.map.is_none() {
            return Ok(false);
        }
        let old = self.known_side(k);
        let at = part_at(&self.geometry, self.version % 2, old, k);
        let stays = equals(&mut self.meta, at, bytes)?;
        Ok(old != stays)
    }

    // Puts the map of the next pack, its header and logs, each part that changes its bytes, and its summaries. Nothing of it is
    // settled yet. Both footers and the picked pack stay at every moment.
    fn put(&mut self, body: &[u8], sides: &[bool; 64]) -> Result<(), DeviceError>
        requires area { IsSlots (bytes_of_body self.old.geometry) (M.seen self.old.meta) }
        requires len { length body.now ≡ bytes_of_body self.old.geometry }
        requires plan { IsPlan self.old.geometry (slot_of self.old.version) (known_sides self.old.known.map) sides.now
            body.now (M.seen self.old.meta) }
        ensures put { OnOk result (IsPut self.old.geometry (slot_of self.old.version) (known_sides self.old.known.map) sides.now
            body.now 66 (M.seen self.old.meta) (M.seen self.new.meta)) }
        ensures ends { SameEnds self.old.geometry (M.seen self.old.meta) (M.seen self.new.meta) }
        ensures any_moment { KeepsPicked M.moment M.left_since M.may_leave self.old self.new.meta }
        ensures rest { self.new ≡ record self.old { meta = self.new.meta } }
        ensures cause { HasCause (M.failed self.old.meta) (M.failed self.new.meta) result }
    {
        let at = map_at(1 - self.version % 2);
        self.meta.write(at, &spell_map(sides))?;
        for k in 0..PARTS {
            self.put_part(body, sides, k)?;
        }
        Ok(())
    }

    // Puts one part of the next pack, if it changes its bytes.
    fn put_part(&mut self, body: &[u8], sides: &[bool; 64], k: u32) -> Result<(), DeviceError>
        requires area { IsSlots (bytes_of_body self.old.geometry) (M.seen self.old.meta) }
        requires len { length body.now ≡ bytes_of_body self.old.geometry }
        requires within { k < 66 }
        ensures put { OnOk result ((start : List ℕ) → IsPut self.old.geometry (slot_of self.old.version) (known_sides self.old.known.map) sides.now
            body.now k start (M.seen self.old.meta) → IsPut self.old.geometry (slot_of self.old.version) (known_sides self.old.known.map) sides.now
            body.now (suc k) start (M.seen self.new.meta)) }
        ensures ends { SameEnds self.old.geometry (M.seen self.old.meta) (M.seen self.new.meta) }
        ensures any_moment { KeepsPicked M.moment M.left_since M.may_leave self.old self.new.meta }
        ensures rest { self.new ≡ record self.old { meta = self.new.meta } }
        ensures cause { HasCause (M.failed self.old.meta) (M.failed self.new.meta) result }
    {
        let bytes = part_of(&self.geometry, body, k);
        if bytes.is_empty() {
            return Ok(());
        }
        let other = side(sides, k);
        if other != self.known_side(k) {
            return Ok(());
        }
        let at = part_at(&self.geometry, 1 - self.version % 2, other, k);
        self.meta.write(at, bytes)?;
        Ok(())
    }
}

// Whether these bytes stand at an offset.
fn equals<M: Meta>(meta: &mut M, at: u64, bytes: &[u8]) -> Result<bool, DeviceError>
    requires within { at + length bytes.now ≤ length (M.seen meta.old) }
    requires fits { at + length bytes.now < 2 ^ 64 }
    ensures same { IfOk result (λ same. same ≡ true → part at (length bytes.now) (M.seen meta.old) ≡ bytes.now) }
    ensures quiet { IsQuiet M.seen M.may_leave M.moment M.left_since meta.old meta.new }
    ensures cause { HasCause (M.failed meta.old) (M.failed meta.new) result }
{
    if bytes.len() <= CHUNK {
        return equals_few(meta, at, bytes);
    }
    let (first, rest) = bytes.split_at(CHUNK);
    let begins = equals_few(meta, at, first)?;
    if !begins {
        return Ok(false);
    }
    let ends = equals(meta, at + CHUNK as u64, rest)?;
    Ok(ends)
}

// The same, of few bytes.
fn equals_few<M: Meta>(meta: &mut M, at: u64, bytes: &[u8]) -> Result<bool, DeviceError>
    requires fits { at + length bytes.now ≤ length (M.seen meta.old) }
    requires few { length bytes.now ≤ 4096 }
    ensures same { IfOk result (λ same. same ≡ true → part at (length bytes.now) (M.seen meta.old) ≡ bytes.now) }
    ensures quiet { IsQuiet M.seen M.may_leave M.moment M.left_since meta.old meta.new }
    ensures cause { HasCause (M.failed meta.old) (M.failed meta.new) result }
{
    let mut held = [0u8; CHUNK];
    let held = &mut held[..bytes.len()];
    meta.read(at, held)?;
    Ok(*held == *bytes)
}
