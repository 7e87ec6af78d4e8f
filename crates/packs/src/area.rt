// Where the slots of an area lie.
ghost use Rattle.std.specs.Prelude.{◌≡◌, ◌≤◌, ◌<◌, ◌^◌};
ghost use Rattle.packs.specs.Parts.{slot_at as place_of_slot, body_bytes as bytes_of_body, map_at as place_of_map};
ghost use Rattle.packs.specs.Area.{header_by as place_of_header, footer_by as place_of_footer, area_bytes};

use geometry::{Geometry, Packing};

// The bytes in front of the slots.
const SUPERBLOCK: u64 = 64;

// The bytes of a footer.
const FOOTER: u64 = 4;

// The bytes of the superblock that tell the geometry. The maps of the two slots follow.
const FRONT: u64 = 32;

pub fn body_bytes(geometry: &Geometry) -> u64
    ensures { result ≡ bytes_of_body geometry.now }
{
    geometry.pack_bytes() - FOOTER
}

pub fn slot_at(len: u64, slot: u32) -> u64
    requires { (slot ≤ 1) × (area_bytes len < 2 ^ 64) }
    ensures { result ≡ place_of_slot len slot }
{
    if slot == 0 {
        SUPERBLOCK
    } else {
        SUPERBLOCK + (len + FOOTER)
    }
}

/// Where the header of a pack begins.
pub fn header_at(geometry: &Geometry, slot: u32) -> u64
    requires { slot ≤ 1 }
    ensures { result ≡ place_of_header geometry.now.packing (bytes_of_body geometry.now) slot }
{
    match geometry.packing {
        Packing::Slots => slot_at(body_bytes(geometry), slot),
        Packing::Pages => packs_journal::head_at(slot),
    }
}

/// Where the footer of a pack begins.
pub fn footer_at(geometry: &Geometry, slot: u32) -> u64
    requires { slot ≤ 1 }
    ensures { result ≡ place_of_footer geometry.now.packing (bytes_of_body geometry.now) slot }
{
    match geometry.packing {
        Packing::Slots => {
            let len = body_bytes(geometry);
            slot_at(len, slot) + len
        }
        Packing::Pages => packs_journal::footer_at(slot),
    }
}

pub fn map_at(slot: u32) -> u64
    requires { slot ≤ 1 }
    ensures { result ≡ place_of_map slot }
{
    FRONT + 16 * u64::from(slot)
}
