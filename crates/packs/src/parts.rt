//! Where the parts of a pack lie.
ghost use Rattle.std.specs.Prelude.{◌≡◌, ◌≤◌, ◌<◌, ◌+◌, ◌-◌, suc, length};
ghost use Rattle.packs.specs.Area.{area_bytes};
ghost use Rattle.packs.specs.Parts.{body_bytes as bytes_of_body, slot_at as place_of_slot, first_row as row_of_part, place as place_of_part, side as side_of_part, lies as slot_of_part};
ghost use Rattle.packs.specs.Staging.{body_piece};

use crate::area::{body_bytes, slot_at};
use geometry::Geometry;

// The parts of a body: header and logs, 32 parts of each of the two tables, and the summaries.
pub(crate) const PARTS: u32 = 66;

// The bytes of header and logs.
const FRONT: u64 = 56;

// The row of a table with which part p begins, of 32 parts.
fn first_row(rows: u32, p: u32) -> u64
    requires { (rows ≤ 65536) × (p ≤ 65) }
    ensures { result ≡ row_of_part rows p }
{
    let rows = u64::from(rows);
    rows.min(u64::from(p) * ((rows + 31) / 32))
}

/// Where in its slot a part of a body begins; part 66 would begin where the body ends.
pub(crate) fn place(geometry: &Geometry, k: u32) -> u64
    requires { k ≤ 66 }
    ensures { result ≡ place_of_part geometry.now k }
{
    if k == 0 {
        return 0;
    }
    let k = k - 1;
    let blocks = u64::from(geometry.shape.segment_blocks());
    let entries = first_row(geometry.nodes, k);
    let segments = first_row(geometry.segments, k.saturating_sub(32));
    let summaries = u64::from(k.saturating_sub(64)) * (8 * u64::from(geometry.segments) * blocks);
    FRONT + 8 * entries + segments * (12 + blocks / 8) + summaries
}

/// Whether a part lies in the other slot.
pub(crate) fn side(sides: &[bool; 64], k: u32) -> bool
    requires { k < 66 }
    ensures side { result ≡ side_of_part sides.now k }
    ensures many { length sides.now ≡ 64 }
{
    if k == 0 || k == 65 {
        false
    } else {
        sides[k as usize - 1]
    }
}

/// The slot in which a part of a slot's pack lies.
pub(crate) fn lies(slot: u32, other: bool) -> u32
    requires { slot ≤ 1 }
    ensures number { result ≡ slot_of_part slot other }
    ensures within { result ≤ 1 }
{
    if other { 1 - slot } else { slot }
}

/// A part of a body.
pub(crate) fn part_of<'a>(geometry: &Geometry, body: &'a [u8], k: u32) -> &'a [u8]
    requires len { length body.now ≡ bytes_of_body geometry.now }
    requires within { k < 66 }
    ensures bytes { result.now ≡ body_piece geometry.now k body.now }
    ensures long { length result.now ≡ place_of_part geometry.now (suc k) - place_of_part geometry.now k }
{
    let from = place(geometry, k);
    let end = place(geometry, k + 1);
    let (_, rest) = body.split_at(from as usize);
    let (part, _) = rest.split_at((end - from) as usize);
    part
}

/// Where a part of a slot's pack lies in an area.
pub(crate) fn part_at(geometry: &Geometry, slot: u32, other: bool, k: u32) -> u64
    requires { (slot ≤ 1) × (k < 66) }
    ensures place { result ≡ place_of_slot (bytes_of_body geometry.now) (slot_of_part slot other) + place_of_part geometry.now k }
    ensures within { result + (place_of_part geometry.now (suc k) - place_of_part geometry.now k) ≤ area_bytes (bytes_of_body geometry.now) }
{
    slot_at(body_bytes(geometry), lies(slot, other)) + place(geometry, k)
}
