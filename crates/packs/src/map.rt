//! Which parts of a pack lie in the other slot.
ghost use Rattle.std.specs.Prelude.{◌≡◌, ◌≤◌, ◌<◌, ◌+◌, ◌^◌, length};
ghost use Rattle.image.specs.Pack.{bits_number};
ghost use Rattle.byteorder.specs.Endian.{little_from};
ghost use Rattle.image.specs.Reading.{number_at};
ghost use Rattle.packs.specs.Parts.{read_map as map_of_bytes, sides_of as sides_of_number, is_map as is_map_of, spelled_map, are_parts as are_parts_from};

use crate::parts::place;
use byteorder::{ByteOrder, LittleEndian};
use geometry::Geometry;

/// The bytes of a map.
pub(crate) const MAP: usize = 16;

// The number of the format in which a pack's parts are shadowed one by one.
const IN_PARTS: u32 = 2;

/// Which parts of a pack lie in the other slot.
#[derive(Clone, Copy)]
pub struct Map {
    /// Whether the pack was written in parts, and not whole.
    pub in_parts: bool,
    /// Of each part of the node address table, and behind them of the segment information table, whether it lies in the
    /// other slot.
    pub sides: [bool; 64],
}

// The number of these bits, the lowest first.
fn number_of(bits: &[bool]) -> u64
    requires { length bits.now ≤ 64 }
    ensures value { result ≡ bits_number bits.now }
    ensures small { result < 2 ^ length bits.now }
{
    match bits {
        [] => 0,
        [bit, rest @ ..] => u64::from(*bit) + 2 * number_of(rest),
    }
}

// Whether a bit is set only for a part that has bytes. The first of the bits is that of part k.
fn are_parts(geometry: &Geometry, k: u32, sides: &[bool]) -> bool
    requires { k + length sides.now ≤ 66 }
    ensures { result ≡ are_parts_from geometry.now k sides.now }
{
    match sides {
        [] => true,
        [side, rest @ ..] => {
            (!*side || place(geometry, k) < place(geometry, k + 1))
                && are_parts(geometry, k + 1, rest)
        }
    }
}

// The bits of 64 parts, the lowest first.
fn sides_of(number: u64) -> [bool; 64]
    ensures { result ≡ sides_of_number number }
{
    let mut sides = [false; 64];
    let mut rest = number;
    for k in 0..64usize {
        sides[k] = rest % 2 == 1;
        rest /= 2;
    }
    sides
}

fn number_in(bytes: &[u8], at: usize) -> u32
    requires { at + 4 ≤ length bytes.now }
    ensures { result ≡ number_at bytes.now at }
{
    LittleEndian::read_u32(&bytes[at..])
}

fn long_number_in(bytes: &[u8], at: usize) -> u64
    requires { at + 8 ≤ length bytes.now }
    ensures { result ≡ little_from at 8 bytes.now }
{
    LittleEndian::read_u64(&bytes[at..])
}

// Whether these numbers make a map.
fn is_map(geometry: &Geometry, format: u32, number: u64, zeros: u32, sides: &[bool; 64]) -> bool
    ensures { result ≡ is_map_of geometry.now format number zeros sides.now }
{
    if zeros != 0 {
        return false;
    }
    if format == 0 {
        return number == 0;
    }
    format == IN_PARTS && are_parts(geometry, 1, sides)
}

/// The map that these bytes spell, if they spell one.
pub(crate) fn read_map(geometry: &Geometry, bytes: &[u8; MAP]) -> Option<Map>
    ensures { result ≡ map_of_bytes geometry.now bytes.now }
{
    let format = number_in(bytes, 0);
    let number = long_number_in(bytes, 4);
    let zeros = number_in(bytes, 12);
    let sides = sides_of(number);
    if is_map(geometry, format, number, zeros, &sides) {
        let in_parts = format == IN_PARTS;
        Some(Map { in_parts, sides })
    } else {
        None
    }
}

/// The bytes of the map of a pack in parts.
pub(crate) fn spell_map(sides: &[bool; 64]) -> [u8; MAP]
    ensures { result ≡ spelled_map sides.now }
{
    let mut bytes = [0u8; MAP];
    LittleEndian::write_u32(&mut bytes, IN_PARTS);
    LittleEndian::write_u64(&mut bytes[4..], number_of(sides));
    bytes
}
