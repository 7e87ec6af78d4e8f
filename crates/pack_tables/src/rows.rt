// The rows of a pack's tables, read one after the other.
ghost use Rattle.std.specs.Prelude.{◌≡◌, ◌↔◌, IsTrue, ◌*◌, ◌+◌, ◌-◌, ◌/◌, ◌^◌, ◌<◌, ◌≤◌, ◌++◌, [], ◌∷◌, length, map, IfOk, OnOk, IfSome, MatchOption};
ghost use Rattle.geometry.specs.Shape.{segment_blocks};
ghost use Rattle.image.specs.Node.{numbers};
ghost use Rattle.image.specs.Pack.{log_bytes, entry_bytes, segment_bytes, summary_bytes, bitmap};
ghost use Rattle.image.specs.Reading.{number_bits};
ghost use Rattle.image.specs.View.{info_view};
ghost use Rattle.pack_tables.specs.Grammar.{IsPlaceRow, IsEntryRow, IsSegmentRow, IsSummaryRow};
ghost use Rattle.pack_tables.specs.Rows.{AreRows, AreNoRows};

use byteorder::{ByteOrder, LittleEndian};
use geometry::{Shape, Summary};
use image::{LogHead, NodeEntry, SegmentInfo};
use std::alloc::{AllocError, Global};

// The bytes of a row of two numbers.
const PAIR_BYTES: usize = 8;

// The segment number of a log that has no open segment.
pub const NO_SEGMENT: u32 = u32::MAX;

// Two numbers, one after the other.
pub fn pair_of(row: &[u8]) -> (u32, u32)
    requires { length row.now ≡ 8 }
    ensures bytes { numbers (result.0 ∷ result.1 ∷ []) ≡ row.now }
    ensures small { (result.0 < 2 ^ 32) × (result.1 < 2 ^ 32) }
{
    let first = LittleEndian::read_u32(row);
    let second = LittleEndian::read_u32(&row[4..]);
    (first, second)
}

// A log without an open segment has the offset 0.
fn is_log(segment: u32, next: u32) -> bool
    ensures { IsTrue result ↔ (segment ≡ 2 ^ 32 - 1 → next ≡ 0) }
{
    segment != NO_SEGMENT || next == 0
}

// The place that these two numbers spell.
fn place_of(segment: u32, next: u32) -> Option<LogHead>
    requires { segment ≡ 2 ^ 32 - 1 → next ≡ 0 }
    ensures fits { IfSome result IsPlaceRow }
    ensures bytes { log_bytes result ≡ numbers (segment ∷ next ∷ []) }
{
    if segment == NO_SEGMENT {
        None
    } else {
        Some(LogHead { segment, next })
    }
}

// The places of `count` logs. None where no logs are spelled so: one without an open segment has the offset 0.
pub fn decode_logs(
    alloc: Global,
    count: usize,
    bytes: &[u8],
) -> Result<Option<Vec<Option<LogHead>>>, AllocError>
    requires { length bytes.now ≡ 8 * count }
    ensures { IfOk result (λ found. MatchOption found (AreNoRows log_bytes (λ log. IfSome log IsPlaceRow) count bytes.now)
        (λ logs. AreRows log_bytes (λ log. IfSome log IsPlaceRow) count bytes.now logs.items)) }
{
    let mut logs = Vec::with_capacity(alloc, count)?;
    let mut rest = bytes;
    for _ in 0..count {
        let (row, after) = rest.split_at(PAIR_BYTES);
        let (segment, next) = pair_of(row);
        if !is_log(segment, next) {
            return Ok(None);
        }
        logs.push(place_of(segment, next))?;
        rest = after;
    }
    Ok(Some(logs))
}

// An entry has an inode number and an address, or neither.
fn is_entry(inode: u32, address: u32) -> bool
    ensures { IsTrue result ↔ ((inode ≡ 0) ↔ (address ≡ 0)) }
{
    (inode == 0) == (address == 0)
}

// The entries of the node address table. None where one has an inode number without an address, or an address alone.
pub fn decode_entries(
    alloc: Global,
    count: usize,
    bytes: &[u8],
) -> Result<Option<Vec<NodeEntry>>, AllocError>
    requires { length bytes.now ≡ 8 * count }
    ensures { IfOk result (λ found. MatchOption found (AreNoRows entry_bytes IsEntryRow count bytes.now)
        (λ entries. AreRows entry_bytes IsEntryRow count bytes.now entries.items)) }
{
    let mut entries = Vec::with_capacity(alloc, count)?;
    let mut rest = bytes;
    for _ in 0..count {
        let (row, after) = rest.split_at(PAIR_BYTES);
        let (inode, address) = pair_of(row);
        if !is_entry(inode, address) {
            return Ok(None);
        }
        entries.push(NodeEntry { inode, address })?;
        rest = after;
    }
    Ok(Some(entries))
}

// The summaries of the blocks. Any numbers may stand there.
pub fn decode_summaries(
    alloc: Global,
    count: usize,
    bytes: &[u8],
) -> Result<Vec<Summary>, AllocError>
    requires { length bytes.now ≡ 8 * count }
    ensures { IfOk result (λ summaries. AreRows summary_bytes IsSummaryRow count bytes.now summaries.items) }
{
    let mut summaries = Vec::with_capacity(alloc, count)?;
    let mut rest = bytes;
    for _ in 0..count {
        let (row, after) = rest.split_at(PAIR_BYTES);
        let (nid, slot) = pair_of(row);
        summaries.push(Summary { nid, slot })?;
        rest = after;
    }
    Ok(summaries)
}

// Adds the bits of a byte, the lowest first.
fn push_bits(bits: &mut Vec<bool>, byte: u8) -> Result<(), AllocError>
    ensures { OnOk result (bits.new.items ≡ bits.old.items ++ number_bits 8 byte) }
{
    let mut left = byte;
    for _ in 0..8u8 {
        bits.push(left % 2 == 1)?;
        left /= 2;
    }
    Ok(())
}

// The bits of a segment's blocks, eight a byte.
fn decode_bits(alloc: Global, bytes: &[u8]) -> Result<Vec<bool>, AllocError>
    requires { length bytes.now ≤ 64 }
    ensures long { IfOk result (λ bits. length bits.items ≡ 8 * length bytes.now) }
    ensures bits { IfOk result (λ bits. bitmap (length bytes.now) bits.items ≡ bytes.now) }
{
    let mut bits = Vec::with_capacity(alloc, 8 * bytes.len())?;
    for byte in bytes {
        push_bits(&mut bits, *byte)?;
    }
    Ok(bits)
}

fn decode_segment(alloc: Global, shape: Shape, row: &[u8]) -> Result<SegmentInfo, AllocError>
    requires { length row.now ≡ 12 + segment_blocks shape / 8 }
    ensures fits { IfOk result (λ info. IsSegmentRow shape (info_view info)) }
    ensures bytes { IfOk result (λ info. segment_bytes shape (info_view info) ≡ row.now) }
{
    let count = LittleEndian::read_u32(row);
    let mtime = LittleEndian::read_u64(&row[4..]);
    let bits = decode_bits(alloc, &row[12..])?;
    Ok(SegmentInfo { count, mtime, bits })
}

// The entries of the segment information table. Any numbers may stand there.
pub fn decode_segments(
    alloc: Global,
    shape: Shape,
    count: usize,
    bytes: &[u8],
) -> Result<Vec<SegmentInfo>, AllocError>
    requires { length bytes.now ≡ count * (12 + segment_blocks shape / 8) }
    ensures { IfOk result (λ segments. AreRows (segment_bytes shape) (IsSegmentRow shape) count bytes.now (map info_view segments.items)) }
{
    let row_bytes = 12 + shape.segment_blocks() as usize / 8;
    let mut segments = Vec::with_capacity(alloc, count)?;
    let mut rest = bytes;
    for _ in 0..count {
        let (row, after) = rest.split_at(row_bytes);
        segments.push(decode_segment(alloc, shape, row)?)?;
        rest = after;
    }
    Ok(segments)
}
