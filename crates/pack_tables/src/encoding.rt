//! A pack's body is written.
ghost use Rattle.std.specs.Prelude.{◌≡◌, ◌≤◌, ◌<◌, ◌+◌, ◌*◌, ◌/◌, ◌^◌, ◌++◌, ℕ, List, [], ◌∷◌, length, take, drop, map, All, IfOk, IfErr, OnOk};
ghost use Rattle.std.specs.List.{flat_map};
ghost use Rattle.byteorder.specs.Endian.{little_bytes};
ghost use Rattle.geometry.specs.Bits.{bits_of};
ghost use Rattle.geometry.specs.declared.error.Error.TheVariants.{NoMemory};
ghost use Rattle.geometry.specs.Shape.{segment_blocks};
ghost use Rattle.image.specs.Node.{Node, numbers};
ghost use Rattle.image.specs.Pack.{pack_body, log_bytes, entry_bytes, segment_bytes, summary_bytes, bits_number, bitmap};
ghost use Rattle.image.specs.Rules.{IsInRange};
ghost use Rattle.image.specs.View.{image_view, info_view};
ghost use Rattle.pack_tables.specs.Grammar.{HasSmallNumbers, IsSummaryRow, SpellsTables};

use crate::rows::NO_SEGMENT;
use byteorder::{ByteOrder, LittleEndian};
use geometry::{Error, Geometry, Shape, Summary};
use image::{Image, LogHead, NodeEntry, SegmentInfo};
use std::alloc::{AllocError, Global};

// So many rows of two numbers are spelled before they are added.
const ROWS: usize = 64;

// A segment's bits take at most so many words of 64.
const WORDS: usize = 8;

// A row of two numbers.
trait Pair {
    ghost bytes: { Self → List ℕ };

    ghost small: { Self → Type 0 };

    // Its numbers.
    fn pair(&self) -> (u32, u32)
        ensures bytes { numbers (result.0 ∷ result.1 ∷ []) ≡ bytes self.now }
        ensures small { small self.now };
}

impl Pair for NodeEntry {
    ghost bytes = { entry_bytes };

    ghost small = { λ entry. (entry.inode < 2 ^ 32) × (entry.address < 2 ^ 32) };

    fn pair(&self) -> (u32, u32) {
        both(self.inode, self.address)
    }
}

impl Pair for Summary {
    ghost bytes = { summary_bytes };

    ghost small = { IsSummaryRow };

    fn pair(&self) -> (u32, u32) {
        both(self.nid, self.slot)
    }
}

// Two numbers, each of which fits its field.
fn both(first: u32, second: u32) -> (u32, u32)
    ensures numbers { result ≡ (first, second) }
    ensures small { (first < 2 ^ 32) × (second < 2 ^ 32) }
{
    (first, second)
}

// Two numbers, in front of what stays.
fn write_pair(row: &mut [u8], first: u32, second: u32)
    requires { 8 ≤ length row.old }
    ensures { row.new ≡ numbers (first ∷ second ∷ []) ++ drop 8 row.old }
{
    LittleEndian::write_u32_into(&[first, second], &mut row[..8]);
}

// The rows take all of the bytes.
fn write_rows<P: Pair>(bytes: &mut [u8], rows: &[P])
    requires few { length rows.now ≤ 64 }
    requires len { length bytes.old ≡ 8 * length rows.now }
    ensures bytes { bytes.new ≡ flat_map P.bytes rows.now }
    ensures small { All P.small rows.now }
{
    for i in 0..rows.len() {
        let (first, second) = rows[i].pair();
        write_pair(&mut bytes[8 * i..], first, second);
    }
}

fn push_rows<P: Pair>(out: &mut Vec<u8>, rows: &[P]) -> Result<(), AllocError>
    ensures added { OnOk result (out.new.items ≡ out.old.items ++ flat_map P.bytes rows.now) }
    ensures small { OnOk result (All P.small rows.now) }
{
    for round in 0..rows.len().div_ceil(ROWS) {
        let (_, rest) = rows.split_at(ROWS * round);
        let (some, _) = rest.split_at(rest.len().min(ROWS));
        let mut bytes = [0u8; 8 * ROWS];
        let bytes = &mut bytes[..8 * some.len()];
        write_rows(bytes, some);
        out.extend_from_slice(bytes)?;
    }
    Ok(())
}

fn push_pair(out: &mut Vec<u8>, first: u32, second: u32) -> Result<(), AllocError>
    ensures added { OnOk result (out.new.items ≡ out.old.items ++ numbers (first ∷ second ∷ [])) }
    ensures small { OnOk result ((first < 2 ^ 32) × (second < 2 ^ 32)) }
{
    let mut row = [0u8; 8];
    LittleEndian::write_u32_into(&[first, second], &mut row);
    out.extend_from_slice(&row)
}

fn push_logs(out: &mut Vec<u8>, logs: &[Option<LogHead>]) -> Result<(), AllocError>
    ensures { OnOk result (out.new.items ≡ out.old.items ++ flat_map log_bytes logs.now) }
{
    for log in logs {
        match log {
            Some(place) => push_pair(out, place.segment, place.next)?,
            None => push_pair(out, NO_SEGMENT, 0)?,
        }
    }
    Ok(())
}

// The number of at most eight bits, the lowest first.
fn byte_of(bits: &[bool]) -> u8
    requires { length bits.now ≤ 8 }
    ensures { result ≡ bits_number bits.now }
{
    let mut byte = 0;
    for past in 0..bits.len() {
        byte = 2 * byte + u8::from(bits[bits.len() - 1 - past]);
    }
    byte
}

// The number of the first eight bits. Where there are eight, the loop over them is unrolled.
fn first_byte(bits: &[bool]) -> u8
    ensures { result ≡ bits_number (take 8 bits.now) }
{
    if bits.len() < 8 {
        return byte_of(bits);
    }
    let (eight, _) = bits.split_at(8);
    byte_of(eight)
}

// Bits that are not there are clear.
fn push_bits(out: &mut Vec<u8>, count: u32, bits: &[bool]) -> Result<(), AllocError>
    ensures { OnOk result (out.new.items ≡ out.old.items ++ bitmap count bits.now) }
{
    let mut rest = bits;
    for _ in 0..count {
        out.push(first_byte(rest))?;
        let (_, after) = rest.split_at(rest.len().min(8));
        rest = after;
    }
    Ok(())
}

fn push_segment(out: &mut Vec<u8>, shape: Shape, info: &SegmentInfo) -> Result<(), AllocError>
    ensures added { OnOk result (out.new.items ≡ out.old.items ++ segment_bytes shape (info_view info.now)) }
    ensures small { OnOk result ((info.now.count < 2 ^ 32) × (info.now.mtime < 2 ^ 64)) }
{
    out.extend_from_slice(&info.count.to_le_bytes())?;
    out.extend_from_slice(&info.mtime.to_le_bytes())?;
    push_bits(out, shape.segment_blocks() / 8, &info.bits)
}

// The first bytes of the words, each word's lowest first. Past the words they are zeros.
fn push_words(out: &mut Vec<u8>, count: usize, words: &[u64]) -> Result<(), AllocError>
    requires { count ≤ 64 }
    ensures { OnOk result (out.new.items ≡ out.old.items ++ bitmap count (bits_of words.now (8 * count))) }
{
    let mut bytes = [0u8; 8 * WORDS];
    let (some, _) = words.split_at(words.len().min(WORDS));
    LittleEndian::write_u64_into(some, &mut bytes[..8 * some.len()]);
    out.extend_from_slice(&bytes[..count])?;
    Ok(())
}

/// Adds a segment's row of the segment information table, of which the bits of the words tell the valid blocks: bit `o % 64` of
/// word `o / 64` is that of block `o`, clear where there is no such word. The only error is that memory is out.
pub fn spell_info(
    out: &mut Vec<u8>,
    shape: Shape,
    count: u32,
    mtime: u64,
    words: &[u64],
) -> Result<(), AllocError>
    ensures added { OnOk result (out.new.items ≡ out.old.items ++ segment_bytes shape (record { count = count; mtime = mtime; bits = bits_of words.now (segment_blocks shape) })) }
    ensures small { OnOk result ((count < 2 ^ 32) × (mtime < 2 ^ 64)) }
{
    out.extend_from_slice(&count.to_le_bytes())?;
    out.extend_from_slice(&mtime.to_le_bytes())?;
    push_words(out, shape.segment_blocks() as usize / 8, words)
}

/// Adds rows of the segment summary area. The only error is that memory is out.
pub fn spell_summaries(out: &mut Vec<u8>, rows: &[Summary]) -> Result<(), AllocError>
    ensures added { OnOk result (out.new.items ≡ out.old.items ++ flat_map summary_bytes rows.now) }
    ensures small { OnOk result (All IsSummaryRow rows.now) }
{
    push_rows(out, rows)
}

/// Adds the header of a pack's body and its logs, 56 bytes for six logs. The only error is that memory is out.
pub fn spell_head(
    out: &mut Vec<u8>,
    version: u32,
    total: u32,
    logs: &[Option<LogHead>],
) -> Result<(), AllocError>
    ensures added { OnOk result (out.new.items ≡ (out.old.items ++ numbers (version ∷ total ∷ [])) ++ flat_map log_bytes logs.now) }
    ensures small { OnOk result ((version < 2 ^ 32) × (total < 2 ^ 32)) }
{
    push_pair(out, version, total)?;
    push_logs(out, logs)
}

/// The row of a node number in the node address table.
pub fn spell_entry(entry: &NodeEntry) -> [u8; 8]
    ensures bytes { result ≡ entry_bytes entry.now }
{
    let mut row = [0u8; 8];
    let (first, second) = entry.pair();
    write_pair(&mut row, first, second);
    row
}

fn push_segments(
    out: &mut Vec<u8>,
    shape: Shape,
    segments: &[SegmentInfo],
) -> Result<(), AllocError>
    ensures added { OnOk result (out.new.items ≡ out.old.items ++ flat_map (segment_bytes shape) (map info_view segments.now)) }
    ensures small { OnOk result (All (λ info. (info.count < 2 ^ 32) × (info.mtime < 2 ^ 64)) segments.now) }
{
    for info in segments {
        push_segment(out, shape, info)?;
    }
    Ok(())
}

/// The body of a pack with an image's tables: all of the pack but its footer. The nodes are not part of it. For
/// tables of the geometry's lengths all memory is taken at once, in front. Answers NoMemory where it was refused, and no
/// other error.
pub fn encode(alloc: Global, geometry: &Geometry, image: &Image) -> Result<Vec<u8>, Error>
    ensures bytes { IfOk result (λ body. body.items ≡ pack_body geometry.now.shape (image_view image.now)) }
    // So that it is read back, where its numbers are in range with any nodes.
    ensures spelled { IfOk result (λ body. (nodes : List Node) → IsInRange geometry.now (record (image_view image.now) { nodes = nodes })
        → SpellsTables geometry.now body.items (image_view image.now)) }
    ensures small { IfOk result (λ body. HasSmallNumbers (image_view image.now)) }
    ensures refused { IfErr result (λ e. e ≡ NoMemory) }
{
    let mut body = Vec::with_capacity(alloc, geometry.pack_bytes() as usize - 4)?;
    spell_head(&mut body, image.version, image.total, &image.logs)?;
    push_rows(&mut body, &image.nat)?;
    push_segments(&mut body, geometry.shape, &image.sit)?;
    push_rows(&mut body, &image.ssa)?;
    Ok(body)
}
