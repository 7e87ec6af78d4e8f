//! The files of a disk: a disk NAME is spread over the files NAME.00, NAME.01 and so on, block by block in turn.
ghost use Rattle.std.specs.Prelude.{ℕ, IfOk};
ghost use Rattle.device.specs.Parts.{IsBlockRun};

use crate::disk_parts::PutParts;
use crate::fault::DiskFault;
use crate::stripes::{STRIPES, blocks_in, stripe_name, stripes_of};
use flash_volume::{Block, Leave, Meta, Parts, work_on};
use named_files::{FolderRows, NewFile, ReadFolder, work_making_room};
use named_folder::{is_name, row_at};
use named_reading::NameRefusal;
use std::alloc::{AllocError, Global};
use std::sync::Wait;

/// The files of a disk by their numbers, in the order in which blocks are dealt to them, and how many blocks the disk has.
#[derive(Drop)]
pub struct DiskFiles {
    pub numbers: Vec<u32>,
    pub blocks: u64,
    pub block_bytes: u32,
}

impl DiskFiles {
    /// The bytes of the disk.
    pub fn bytes(&self) -> u64 {
        self.blocks.saturating_mul(u64::from(self.block_bytes))
    }
}

/// Finds the files of a disk. Where there are none, and its bytes are told, they are made, with zeros. The parts come back.
///
/// Answers NoDisk where there are none and no bytes are told, OtherSize where the disk has others, OddSize where these are no whole
/// blocks, Broken where a file of a part's name is none, and what puts of files answer. Then nothing was changed.
pub fn find_or_make<M: Meta + Drop, B: Block + Drop, R: AllocGlobal + Wait>(
    rt: &R,
    parts: Parts<M, B>,
    disk: &str,
    bytes: Option<u64>,
    now: u64,
) -> Result<(Parts<M, B>, DiskFiles), DiskFault>
    requires run { (bytes : ℕ) × IsBlockRun B.address_of B.content_of bytes 1 parts.blocks.items }
    ensures run { IfOk result (λ found. (bytes : ℕ) × IsBlockRun B.address_of B.content_of bytes 1 found.0.blocks.items) }
{
    let (parts, rows) = read_rows(rt, parts)?;
    if let Some(files) = find(rt.alloc(), &rows, disk)? {
        let found = files.bytes();
        if bytes.unwrap_or(found) != found {
            return Err(DiskFault::OtherSize(found));
        }
        return Ok((parts, files));
    }
    let Some(bytes) = bytes else {
        return Err(DiskFault::NoDisk);
    };
    let parts = make(
        rt,
        parts,
        disk,
        bytes,
        rows.geometry.shape.block_bytes(),
        now,
    )?;
    let (parts, rows) = read_rows(rt, parts)?;
    match find(rt.alloc(), &rows, disk)? {
        Some(files) => Ok((parts, files)),
        None => Err(DiskFault::NoDisk),
    }
}

// The rows of the folder. The parts come back.
fn read_rows<M: Meta + Drop, B: Block + Drop, R: AllocGlobal + Wait>(
    rt: &R,
    parts: Parts<M, B>,
) -> Result<(Parts<M, B>, FolderRows), DiskFault>
    requires run { (bytes : ℕ) × IsBlockRun B.address_of B.content_of bytes 1 parts.blocks.items }
    ensures run { IfOk result (λ read. (bytes : ℕ) × IsBlockRun B.address_of B.content_of bytes 1 read.0.blocks.items) }
{
    let done = work_on(rt, rt.alloc(), parts, Leave::Discard, ReadFolder)?;
    let rows = done.output?;
    Ok((done.parts, rows))
}

// The files of a disk. None where the folder has no file of the first part's name.
fn find(alloc: Global, rows: &FolderRows, disk: &str) -> Result<Option<DiskFiles>, DiskFault> {
    let block_bytes = rows.geometry.shape.block_bytes();
    let mut numbers = Vec::new(alloc);
    let mut lengths = Vec::new(alloc);
    for stripe in 0..STRIPES {
        let name = stripe_name(alloc, disk, stripe)?;
        let Some(place) = row_at(rows.entries.as_slice(), name.as_str()) else {
            break;
        };
        let entry = &rows.entries.as_slice()[place];
        numbers.push(entry.number)?;
        lengths.push(entry.bytes)?;
    }
    if numbers.is_empty() {
        return Ok(None);
    }
    let blocks = blocks_of(lengths.as_slice(), block_bytes).ok_or(DiskFault::Broken)?;
    Ok(Some(DiskFiles {
        numbers,
        blocks,
        block_bytes,
    }))
}

// The blocks of a disk whose files have so many bytes each. None where no disk has such files.
fn blocks_of(lengths: &[u64], block_bytes: u32) -> Option<u64> {
    let mut bytes = 0u64;
    for length in lengths {
        bytes = bytes.checked_add(*length)?;
    }
    let blocks = bytes.checked_div(u64::from(block_bytes))?;
    let stripes = stripes_of(blocks);
    if stripes as usize != lengths.len() {
        return None;
    }
    for stripe in 0..stripes {
        let wanted = blocks_in(blocks, stripes, stripe);
        if wanted.checked_mul(u64::from(block_bytes)) != Some(lengths[stripe as usize]) {
            return None;
        }
    }
    Some(blocks)
}

// Makes the files of a disk of so many bytes, with zeros, all of them or none. The parts come back.
fn make<M: Meta + Drop, B: Block + Drop, R: AllocGlobal + Wait>(
    rt: &R,
    parts: Parts<M, B>,
    disk: &str,
    bytes: u64,
    block_bytes: u32,
    now: u64,
) -> Result<Parts<M, B>, DiskFault>
    requires run { (bytes : ℕ) × IsBlockRun B.address_of B.content_of bytes 1 parts.blocks.items }
    ensures run { IfOk result (λ parts. (bytes : ℕ) × IsBlockRun B.address_of B.content_of bytes 1 parts.blocks.items) }
{
    let alloc = rt.alloc();
    let Some(blocks) = whole_blocks(bytes, block_bytes) else {
        return Err(DiskFault::OddSize(block_bytes));
    };
    let names = names_of(alloc, disk, stripes_of(blocks))?;
    if !names.iter().all(|name| is_name(name.as_str())) {
        return Err(DiskFault::Files(NameRefusal::BadName));
    }
    let zeros = zeros_of(alloc, blocks, block_bytes)?;
    let files = files_of(
        alloc,
        names.as_slice(),
        zeros.as_slice(),
        blocks,
        block_bytes,
    )?;
    put_together(rt, parts, files.as_slice(), bytes, now)
}

// How many blocks so many bytes are. None where they are none, or no whole ones.
fn whole_blocks(bytes: u64, block_bytes: u32) -> Option<u64> {
    if bytes == 0 || bytes.checked_rem(u64::from(block_bytes)) != Some(0) {
        return None;
    }
    bytes.checked_div(u64::from(block_bytes))
}

// The names of the files of a disk.
fn names_of(alloc: Global, disk: &str, stripes: u32) -> Result<Vec<String>, AllocError> {
    let mut names = Vec::new(alloc);
    for stripe in 0..stripes {
        names.push(stripe_name(alloc, disk, stripe)?)?;
    }
    Ok(names)
}

// As many zeros as the first file of a disk has, which has the most.
fn zeros_of(alloc: Global, blocks: u64, block_bytes: u32) -> Result<Vec<u8>, DiskFault> {
    let bytes = blocks_in(blocks, stripes_of(blocks), 0).saturating_mul(u64::from(block_bytes));
    let zeros = vec![in alloc; 0u8; bytes as usize]?;
    Ok(zeros)
}

// The files of a disk, with zeros.
fn files_of<'a>(
    alloc: Global,
    names: &'a [String],
    zeros: &'a [u8],
    blocks: u64,
    block_bytes: u32,
) -> Result<Vec<NewFile<'a>>, AllocError> {
    let mut files = Vec::new(alloc);
    let stripes = stripes_of(blocks);
    for (stripe, name) in (0..stripes).zip(names) {
        let bytes = blocks_in(blocks, stripes, stripe).saturating_mul(u64::from(block_bytes));
        files.push(NewFile {
            name: name.as_str(),
            bytes: &zeros[..zeros.len().min(bytes as usize)],
        })?;
    }
    Ok(files)
}

// Puts the files of a disk of so many bytes, all of them or none, and makes room for them where there is none. The parts come back.
fn put_together<M: Meta + Drop, B: Block + Drop, R: AllocGlobal + Wait>(
    rt: &R,
    parts: Parts<M, B>,
    files: &[NewFile<'_>],
    bytes: u64,
    now: u64,
) -> Result<Parts<M, B>, DiskFault>
    requires run { (bytes : ℕ) × IsBlockRun B.address_of B.content_of bytes 1 parts.blocks.items }
    ensures run { IfOk result (λ parts. (bytes : ℕ) × IsBlockRun B.address_of B.content_of bytes 1 parts.blocks.items) }
{
    let done = work_making_room(rt, parts, PutParts { files, now }, bytes, now)?;
    Ok(done.parts)
}
