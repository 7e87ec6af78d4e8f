//! A disk is served to one client.
ghost use Rattle.std.specs.Prelude.{◌≤◌, ℕ, IfOk, length};
ghost use Rattle.device.specs.Parts.{IsBlockRun};

use crate::disk_files::{DiskFiles, find_or_make};
use crate::fault::DiskFault;
use disk_service::{
    Counts, DiskLayout, DiskService, DiskSettings, Export, Farewell, Greeted, LONGEST_NAME, greet,
};
use flash_volume::{Block, Error, Leave, Meta, Parts, SharedBlock, Stage, serve_volume};
use named_reading::NameRefusal;
use std::alloc::Global;
use std::io;
use std::io::{Read, Write};
use std::sync::Wait;
use std::thread::Threads;
use std::time::Clock;

/// Which disk is served, and how.
#[derive(Clone, Copy)]
pub struct DiskOptions<'a> {
    /// The name of the disk: its files have it, with the number of the part behind.
    pub name: &'a str,
    /// The bytes of the disk, where they are told: a disk that isn't there is made.
    pub bytes: Option<u64>,
    pub settings: DiskSettings,
    /// The time, in seconds since 1970.
    pub now: u64,
}

/// What came of serving a disk: what was done, and why it ended; None where the client went in the handshake.
#[derive(Clone, Copy, PartialEq, Eq)]
pub struct Served {
    /// The bytes of the disk, and of a block.
    pub bytes: u64,
    pub block_bytes: u32,
    pub counts: Option<Counts>,
    pub farewell: Option<Farewell>,
}

/// Serves a disk of a volume to the client behind two streams, until it leaves or its stream ends, and closes the volume; one that is only
/// read is left without a checkpoint. The parts come back. Where the volume has no such disk, and its bytes are told, it is made first.
///
/// Answers what `find_or_make` does, then nothing was served; Stream where the handshake failed; Volume with the stage at which the volume
/// was refused. What was flushed stays in any case.
pub fn serve_disk<
    M: Meta + Send + Drop,
    B: SharedBlock,
    R: AllocGlobal + Threads + Wait + Sync,
    C: Clock + Send + Sync + Drop,
    I: Read + Send + Drop,
    O: Write + Send + Drop,
>(
    rt: &R,
    parts: Parts<M, B>,
    options: DiskOptions<'_>,
    clock: C,
    input: I,
    output: O,
) -> Result<(Parts<M, B>, Served), DiskFault>
    requires run { (bytes : ℕ) × IsBlockRun B.address_of B.content_of bytes 1 parts.blocks.items }
    ensures run { IfOk result (λ served. (bytes : ℕ) × IsBlockRun B.address_of B.content_of bytes 1 served.0.blocks.items) }
{
    if options.name.len() > LONGEST_NAME {
        return Err(DiskFault::Files(NameRefusal::BadName));
    }
    let mut input = input;
    let mut output = output;
    let (parts, files) = find_or_make(rt, parts, options.name, options.bytes, options.now)?;
    let export = Export {
        name: options.name,
        bytes: files.bytes(),
        block_bytes: files.block_bytes,
        read_only: options.settings.read_only,
    };
    let greeted = match greet(rt.alloc(), &mut input, &mut output, &export) {
        Ok(greeted) => greeted,
        Err(error) if is_gone(error.kind()) => Greeted::Gone,
        Err(error) => return Err(DiskFault::Stream(error)),
    };
    let served = Served {
        bytes: files.bytes(),
        block_bytes: files.block_bytes,
        counts: None,
        farewell: None,
    };
    if let Greeted::Gone = greeted {
        return Ok((parts, served));
    }
    let leave = if options.settings.read_only {
        Leave::Discard
    } else {
        Leave::Close
    };
    let disk = disk_of(rt.alloc(), files, options.settings, clock, input, output)?;
    let done = serve_volume(rt, rt.alloc(), parts, leave, disk.threads(), &disk)?;
    for ended in &done.output {
        if let Err(error) = ended {
            return Err(DiskFault::Volume(Stage::Work, *error));
        }
    }
    let served = Served {
        counts: Some(disk.counts()),
        farewell: disk.farewell(rt),
        ..served
    };
    Ok((done.parts, served))
}

// Whether a stream failed since the client has gone.
fn is_gone(kind: io::ErrorKind) -> bool {
    matches!(
        kind,
        io::ErrorKind::UnexpectedEof | io::ErrorKind::BrokenPipe
    )
}

// The service of a disk for a client that was greeted.
fn disk_of<C: Clock + Drop, I: Read + Drop, O: Write + Drop>(
    alloc: Global,
    files: DiskFiles,
    settings: DiskSettings,
    clock: C,
    input: I,
    output: O,
) -> Result<DiskService<C, I, O>, DiskFault> {
    let DiskFiles {
        numbers,
        blocks,
        block_bytes,
    } = files;
    let Some(layout) = DiskLayout::new(numbers, block_bytes, blocks) else {
        return Err(DiskFault::Broken);
    };
    match DiskService::new(alloc, clock, input, output, layout, settings) {
        Ok(disk) => Ok(disk),
        Err(error) => Err(DiskFault::Volume(Stage::Work, error)),
    }
}
