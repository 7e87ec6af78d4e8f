//! Work on the volume of an image file.
ghost use Rattle.std.specs.Prelude.{ℕ, IfOk};
ghost use Rattle.device.specs.Parts.{IsBlockRun};

use crate::fault::Fault;
use crate::opener::Opener;
use file_device::FileFault;
use flash_volume::{Block, Geometry, Leave, Parts, Work, work_on};
use image::Image;
use image_reading::FileSource;
use named_reading::OpenVolume;
use std::fs::{File, Files};
use std::sync::Wait;
use std::time::{Clock, Duration, SystemTime};
use std::{fs, thread};
use tool_syntax::ImageFile;

// How often a second an image file is asked for that another program has open.
const TRIES: u32 = 20;

// How often an image file is asked for before the last time.
fn tries(image: ImageFile<'_>) -> u32 {
    image.wait.saturating_mul(TRIES)
}

/// The parts of the device over an image file, which is locked as long as they are there. Answers Busy where another program had it
/// all the time that it was waited for.
pub fn open_parts<P: Opener, R: AllocGlobal + Clock + Files<File = File>>(
    rt: &R,
    opener: &P,
    image: ImageFile<'_>,
) -> Result<Parts<P::Area, P::Part>, Fault>
    ensures run { IfOk result (λ parts. (bytes : ℕ) × IsBlockRun P.Part.address_of P.Part.content_of bytes 1 parts.blocks.items) }
{
    for _ in 0..tries(image) {
        match opener.open(rt, rt.alloc(), image.path) {
            Ok(parts) => return Ok(parts),
            Err(FileFault::Busy) => thread::sleep(rt, pause()),
            Err(fault) => return Err(Fault::from(fault)),
        }
    }
    let parts = opener.open(rt, rt.alloc(), image.path)?;
    Ok(parts)
}

/// Does work on the volume of an image file, and leaves it. The file is locked meanwhile.
pub fn run<
    P: Opener,
    R: AllocGlobal + Clock + Wait + Files<File = File>,
    W: Work<P::Area, P::Part> + Drop,
>(rt: &R, opener: &P, image: ImageFile<'_>, leave: Leave, work: W) -> Result<W::Output, Fault> {
    let parts = open_parts(rt, opener, image)?;
    let done = work_on(rt, rt.alloc(), parts, leave, work)?;
    Ok(done.output)
}

/// The bytes of an image file. Answers NotAFile where it is no ordinary file: a pipe would keep who opens it waiting.
pub fn image_length<R: Files<File = File>>(rt: &R, path: &str) -> Result<u64, Fault> {
    let found = fs::metadata(rt, path).map_err(Fault::Image)?;
    if found.is_file() {
        Ok(found.len())
    } else {
        Err(Fault::NotAFile)
    }
}

/// Reads what the last checkpoint of an image file has: its tables and nodes, and no file's blocks. Changes nothing.
pub fn read_image<R: AllocGlobal + Clock + Files<File = File>>(
    rt: &R,
    image: ImageFile<'_>,
) -> Result<(Geometry, Image), Fault> {
    let OpenVolume {
        geometry,
        image,
        source: _,
    } = open_volume(rt, image)?;
    Ok((geometry, image))
}

/// Opens an image file so that its files are read, and changes nothing. As long as the volume is there nobody may open the file to
/// change it; others may read it too.
pub fn open_volume<R: AllocGlobal + Clock + Files<File = File>>(
    rt: &R,
    image: ImageFile<'_>,
) -> Result<OpenVolume<FileSource>, Fault> {
    image_length(rt, image.path)?;
    let file = open_to_read(rt, image)?;
    Ok(OpenVolume::open(rt.alloc(), FileSource::of(file))?)
}

// Opens a file that nobody changes meanwhile.
fn open_to_read<R: Clock + Files<File = File>>(
    rt: &R,
    image: ImageFile<'_>,
) -> Result<File, Fault> {
    let file = File::open(rt, image.path).map_err(Fault::Image)?;
    for _ in 0..tries(image) {
        if file.try_lock_shared().is_ok() {
            return Ok(file);
        }
        thread::sleep(rt, pause());
    }
    if file.try_lock_shared().is_err() {
        return Err(Fault::Busy);
    }
    Ok(file)
}

// The time between two tries.
fn pause() -> Duration {
    Duration::from_millis(50)
}

/// The seconds since 1970, 0 where the clock fails.
pub fn now<R: Clock>(rt: &R) -> u64 {
    match SystemTime::now(rt) {
        Ok(now) => match now.duration_since(SystemTime::UNIX_EPOCH) {
            Ok(since) => since.as_secs(),
            Err(_) => 0,
        },
        Err(_) => 0,
    }
}
