//! Image files of the operating system: made, and opened.
ghost use Rattle.std.specs.Prelude.{◌≡◌, length, map, IfOk};
ghost use Rattle.device.specs.Parts.{HasSize};
ghost use Rattle.file_device.specs.Blocks.{is_kept};
ghost use Rattle.file_device.specs.Named.{FlagNamed};
ghost use Rattle.geometry.specs.Area.{block_count, meta_bytes};
ghost use Rattle.geometry.specs.declared.geometry.Geometry.{Geometry as Numbers};
ghost use Rattle.pack_tables.specs.Grammar.{HasSuper};

use crate::block::FileBlock;
use crate::fault::FileFault;
use crate::meta::FileMeta;
use crate::named::flag_named;
use crate::opening::parts_over;
use crate::reading::read_area;
use crate::store::settle_file;
use crate::whole::place_of;
use device::{Block, Meta, Parts};
use geometry::{Error, Geometry};
use std::alloc::Global;
use std::fs::{File, Files, OpenOptions};
use std::io;
use std::path::Path;

/// The parts of a device over an image file.
pub type FileParts = Parts<FileMeta<File>, FileBlock<File>>;

/// Makes an image file of the size of a geometry, all zeros, and settles it and its folder. Nobody else may open it while its parts
/// live. A file that is there is not touched: that is `Io`, of the kind AlreadyExists. After another refusal the file is removed, if
/// the system lets it.
pub fn create_image<R: Files<File = File>>(
    rt: &R,
    alloc: Global,
    path: &str,
    geometry: &Geometry,
) -> Result<FileParts, FileFault>
    ensures size { IfOk result (λ parts. HasSize ⟦<FileMeta<File> as Meta>⟧.seen ⟦<FileBlock<File> as Block>⟧.address_of ⟦<FileBlock<File> as Block>⟧.content_of geometry.now parts) }
{
    let area = vec![in alloc; 0u8; geometry.meta_bytes() as usize]?;
    let named = vec![in alloc; false; geometry.blocks() as usize]?;
    let file = OpenOptions::new()
        .read(true)
        .write(true)
        .create_new(true)
        .open(rt, path)?;
    let made = parts_of_new(rt, alloc, path, geometry, area, named.as_slice(), file);
    if made.is_err() {
        // What can't be removed either stays: zeros, which are no volume.
        let _ = std::fs::remove_file(rt, path);
    }
    made
}

// The parts of a device over a file that was made at a path, and has no byte yet.
fn parts_of_new<R: Files<File = File>>(
    rt: &R,
    alloc: Global,
    path: &str,
    geometry: &Geometry,
    area: Vec<u8>,
    named: &[bool],
    file: File,
) -> Result<FileParts, FileFault>
    requires area { length area.items ≡ meta_bytes geometry.now }
    requires named { length named.now ≡ block_count geometry.now }
    ensures size { IfOk result (λ parts. HasSize ⟦<FileMeta<File> as Meta>⟧.seen ⟦<FileBlock<File> as Block>⟧.address_of ⟦<FileBlock<File> as Block>⟧.content_of geometry.now parts) }
{
    lock(&file)?;
    file.set_len(file_bytes(geometry))?;
    let settled = settle_file(&file)?;
    settle_folder(rt, path)?;
    parts_over(alloc, geometry, area, named, file, settled)
}

/// Opens the image file that is there: what an earlier run wrote is settled first, and then its meta area is read, and each block
/// that its tables name. A block that they don't name is shown as zeros, and takes no memory. Nobody else may open the file while
/// the parts live. Whether it holds a volume is seen where it is mounted.
///
/// Answers `Refused(BadGeometry)` where the file begins with no superblock, `Refused(BadImage(1))` where it has another size than
/// its superblock tells, `NoFile` where it is no ordinary file, and `Busy` where somebody else has it open. The file is as it was.
pub fn open_image<R: Files<File = File>>(
    rt: &R,
    alloc: Global,
    path: &str,
) -> Result<FileParts, FileFault>
    ensures parts { IfOk result (λ parts. (geometry : Numbers) × HasSuper geometry (⟦<FileMeta<File> as Meta>⟧.seen parts.meta)
        × HasSize ⟦<FileMeta<File> as Meta>⟧.seen ⟦<FileBlock<File> as Block>⟧.address_of ⟦<FileBlock<File> as Block>⟧.content_of geometry parts) }
    // What the tables name is read.
    ensures read { IfOk result (λ parts. (geometry : Numbers) × HasSuper geometry (⟦<FileMeta<File> as Meta>⟧.seen parts.meta)
        × FlagNamed geometry (⟦<FileMeta<File> as Meta>⟧.seen parts.meta) (map is_kept parts.blocks.items)) }
{
    // A pipe would keep who opens it waiting.
    if !std::fs::metadata(rt, path)?.is_file() {
        return Err(FileFault::NoFile);
    }
    let mut file = OpenOptions::new().read(true).write(true).open(rt, path)?;
    lock(&file)?;
    let settled = settle_file(&file)?;
    let (geometry, area) = read_area(alloc, &mut file)?;
    if file.metadata()?.len() != file_bytes(&geometry) {
        return Err(FileFault::Refused(Error::BadImage(1)));
    }
    let named = flag_named(alloc, &geometry, area.as_slice())?;
    let parts = parts_over(alloc, &geometry, area, named.as_slice(), file, settled)?;
    Ok(parts)
}

// The bytes of an image file of a volume of these numbers.
fn file_bytes(geometry: &Geometry) -> u64 {
    place_of(geometry, geometry.blocks() + 1)
}

/// Settles that the folder of a path names the file.
pub fn settle_folder<R: Files<File = File>>(rt: &R, path: &str) -> io::Result<()> {
    let folder = match Path::new(path).parent() {
        Some(folder) if !folder.as_os_str().is_empty() => File::open(rt, folder)?,
        _ => File::open(rt, ".")?,
    };
    folder.sync_all()
}

fn lock(file: &File) -> Result<(), FileFault> {
    match file.try_lock() {
        Ok(()) => Ok(()),
        Err(error) => {
            let error = io::Error::from(error);
            if error.kind() == io::ErrorKind::WouldBlock {
                Err(FileFault::Busy)
            } else {
                Err(FileFault::Io(error))
            }
        }
    }
}
