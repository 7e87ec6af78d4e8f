//! What makes and opens the device over an image file.
ghost use Rattle.std.specs.Prelude.{ℕ, IfOk};
ghost use Rattle.device.specs.Parts.{HasSize, IsBlockRun};

use file_device::{FileBlock, FileFault, FileMeta, create_image, open_image};
use flash_volume::{Block, Geometry, Meta, Parts, SharedBlock};
use std::alloc::Global;
use std::fs::{File, Files};

/// Makes and opens the device over an image file. The words run over any.
pub trait Opener {
    /// The device's meta area.
    type Area: Meta + Send + Drop;
    /// A block of it.
    type Part: SharedBlock;

    /// Makes an image file of the size of a geometry, all zeros, settles it and its folder, and locks it while its parts live. A file
    /// that is there is not touched: that is `Io`, of the kind AlreadyExists. After another refusal the file is removed, if the system
    /// lets it.
    fn create<R: Files<File = File>>(
        &self,
        rt: &R,
        alloc: Global,
        path: &str,
        geometry: &Geometry,
    ) -> Result<Parts<Self::Area, Self::Part>, FileFault>
        ensures size { IfOk result (λ parts. HasSize Self.Area.seen Self.Part.address_of Self.Part.content_of geometry.now parts) };

    /// Opens the image file that is there, settles what an earlier run wrote, and locks it while its parts live.
    ///
    /// Answers `Refused(BadGeometry)` where the file begins with no superblock, `Refused(BadImage(1))` where it has another size than
    /// its superblock tells, `Refused(NoMemory)`, `NoFile` where it is no ordinary file, `Busy` where somebody else has it open, and
    /// `Io` where the system fails. The file is as it was.
    fn open<R: Files<File = File>>(
        &self,
        rt: &R,
        alloc: Global,
        path: &str,
    ) -> Result<Parts<Self::Area, Self::Part>, FileFault>
        ensures run { IfOk result (λ parts. (bytes : ℕ) × IsBlockRun Self.Part.address_of Self.Part.content_of bytes 1 parts.blocks.items) };
}

/// Opens image files as `file_device` does, which keeps in memory what a part holds.
#[derive(Clone, Copy)]
pub struct FileOpener;

impl Opener for FileOpener {
    type Area = FileMeta<File>;

    type Part = FileBlock<File>;

    fn create<R: Files<File = File>>(
        &self,
        rt: &R,
        alloc: Global,
        path: &str,
        geometry: &Geometry,
    ) -> Result<Parts<FileMeta<File>, FileBlock<File>>, FileFault> {
        create_image(rt, alloc, path, geometry)
    }

    fn open<R: Files<File = File>>(
        &self,
        rt: &R,
        alloc: Global,
        path: &str,
    ) -> Result<Parts<FileMeta<File>, FileBlock<File>>, FileFault> {
        open_image(rt, alloc, path)
    }
}
