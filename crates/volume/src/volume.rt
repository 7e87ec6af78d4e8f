//! A volume, and the lock of each of its files.
ghost use Rattle.std.specs.Prelude.{◌≡◌, ◌<◌, ◌≤◌, true, false, length, vec_len, IfOk, IfErr};
ghost use Rattle.std.specs.Sync.Mutex.{mutex_guard_value};
ghost use Rattle.geometry.specs.declared.error.Error.TheVariants.{Device};
ghost use Rattle.geometry.specs.File.{bytes_at};
ghost use Rattle.geometry.specs.Shape.{block_bytes};

use crate::cells::SpareCell;
use area::{HoleReuse, MainArea, lock_numbered};
use checkpoint::PacksCell;
use device::{Block, Meta};
use file_cells::{FileCell, FilePass};
use geometry::{Error, Geometry};
use rights_permits::VolumeName;
use std::alloc::Global;
use std::sync::{Mutex, MutexGuard, Wait};

/// Of the image at which a volume was opened.
#[derive(Clone, Copy, Debug, PartialEq, Eq)]
pub struct Base {
    pub version: u32,
    /// How many blocks were valid.
    pub total: u32,
}

/// A volume over a device: its main area, and its files, each in a lock of its own. All threads share it by `&`. Locks are
/// taken in this order: a file's, then those of the main area.
pub struct Volume<V: VolumeName, M: Meta, B: Block + Drop> {
    pub(crate) alloc: Global,
    pub(crate) area: MainArea<V, B>,
    pub(crate) files: Vec<Mutex<FileCell<V, B>>>,
    // What a checkpoint needs.
    pub(crate) packs: Mutex<PacksCell<V, M>>,
    // So that leaving takes no memory.
    pub(crate) spare: Mutex<SpareCell<V, B>>,
    pub(crate) base: Base,
    ghost filed: { vec_len files ≡ V.Numbers.geometry.files },
}

impl<V: VolumeName, M: Meta, B: Block + Drop> Volume<V, M, B> {
    /// A volume that has these files, and was not wounded yet.
    pub fn of(
        alloc: Global,
        area: MainArea<V, B>,
        files: Vec<Mutex<FileCell<V, B>>>,
        packs: PacksCell<V, M>,
        spare: SpareCell<V, B>,
        base: Base,
    ) -> Volume<V, M, B>
        requires files { vec_len files ≡ V.Numbers.geometry.files }
        ensures base { result.base ≡ base }
    {
        Volume {
            alloc,
            area,
            files,
            packs: Mutex::new(packs),
            spare: Mutex::new(spare),
            base,
        }
    }

    /// The same volume, whose ordinary appends thread used segments by this rule from now on. One that was just made threads
    /// whenever it can.
    pub fn with_hole_reuse<R: Wait>(mut self, rt: &R, hole_reuse: HoleReuse) -> Volume<V, M, B>
        ensures hole_reuse { result.area.hole_reuse ≡ hole_reuse }
        ensures base { result.base ≡ self.base }
    {
        self.area = self.area.with_hole_reuse(hole_reuse);
        self.area.count_places(rt);
        self
    }

    /// The version of the image at which the volume was opened, and how many blocks were valid in it.
    pub fn base(&self) -> Base
        ensures { result ≡ self.now.base }
    {
        self.base
    }

    /// The volume's numbers.
    pub fn geometry(&self) -> Geometry
        ensures { result ≡ V.Numbers.geometry }
    {
        self.area.geometry()
    }

    // Locks the file of this inode number.
    pub(crate) fn lock_file<R: Wait>(&self, rt: &R, number: u32) -> MutexGuard<'_, FileCell<V, B>>
        requires some { 0 < number }
        requires within { number ≤ V.Numbers.geometry.files }
        ensures { (mutex_guard_value result).number ≡ number }
    {
        lock_numbered(rt, &self.files[number as usize - 1], number)
    }

    /// Whether a checkpoint failed while it was written: from then on nothing is changed, until the device is mounted again.
    pub fn is_wounded(&self) -> bool {
        self.area.turnstile().is_wounded()
    }

    /// Reads the block of a file at an index into `out`, which has a block's bytes. Answers true below the length, where an
    /// index that was never written has zeros; at or past the length it answers false, and `out` is untouched. A wounded
    /// volume is read as any other.
    ///
    /// The only error is Device, after which `out` has any bytes.
    pub fn read<R: Wait>(
        &self,
        rt: &R,
        pass: &FilePass<V>,
        index: u32,
        out: &mut [u8],
    ) -> Result<bool, Error>
        requires out { length out.old ≡ block_bytes V.Numbers.geometry.shape }
        ensures below { IfOk result (λ read. read ≡ true → (index < pass.now.file.length) × (out.new ≡ bytes_at (block_bytes V.Numbers.geometry.shape) pass.now.file index)) }
        ensures past { IfOk result (λ read. read ≡ false → (pass.now.file.length ≤ index) × (out.new ≡ out.old)) }
        ensures error { IfErr result (λ error. error ≡ Device) }
    {
        let mut cell = self.lock_file(rt, pass.number());
        cell.read(self.area.books(), pass, index, out)
    }
}
