//! The memory of a volume's locks, before anything is locked in them.
ghost use Rattle.std.specs.Prelude.{◌≡◌, ◌≤◌, [], replicate, vec_len, vec_capacity, IfOk, IfErr};
ghost use Rattle.geometry.specs.declared.error.Error.TheVariants.{NoMemory};
ghost use Rattle.words.specs.Tokens.{fresh_holder};

use area::{LogCell, SegmentCell, ShardCell};
use area_emptying::SpareRows;
use device::Block;
use file_cells::{FileCell, FilePass, Seat, name_seats};
use geometry::{Error, Geometry};
use rights_books::FileAccount;
use rights_permits::VolumeName;
use std::alloc::Global;
use std::sync::Mutex;
use words::FreeSlip;

/// The memory of a main area's locks.
#[derive(Drop)]
pub(crate) struct AreaFrames<V: VolumeName, B: Block + Drop> {
    pub(crate) segments: Vec<Mutex<SegmentCell<V, B>>>,
    pub(crate) logs: Vec<Mutex<LogCell<V>>>,
    pub(crate) shards: Vec<Mutex<ShardCell<V, B>>>,
    pub ghost no_segments: { vec_len segments ≡ 0 },
    pub ghost segments_fit: { V.Numbers.geometry.segments ≤ vec_capacity segments },
    pub ghost no_logs: { vec_len logs ≡ 0 },
    pub ghost logs_fit: { 6 ≤ vec_capacity logs },
    pub ghost no_shards: { vec_len shards ≡ 0 },
    pub ghost shards_fit: { 16 ≤ vec_capacity shards },
}

/// The memory of the locks of files, and of their passes.
pub(crate) struct FileFrames<V: VolumeName, B: Block + Drop> {
    pub(crate) cells: Vec<Mutex<FileCell<V, B>>>,
    pub(crate) passes: Vec<FilePass<V>>,
    pub ghost no_cells: { vec_len cells ≡ 0 },
    pub ghost cells_fit: { V.Numbers.geometry.files ≤ vec_capacity cells },
    pub ghost no_passes: { passes.items ≡ [] },
    pub ghost passes_fit: { V.Numbers.geometry.files ≤ vec_capacity passes },
}

/// The memory of a volume's locks.
pub(crate) struct LockFrames<V: VolumeName, B: Block + Drop> {
    pub(crate) area: AreaFrames<V, B>,
    pub(crate) files: FileFrames<V, B>,
}

/// All memory of a volume that is made under its name, the seats of its readers, and room for all that lies in its locks, so
/// that leaving takes no memory.
pub(crate) struct MountFrames<V: VolumeName, B: Block + Drop> {
    pub(crate) seats: Vec<Seat<V>>,
    pub(crate) locks: LockFrames<V, B>,
    pub(crate) spare: SpareRows<B>,
    pub(crate) accounts: Vec<FileAccount>,
    pub(crate) kept: Vec<FreeSlip>,
    pub ghost every_seat: { vec_len seats ≡ 64 },
    pub ghost spare_fits: { V.Numbers.geometry.segments ≤ vec_capacity spare.segments },
    pub ghost no_accounts: { vec_len accounts ≡ 0 },
    pub ghost accounts_fit: { V.Numbers.geometry.files ≤ vec_capacity accounts },
    pub ghost none_kept: { kept.items ≡ [] },
    pub ghost kept_fit: { V.Numbers.geometry.segments ≤ vec_capacity kept },
}

impl<V: VolumeName, B: Block + Drop> AreaFrames<V, B> {
    /// The only error is NoMemory, and then nothing is kept.
    fn new(alloc: Global, geometry: &Geometry) -> Result<AreaFrames<V, B>, Error>
        requires geometry { geometry.now ≡ V.Numbers.geometry }
        ensures error { IfErr result (λ error. error ≡ NoMemory) }
    {
        let segments = Vec::with_capacity(alloc, geometry.segments as usize)?;
        let logs = Vec::with_capacity(alloc, 6)?;
        let shards = Vec::with_capacity(alloc, 16)?;
        Ok(AreaFrames {
            segments,
            logs,
            shards,
        })
    }
}

impl<V: VolumeName, B: Block + Drop> FileFrames<V, B> {
    /// The only error is NoMemory, and then nothing is kept.
    fn new(alloc: Global, geometry: &Geometry) -> Result<FileFrames<V, B>, Error>
        requires geometry { geometry.now ≡ V.Numbers.geometry }
        ensures error { IfErr result (λ error. error ≡ NoMemory) }
    {
        let passes = Vec::with_capacity(alloc, geometry.files as usize)?;
        let cells = Vec::with_capacity(alloc, geometry.files as usize)?;
        Ok(FileFrames { cells, passes })
    }

    // Frees the memory, before anything lies in it.
    fn free(self) {
        let FileFrames { cells, passes: _ } = self;
        cells.destroy_empty();
    }
}

impl<V: VolumeName, B: Block + Drop> MountFrames<V, B> {
    /// The memory of a volume with these seats of its words. The only error is NoMemory, and then nothing is kept.
    pub(crate) fn new(
        alloc: Global,
        geometry: &Geometry,
        seats: Vec<words::SeatToken>,
    ) -> Result<MountFrames<V, B>, Error>
        requires geometry { geometry.now ≡ V.Numbers.geometry }
        requires seats { seats.items ≡ replicate 64 (fresh_holder V.Words.words) }
        ensures error { IfErr result (λ error. error ≡ NoMemory) }
    {
        let seats = name_seats(alloc, seats)?;
        let area = AreaFrames::new(alloc, geometry)?;
        let spare = SpareRows::new(alloc, geometry)?;
        let accounts = Vec::with_capacity(alloc, geometry.files as usize)?;
        let files = FileFrames::new(alloc, geometry)?;
        match Vec::with_capacity(alloc, geometry.segments as usize) {
            Ok(kept) => Ok(MountFrames {
                seats,
                locks: LockFrames { area, files },
                spare,
                accounts,
                kept,
            }),
            Err(error) => {
                files.free();
                Err(Error::from(error))
            }
        }
    }
}
