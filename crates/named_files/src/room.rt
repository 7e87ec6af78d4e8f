//! Room is made for a file.
use crate::walk::place_of;
use flash_volume::{
    Block, Ending, Error, Geometry, Meta, Policy, Rights, Room, Shape, Volume, VolumeName, Work,
    make_room, usable_blocks,
};
use named_folder::FOLDER;
use std::alloc::Global;
use std::sync::Wait;

/// The segments that are kept free for checkpoints.
const RESERVE: u32 = 4;

/// Each of the logs may begin a segment.
const LOGS: u32 = 6;

/// Makes room for a file of so many bytes, and for the folder as it is: cleans sections, greedily, until there is enough, or until there
/// is nothing to win. Each is followed by a checkpoint, so that the volume may be given up after it. Where the file has more blocks than
/// there can ever be free, nothing is cleaned.
#[derive(Clone, Copy, Drop)]
pub struct MakeRoom {
    pub bytes: u64,
    /// The time, in seconds.
    pub now: u64,
}

impl<M: Meta, B: Block + Drop> Work<M, B> for MakeRoom {
    ghost use Rattle.std.specs.Prelude.{◌≡◌};
    ghost use Rattle.close_area.specs.Refused.{IsNotWritten};
    ghost use Rattle.file_cells.specs.Status.{all};

    type Output = Room;

    // All segments are counted, and no file is changed.
    ghost post = { λ work geometry before room after. (all room.status ≡ geometry.segments) × (after ≡ before) };

    // It fails only as a last checkpoint may.
    ghost failed = { λ work geometry before error. IsNotWritten error };

    fn run<V: VolumeName, R: Wait>(
        self,
        rt: &R,
        _alloc: Global,
        volume: &Volume<V, M, B>,
        rights: &mut Rights<V>,
    ) -> Result<Room, Error> {
        let geometry = volume.geometry();
        let blocks = self.bytes / u64::from(geometry.shape.block_bytes());
        if !may_fit(&geometry, volume.base().total, blocks) {
            return Ok(Room {
                status: volume.status(rt),
                ending: Ending::NothingToWin,
                sections: 0,
                moved: 0,
            });
        }
        let passes = rights.passes.as_slice();
        let folder = match place_of(passes, FOLDER) {
            Some(place) => passes[place].length(),
            None => 0,
        };
        let wanted = segments_for(&geometry, blocks.saturating_add(u64::from(folder)));
        make_room(rt, volume, Policy::Foreground, wanted, self.now)
    }
}

// Whether there can be so many free blocks beside the valid ones and the reserve.
fn may_fit(geometry: &Geometry, valid: u32, blocks: u64) -> bool {
    let reserve = RESERVE * geometry.shape.segment_blocks();
    let taken = u64::from(valid).saturating_add(u64::from(reserve));
    taken.saturating_add(blocks) <= u64::from(geometry.blocks())
}

// So many free segments are enough for a file of so many blocks with its nodes, where each log may begin a segment.
fn segments_for(geometry: &Geometry, blocks: u64) -> u32 {
    let filled = with_nodes(geometry.shape, blocks) / u64::from(geometry.shape.segment_blocks());
    let filled = u32::try_from(filled).unwrap_or(u32::MAX);
    filled.saturating_add(RESERVE + LOGS)
}

/// The blocks of a volume of which it depends whether there is room for a file.
#[derive(Clone, Copy, PartialEq, Eq)]
pub struct RoomTaken {
    /// All valid blocks.
    pub valid: u32,
    /// The folder's blocks of data.
    pub folder: u32,
    /// The blocks of data that the file of the name has. None where it is new.
    pub file: Option<u32>,
}

impl RoomTaken {
    /// What is taken once the folder has so many bytes, where it has fewer blocks now.
    pub fn with_folder(self, geometry: &Geometry, bytes: u64) -> RoomTaken {
        let wanted = bytes.div_ceil(u64::from(geometry.shape.block_bytes().max(1)));
        let folder = u32::try_from(wanted).unwrap_or(u32::MAX).max(self.folder);
        let before = with_nodes(geometry.shape, u64::from(self.folder));
        let after = with_nodes(geometry.shape, u64::from(folder));
        let more = u32::try_from(after.saturating_sub(before)).unwrap_or(u32::MAX);
        RoomTaken {
            valid: self.valid.saturating_add(more),
            folder,
            file: self.file,
        }
    }
}

/// Whether a file of so many bytes stays within the room that a volume tells (`usable_blocks`), beside what is taken: its own blocks then
/// come free, and the folder can be written once more. A file that gets no larger always does.
pub fn has_room(geometry: &Geometry, taken: RoomTaken, bytes: u64) -> bool {
    let data = bytes.div_ceil(u64::from(geometry.shape.block_bytes().max(1)));
    let (before, named) = match taken.file {
        Some(blocks) => (with_nodes(geometry.shape, u64::from(blocks)), 0),
        // The folder gets a row, for which it may want a block and a node.
        None => (0, 2),
    };
    let after = with_nodes(geometry.shape, data).saturating_add(named);
    let others = u64::from(taken.valid).saturating_sub(before);
    let kept = kept_for_folder(geometry, taken.folder);
    let all = others.saturating_add(after).saturating_add(kept);
    after <= before || all <= u64::from(usable_blocks(geometry))
}

/// How many blocks are left to a folder of so many: where a name goes, most of its blocks are written anew before the old ones come
/// free. So each file can be removed.
pub fn kept_for_folder(geometry: &Geometry, folder: u32) -> u64 {
    with_nodes(geometry.shape, u64::from(folder))
}

// How many blocks a file with so many blocks of data has with its nodes: the inode, and the direct and indirect ones.
fn with_nodes(shape: Shape, data: u64) -> u64 {
    let entries = u64::from(shape.node_entries().max(1));
    let past_inode = data.saturating_sub(u64::from(shape.inode_entries()));
    let direct = past_inode.div_ceil(entries);
    let indirect = direct.saturating_sub(2).div_ceil(entries);
    let above = if indirect > 2 { 1 } else { 0 };
    let nodes = direct.saturating_add(indirect).saturating_add(1 + above);
    data.saturating_add(nodes)
}
