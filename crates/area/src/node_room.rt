//! Whether the next checkpoint finds places for the nodes that it has to write.
//!
//! What stands here is counted beside the volume, for the rule that threads only while the reserve is full. No promise of a call rests
//! on it: a wrong count would refuse a write too early or a checkpoint too late, and lose nothing.
use crate::append::Who;
use crate::hole_reuse::HoleReuse;
use crate::log::Log;
use crate::main_area::MainArea;
use device::Block;
use geometry::Kind;
use pool::SlipCounts;
use rights_permits::VolumeName;
use std::sync::Wait;
use std::sync::atomic::{AtomicU32, Ordering};

// The segments that are left to checkpoints beyond those that the marked nodes want: each log of nodes may begin one, also for marks
// that a cut or a new file makes.
const SPARE: u32 = 3;

// The logs of data: each may draw one ordinary segment before another thread has seen that it did.
const DATA_LOGS: u32 = 3;

/// At most how many nodes of a file are marked as changed since they were written: its inode and direct nodes, and its indirect ones.
#[derive(Clone, Copy, PartialEq, Eq)]
pub struct MarkedNodes {
    pub direct: u32,
    pub indirect: u32,
}

impl MarkedNodes {
    /// No node.
    pub const NONE: MarkedNodes = MarkedNodes {
        direct: 0,
        indirect: 0,
    };
}

/// What the next checkpoint has to write, in blocks of nodes, and what it could write now.
#[derive(Clone, Copy, Debug, PartialEq, Eq)]
pub struct CheckpointRoom {
    /// At most how many nodes are marked as changed since they were written.
    pub marked: u32,
    /// For how many there are places in open segments of their logs and in free segments. By the careful rule it has the holes of used
    /// segments too, which are not counted here.
    pub places: u32,
}

// Of one log of nodes: at most how many marked nodes it gets with the next checkpoint, and how many places its open segment has.
#[derive(Drop)]
struct LogRoom {
    marked: AtomicU32,
    places: AtomicU32,
}

impl LogRoom {
    fn new() -> LogRoom {
        LogRoom {
            marked: AtomicU32::new(0),
            places: AtomicU32::new(0),
        }
    }

    // What is marked and its places, added to those of others.
    fn told(&self, places: u32, marked: u32) -> CheckpointRoom {
        CheckpointRoom {
            marked: marked.saturating_add(self.marked.load(Ordering::Relaxed)),
            places: places.saturating_add(self.places.load(Ordering::Relaxed)),
        }
    }

    // How many segments the marked nodes want beside the open one.
    fn segments(&self, blocks: u32) -> u32 {
        let marked = self.marked.load(Ordering::Relaxed);
        segments_for(
            marked.saturating_sub(self.places.load(Ordering::Relaxed)),
            blocks,
        )
    }
}

// How many segments of so many blocks hold so many.
fn segments_for(count: u32, blocks: u32) -> u32 {
    count.div_ceil(blocks.max(1))
}

/// How many nodes the next checkpoint has to write at most, and the places that are open for them.
#[derive(Drop)]
pub(crate) struct NodeRoom {
    hot: LogRoom,
    warm: LogRoom,
    cold: LogRoom,
}

impl NodeRoom {
    pub(crate) fn new() -> NodeRoom {
        NodeRoom {
            hot: LogRoom::new(),
            warm: LogRoom::new(),
            cold: LogRoom::new(),
        }
    }

    // Counts the marked nodes of a file anew.
    pub(crate) fn recount(&self, kind: Kind, before: MarkedNodes, after: MarkedNodes) {
        let direct = match kind {
            Kind::Dir => &self.hot,
            Kind::File | Kind::Media => &self.warm,
        };
        direct.marked.fetch_add(after.direct, Ordering::Relaxed);
        direct.marked.fetch_sub(before.direct, Ordering::Relaxed);
        self.cold
            .marked
            .fetch_add(after.indirect, Ordering::Relaxed);
        self.cold
            .marked
            .fetch_sub(before.indirect, Ordering::Relaxed);
    }

    // Notes how many places the open segment of a log has.
    pub(crate) fn note_places(&self, log: Log, places: u32) {
        match log {
            Log::HotNode => self.hot.places.store(places, Ordering::Relaxed),
            Log::WarmNode => self.warm.places.store(places, Ordering::Relaxed),
            Log::ColdNode => self.cold.places.store(places, Ordering::Relaxed),
            Log::HotData | Log::WarmData | Log::ColdData => {}
        }
    }

    // Whether an append may take a place in an open segment, or open a free one, while so many are free of so many blocks: all marked
    // nodes have to find places still. What is written by a file's user leaves segments to checkpoints. So does what cleaning moves, which
    // may fill holes instead.
    pub(crate) fn allows(&self, who: Who, free: SlipCounts, blocks: u32) -> bool {
        let wanted = self.segments(blocks);
        let all = free.reserve.saturating_add(free.ordinary);
        match who {
            Who::Ordinary => {
                let sure = free.ordinary.saturating_sub(DATA_LOGS);
                let is_sure = wanted <= free.reserve.saturating_add(sure);
                wanted == 0 || (is_sure && wanted.saturating_add(SPARE) <= all)
            }
            Who::Cleaning(_) => wanted.saturating_add(SPARE + DATA_LOGS) < all,
            Who::Checkpoint => true,
        }
    }

    // What is marked, and the places for it while so many segments are free of so many blocks.
    pub(crate) fn told(&self, free: SlipCounts, blocks: u32) -> CheckpointRoom {
        let segments = free.reserve.saturating_add(free.ordinary);
        let free_places = segments.saturating_mul(blocks);
        let hot = self.hot.told(free_places, 0);
        let warm = self.warm.told(hot.places, hot.marked);
        self.cold.told(warm.places, warm.marked)
    }

    fn segments(&self, blocks: u32) -> u32 {
        let direct = self
            .hot
            .segments(blocks)
            .saturating_add(self.warm.segments(blocks));
        direct.saturating_add(self.cold.segments(blocks))
    }
}

impl<V: VolumeName, B: Block + Drop> MainArea<V, B> {
    /// Counts the places that are open for nodes, of a main area that was just put together.
    pub fn count_places<R: Wait>(&self, rt: &R) {
        self.count_places_of(rt, Log::HotNode);
        self.count_places_of(rt, Log::WarmNode);
        self.count_places_of(rt, Log::ColdNode);
    }

    fn count_places_of<R: Wait>(&self, rt: &R, log: Log) {
        let cell = self.lock_log(rt, log.number());
        if let Some(number) = cell.open_number() {
            let segment = self.lock_segment(rt, number);
            self.note_next(log, segment.state.next());
        }
    }

    // Notes which place of a log's open segment is the next.
    pub(crate) fn note_next(&self, log: Log, next: u32) {
        let blocks = self.geometry().shape.segment_blocks();
        self.node_room.note_places(log, blocks.saturating_sub(next));
    }

    // Whether the volume's rule lets an append take a place in an open segment, or open a free one.
    pub(crate) fn keeps_node_room(&self, who: Who) -> bool {
        match self.hole_reuse {
            HoleReuse::Always => true,
            HoleReuse::WhileReserveIsFull => {
                let blocks = self.geometry().shape.segment_blocks();
                let free = self.pool().counts();
                self.node_room.allows(who, free, blocks)
            }
        }
    }

    /// At most how many nodes the next checkpoint has to write, and for how many there are places.
    pub fn checkpoint_room(&self) -> CheckpointRoom {
        let blocks = self.geometry().shape.segment_blocks();
        self.node_room.told(self.pool().counts(), blocks)
    }
}
