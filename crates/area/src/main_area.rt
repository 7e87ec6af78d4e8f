//! The main area, and its locks.
ghost use Rattle.std.specs.Prelude.{◌≡◌, ◌<◌, ◌≤◌, vec_len, vec_capacity};
ghost use Rattle.std.specs.Sync.Mutex.{mutex_guard_value};
ghost use Rattle.rights_permits.specs.Names.{layout_of};

use crate::cells::{LogCell, SegmentCell, ShardCell};
use crate::hole_reuse::HoleReuse;
use crate::node_room::{MarkedNodes, NodeRoom};
use crate::numbered::lock_numbered;
use device::Block;
use geometry::{Geometry, Kind};
use pool::Pool;
use rights_books::Books;
use rights_permits::{Turnstile, VolumeName};
use std::sync::atomic::AtomicU32;
use std::sync::{Mutex, MutexGuard, Wait};
use words::Words;

/// The main area of a volume. All threads share it by `&`. No call takes memory.
pub struct MainArea<V: VolumeName, B: Block + Drop> {
    pub(crate) geometry: Geometry,
    pub(crate) turnstile: Turnstile<V::Books, V::Turns>,
    pub(crate) words: Words,
    pub(crate) pool: Pool<V::Words, V::Pool>,
    pub(crate) segments: Vec<Mutex<SegmentCell<V, B>>>,
    pub(crate) shards: Vec<Mutex<ShardCell<V, B>>>,
    pub(crate) logs: Vec<Mutex<LogCell<V>>>,
    // Each node number up to this was taken when a search came by. The next search begins behind it.
    pub(crate) nodes_seen: AtomicU32,
    pub(crate) hole_reuse: HoleReuse,
    pub(crate) node_room: NodeRoom,
    ghost numbers: { geometry ≡ V.Numbers.geometry },
    ghost laid: { V.Books.books.key ≡ layout_of V.Numbers.geometry },
    ghost worded: { words ≡ record { table = V.Words.words; segments = V.Numbers.geometry.segments } },
    ghost segmented: { vec_len segments ≡ V.Numbers.geometry.segments },
    ghost sharded: { vec_len shards ≡ 16 },
    ghost logged: { vec_len logs ≡ 6 },
}

impl<V: VolumeName, B: Block + Drop> MainArea<V, B> {
    /// A main area of these parts: its segments, shards and logs in the order of their numbers. It threads whenever it can.
    pub fn new(
        geometry: Geometry,
        turnstile: Turnstile<V::Books, V::Turns>,
        words: Words,
        pool: Pool<V::Words, V::Pool>,
        segments: Vec<Mutex<SegmentCell<V, B>>>,
        shards: Vec<Mutex<ShardCell<V, B>>>,
        logs: Vec<Mutex<LogCell<V>>>,
    ) -> MainArea<V, B>
        requires geometry { geometry ≡ V.Numbers.geometry }
        requires layout { V.Books.books.key ≡ layout_of V.Numbers.geometry }
        requires words { words ≡ record { table = V.Words.words; segments = V.Numbers.geometry.segments } }
        requires segments { vec_len segments ≡ V.Numbers.geometry.segments }
        requires shards { vec_len shards ≡ 16 }
        requires logs { vec_len logs ≡ 6 }
    {
        MainArea {
            geometry,
            turnstile,
            words,
            pool,
            segments,
            shards,
            logs,
            nodes_seen: AtomicU32::new(0),
            hole_reuse: HoleReuse::Always,
            node_room: NodeRoom::new(),
        }
    }

    /// The same main area, whose threads begin by this rule from now on.
    pub fn with_hole_reuse(mut self, hole_reuse: HoleReuse) -> MainArea<V, B>
        ensures { result.hole_reuse ≡ hole_reuse }
    {
        self.hole_reuse = hole_reuse;
        self
    }

    /// The turnstile, the words, and what lies in the locks of the segments and the shards, in the order of their numbers.
    pub fn into_parts(
        self,
    ) -> (
        Turnstile<V::Books, V::Turns>,
        Words,
        Vec<Mutex<SegmentCell<V, B>>>,
        Vec<Mutex<ShardCell<V, B>>>,
    )
        ensures words { result.1 ≡ record { table = V.Words.words; segments = V.Numbers.geometry.segments } }
        ensures segments { vec_len result.2 ≡ V.Numbers.geometry.segments }
        ensures shards { vec_len result.3 ≡ 16 }
    {
        let MainArea {
            geometry: _,
            turnstile,
            words,
            pool: _,
            segments,
            shards,
            logs: _,
            nodes_seen: _,
            hole_reuse: _,
            node_room: _,
        } = self;
        (turnstile, words, segments, shards)
    }

    /// By which rule threads begin.
    pub fn hole_reuse(&self) -> HoleReuse
        ensures { result ≡ self.now.hole_reuse }
    {
        self.hole_reuse
    }

    /// Counts the marked nodes of a file of this kind anew: there were at most so many before, and there are at most so many now. The
    /// careful rule keeps segments for them.
    pub fn recount(&self, kind: Kind, before: MarkedNodes, after: MarkedNodes) {
        self.node_room.recount(kind, before, after);
    }

    /// The volume's numbers.
    pub fn geometry(&self) -> Geometry
        ensures { result ≡ V.Numbers.geometry }
    {
        self.geometry
    }

    /// The books, which have an account for each segment, file and shard of the volume.
    pub fn books(&self) -> &Books
        ensures books { result.now ≡ V.Books.books }
        ensures layout { V.Books.books.key ≡ layout_of V.Numbers.geometry }
    {
        self.turnstile.books()
    }

    /// The permits of the books.
    pub fn turnstile(&self) -> &Turnstile<V::Books, V::Turns> {
        &self.turnstile
    }

    /// The words of the segments.
    pub fn words(&self) -> &Words
        ensures { result.now ≡ record { table = V.Words.words; segments = V.Numbers.geometry.segments } }
    {
        &self.words
    }

    /// The free segments.
    pub fn pool(&self) -> &Pool<V::Words, V::Pool> {
        &self.pool
    }

    /// Locks the segment of this number.
    pub fn lock_segment<R: Wait>(&self, rt: &R, number: u32) -> MutexGuard<'_, SegmentCell<V, B>>
        requires { number < V.Numbers.geometry.segments }
        ensures { (mutex_guard_value result).number ≡ number }
    {
        lock_numbered(rt, &self.segments[number as usize], number)
    }

    /// Locks the shard of this number.
    pub fn lock_shard<R: Wait>(&self, rt: &R, number: u32) -> MutexGuard<'_, ShardCell<V, B>>
        requires { number < 16 }
        ensures { (mutex_guard_value result).number ≡ number }
    {
        lock_numbered(rt, &self.shards[number as usize], number)
    }

    /// Locks the log of this number.
    pub fn lock_log<R: Wait>(&self, rt: &R, number: u32) -> MutexGuard<'_, LogCell<V>>
        requires { number < 6 }
        ensures { (mutex_guard_value result).number ≡ number }
    {
        lock_numbered(rt, &self.logs[number as usize], number)
    }
}
