//! Makes room on a volume that is written.
ghost use Rattle.std.specs.Prelude.{◌≡◌, ◌≤◌, ◌<◌, true, false};

use crate::counts::Counter;
use flash_volume::{Block, Ending, Error, Geometry, Meta, Policy, Volume, VolumeName, make_room};
use std::sync::{RwLock, RwLockReadGuard, RwLockWriteGuard, Wait};

// The segments that are kept free for checkpoints and cleaning.
const RESERVE: u32 = 4;

// Each of the six logs has an open segment.
const OPEN: u32 = 6;

// Below so many free segments beside the reserve a section with the fewest valid blocks is cleaned, and no better one is looked for.
const URGENT: u32 = 2;

// Below so many the cleaner begins, in the smallest volume. A larger one has one more for each `SEGMENTS_A_LOW`.
const LOW: u32 = 4;

const SEGMENTS_A_LOW: u32 = 128;

// So many more than at the beginning are free when it ends, in the smallest volume. A larger one has one more for each `SEGMENTS_A_RISE`.
const RISE: u32 = 4;

const SEGMENTS_A_RISE: u32 = 64;

/// How many segments have to be free, that cleaning is urgent no more, that it needn't begin, and that it ends. The first is the least and
/// the last is the largest, so that it does not begin again right after its end.
#[derive(Clone, Copy)]
pub(crate) struct Thresholds {
    pub urgent: u32,
    pub low: u32,
    pub high: u32,
    ghost rising: { urgent ≤ low },
    ghost apart: { low < high },
}

impl Thresholds {
    // Those of a volume with so many valid blocks. They are never more than half of the segments that would be free were each valid block in
    // a full one: a fuller volume would be cleaned without end, so there a write that finds no room has some made.
    pub fn of(geometry: &Geometry, valid: u32) -> Thresholds {
        let low = RESERVE + LOW + geometry.segments / SEGMENTS_A_LOW;
        let high = low + RISE + geometry.segments / SEGMENTS_A_RISE;
        let high = high.min(spare_segments(geometry, valid) / 2).max(1);
        let low = low.min(high - 1);
        Thresholds {
            urgent: low.min(RESERVE + URGENT),
            low,
            high,
        }
    }

    // Whether so few segments are free that some are to be won: below the first threshold who begins to clean, and below the second who has
    // begun.
    pub fn are_missed(self, free: u32, has_begun: bool) -> bool
        ensures begins { has_begun ≡ false → result ≡ true → free < self.low }
        ensures goes_on { has_begun ≡ true → result ≡ true → free < self.high }
        ensures ends { result ≡ false → self.low ≤ free }
    {
        if has_begun {
            free < self.high
        } else {
            free < self.low
        }
    }

    // By cost and benefit where there is time, else greedily.
    pub fn policy(self, free: u32) -> Policy {
        if free < self.urgent {
            Policy::Foreground
        } else {
            Policy::Background
        }
    }
}

// The segments that would be free were each valid block in a full segment, beside the open ones.
fn spare_segments(geometry: &Geometry, valid: u32) -> u32 {
    let full = valid.div_ceil(geometry.shape.segment_blocks().max(1));
    geometry.segments.saturating_sub(full).saturating_sub(OPEN)
}

/// Who makes room, and what that came to.
///
/// Its gate is held to read by each thread that writes a part, or cleans in the background. A write that finds no room holds it to write
/// while it makes some and writes: else others would take what it wins. Who waits for the gate so is served before those who come later.
#[derive(Drop)]
pub(crate) struct Cleaner {
    gate: RwLock<()>,
    sections: Counter,
    moved: Counter,
}

impl Cleaner {
    pub fn new() -> Cleaner {
        Cleaner {
            gate: RwLock::new(()),
            sections: Counter::new(),
            moved: Counter::new(),
        }
    }

    pub fn sections(&self) -> u64 {
        self.sections.get()
    }

    pub fn moved(&self) -> u64 {
        self.moved.get()
    }

    // Beside others: until the guard goes, no write makes room.
    pub fn beside_others<R: Wait>(&self, rt: &R) -> RwLockReadGuard<'_, ()> {
        self.gate.read(rt)
    }

    // Alone: until the guard goes, no other thread writes or cleans.
    pub fn alone<R: Wait>(&self, rt: &R) -> RwLockWriteGuard<'_, ()> {
        self.gate.write(rt)
    }

    // Makes room for a write that is alone and found none. At its first attempt a checkpoint may be enough, which frees what is retired and
    // writes the nodes that wait for places; then a section is cleaned, or more until one segment more is free, those with the fewest valid
    // blocks first.
    pub fn make_room<V: VolumeName, M: Meta, B: Block + Drop, R: Wait>(
        &self,
        rt: &R,
        volume: &Volume<V, M, B>,
        attempt: u32,
        now: u64,
    ) -> Result<(), Error> {
        if attempt == 0 {
            let _stored = volume.sync(rt, &[])?;
        } else {
            let _ending = self.win_segment(rt, volume, Policy::Foreground, now)?;
        }
        Ok(())
    }

    // Cleans by a policy until one segment more is free, beside others.
    pub fn clean<V: VolumeName, M: Meta, B: Block + Drop, R: Wait>(
        &self,
        rt: &R,
        volume: &Volume<V, M, B>,
        policy: Policy,
        now: u64,
    ) -> Result<Ending, Error> {
        let _beside = self.beside_others(rt);
        self.win_segment(rt, volume, policy, now)
    }

    fn win_segment<V: VolumeName, M: Meta, B: Block + Drop, R: Wait>(
        &self,
        rt: &R,
        volume: &Volume<V, M, B>,
        policy: Policy,
        now: u64,
    ) -> Result<Ending, Error> {
        let wanted = volume.status(rt).free.saturating_add(1);
        let room = make_room(rt, volume, policy, wanted, now)?;
        self.sections.add(u64::from(room.sections));
        self.moved.add(u64::from(room.moved));
        Ok(room.ending)
    }
}
