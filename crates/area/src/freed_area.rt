//! All retired segments are freed.
ghost use Rattle.std.specs.Prelude.{◌≡◌, ◌<◌, ◌≤◌, if◌then◌else◌, vec_capacity, IfSome};
ghost use Rattle.area.specs.Slips.{AreSlipsOf, HaveFreed};

use crate::MainArea;
use crate::segment::free_segment;
use crate::slips::{put_kept, put_or_keep};
use crate::unsettled::Unsettled;
use device::Block;
use pool::PoolPass;
use rights_permits::VolumeName;
use std::sync::Wait;
use words::FreeSlip;

/// Puts the slips that an earlier call kept, then frees each segment that was found retired, in ascending order, and puts its slip:
/// the reserve is filled first. A segment stays retired where a pin is out or no version is complete that is later than the
/// one in which it was retired. A slip that both queues refuse is kept. Answers how many segments were freed.
///
/// Each segment's lock is taken by itself, and let go before its slip is put. It takes no memory: `kept` has room for a slip of each segment.
pub fn free_retired<V: VolumeName, B: Block + Drop, R: Wait>(
    rt: &R,
    area: &MainArea<V, B>,
    pass: &mut PoolPass<V::Words, V::Pool>,
    kept: &mut Vec<FreeSlip>,
    unsettled: &Unsettled,
) -> u32
    requires kept { AreSlipsOf V.Words.words V.Numbers.geometry.segments kept.old.items }
    requires room { V.Numbers.geometry.segments ≤ vec_capacity kept.old }
    ensures freed { HaveFreed V.Numbers.geometry.segments result pass.old pass.new kept.old.items kept.new.items }
    ensures kept { AreSlipsOf V.Words.words V.Numbers.geometry.segments kept.new.items }
    ensures capacity { vec_capacity kept.new ≡ vec_capacity kept.old }
{
    let segments = area.geometry().segments;
    put_kept(rt, area.pool(), pass, kept, segments);
    let mut count = 0;
    for number in 0..segments {
        if free_one(rt, area, pass, kept, unsettled, number) {
            count += 1;
        }
    }
    count
}

// Frees a segment that was found retired, where it may be freed and there is room for its slip, and puts or keeps that. Answers
// whether it was freed.
fn free_one<V: VolumeName, B: Block + Drop, R: Wait>(
    rt: &R,
    area: &MainArea<V, B>,
    pass: &mut PoolPass<V::Words, V::Pool>,
    kept: &mut Vec<FreeSlip>,
    unsettled: &Unsettled,
    number: u32,
) -> bool
    requires within { number < V.Numbers.geometry.segments }
    requires kept { AreSlipsOf V.Words.words V.Numbers.geometry.segments kept.old.items }
    ensures freed { HaveFreed V.Numbers.geometry.segments (if result then 1 else 0) pass.old pass.new kept.old.items kept.new.items }
    ensures kept { AreSlipsOf V.Words.words V.Numbers.geometry.segments kept.new.items }
    ensures capacity { vec_capacity kept.new ≡ vec_capacity kept.old }
{
    if !unsettled.turn(number).free || kept.len() == kept.capacity() {
        return false;
    }
    match free_locked(rt, area, number) {
        Some(slip) => {
            let _number = area.words().segment_of(&slip);
            put_or_keep(rt, area.pool(), pass, kept, slip);
            true
        }
        None => false,
    }
}

// Frees a segment where it may be freed, and lets its lock go.
fn free_locked<V: VolumeName, B: Block + Drop, R: Wait>(
    rt: &R,
    area: &MainArea<V, B>,
    number: u32,
) -> Option<FreeSlip>
    requires within { number < V.Numbers.geometry.segments }
    ensures words { IfSome result (λ slip. slip.table ≡ V.Words.words) }
{
    let mut cell = area.lock_segment(rt, number);
    free_segment(area.words(), &mut *cell)
}
