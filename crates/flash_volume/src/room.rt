//! Room is made on a volume that runs.
ghost use Rattle.std.specs.Prelude.{◌≡◌, ◌<◌, ◌≤◌, IfOk, IfErr};
ghost use Rattle.close_area.specs.Refused.{IsNotWritten};
ghost use Rattle.file_cells.specs.Status.{all};
ghost use Rattle.flash_volume.specs.declared.room.Ending.TheVariants.{Enough, NothingToWin};

use cleaning::Policy;
use device::{Block, Meta};
use file_cells::Status;
use geometry::{Error, Geometry};
use rights_permits::VolumeName;
use std::sync::Wait;
use volume::Volume;

/// Each of the six logs has an open segment.
const OPEN: u32 = 6;

/// Each of the three logs of nodes may begin a segment in a checkpoint.
const NODE_LOGS: u32 = 3;

/// Why no more room is made.
#[derive(Clone, Copy, Debug, PartialEq, Eq)]
pub enum Ending {
    /// As many segments are free as were wanted.
    Enough,
    /// Fewer are, and there is nothing to win: no section was ready to be cleaned, or none of its blocks could be moved; or as many
    /// sections were cleaned as there are segments.
    NothingToWin,
}

/// What making room came to: how many segments are in each state now, why it ended, how many sections were cleaned, and how many
/// blocks were moved.
#[derive(Clone, Copy, Debug, PartialEq, Eq)]
pub struct Room {
    pub status: Status,
    pub ending: Ending,
    pub sections: u32,
    pub moved: u32,
}

/// Cleans sections by a policy until so many segments are free, or until there is nothing to win, and writes a checkpoint after each.
/// The greedy policy, `Foreground`, is for who waits for the room. Where a section won nothing the other policy chooses the next, since
/// the emptiest one may be the one that its blocks were moved to.
///
/// No file changes, and no pass is asked for: only which segments are free does, and where blocks lie. A checkpoint keeps what was
/// written to the files so far, so call it where that may be kept. Where nothing is to be won no checkpoint is written. Where readers
/// hold what was emptied nothing is to be won either, once few segments are free: it goes on when they are done.
///
/// Answers the refusals of a checkpoint: Wounded, Exhausted, NoMemory, NoSpace and Device. What was cleaned before stays so.
pub fn make_room<V: VolumeName, M: Meta, B: Block + Drop, R: Wait>(
    rt: &R,
    volume: &Volume<V, M, B>,
    policy: Policy,
    wanted: u32,
    now: u64,
) -> Result<Room, Error>
    ensures counted { IfOk result (λ room. all room.status ≡ V.Numbers.geometry.segments) }
    ensures enough { IfOk result (λ room. room.ending ≡ Enough → wanted ≤ room.status.free) }
    ensures too_few { IfOk result (λ room. room.ending ≡ NothingToWin → room.status.free < wanted) }
    ensures error { IfErr result IsNotWritten }
{
    let mut room = count_room(rt, volume, wanted);
    if room.ending == Ending::NothingToWin && room.status.prefree > 0 {
        // What is retired comes free by a checkpoint alone.
        let _stored = volume.sync(rt, &[])?;
        room = count_room(rt, volume, wanted);
    }
    let mut policy = policy;
    for _ in 0..volume.geometry().segments {
        if room.ending == Ending::Enough || is_held(room.status) {
            break;
        }
        let Some(moved) = clean_one(rt, volume, policy, now)? else {
            break;
        };
        let counted = count_room(rt, volume, wanted);
        if counted.status.free <= room.status.free {
            policy = other(policy);
        }
        room = Room {
            sections: room.sections.saturating_add(1),
            moved: room.moved.saturating_add(moved),
            ..counted
        };
    }
    Ok(room)
}

// Whether readers hold segments that are retired, which a checkpoint did not free, and so few are free that cleaning, whose moves mark
// nodes, could leave the next checkpoint without places.
fn is_held(status: Status) -> bool {
    status.prefree > 0 && status.free < NODE_LOGS
}

fn other(policy: Policy) -> Policy {
    match policy {
        Policy::Foreground => Policy::Background,
        Policy::Background => Policy::Foreground,
    }
}

/// How many blocks the files of a volume may have, with their nodes and the folder, so that writing goes on for good: where a write finds
/// no room, `make_room` wins some. The other segments are kept: six are open, and the fellows of each in its section can't be cleaned
/// meanwhile; three more are for the cleaner, which moves blocks before their places come free. That it is enough was tried with users
/// by chance (`tests_runs users`), and is not proved.
pub fn usable_blocks(geometry: &Geometry) -> u32 {
    let fellows = geometry.per_section.saturating_sub(1);
    let kept = fellows.saturating_mul(OPEN).saturating_add(OPEN + 3);
    geometry
        .segments
        .saturating_sub(kept)
        .saturating_mul(geometry.shape.segment_blocks())
}

// The room that there is, while no section was cleaned.
fn count_room<V: VolumeName, M: Meta, B: Block + Drop, R: Wait>(
    rt: &R,
    volume: &Volume<V, M, B>,
    wanted: u32,
) -> Room
    ensures counted { all result.status ≡ V.Numbers.geometry.segments }
    ensures enough { result.ending ≡ Enough → wanted ≤ result.status.free }
    ensures too_few { result.ending ≡ NothingToWin → result.status.free < wanted }
{
    let status = volume.status(rt);
    let ending = if wanted <= status.free {
        Ending::Enough
    } else {
        Ending::NothingToWin
    };
    Room {
        status,
        ending,
        sections: 0,
        moved: 0,
    }
}

// Cleans a section, writes a checkpoint, and answers how many blocks were moved. None where no section was ready to be cleaned, or none of
// its blocks could be moved: then no checkpoint is written.
fn clean_one<V: VolumeName, M: Meta, B: Block + Drop, R: Wait>(
    rt: &R,
    volume: &Volume<V, M, B>,
    policy: Policy,
    now: u64,
) -> Result<Option<u32>, Error>
    ensures error { IfErr result IsNotWritten }
{
    let cleaned = match volume.clean(rt, policy, now) {
        Ok(cleaned) => cleaned,
        Err(Error::NoSpace) => return Ok(None),
        Err(error) => return Err(error),
    };
    if cleaned.moved == 0 && cleaned.gone == 0 {
        return Ok(None);
    }
    let _stored = volume.sync(rt, &[])?;
    Ok(Some(cleaned.moved))
}
