//! Blocks of a file are given back within the room that there is.
ghost use Rattle.std.specs.Prelude.{◌≡◌, OnOk, OnErr, IfErr};
ghost use Rattle.close_area.specs.Refused.{IsNotWritten};
ghost use Rattle.geometry.specs.File.{erased};

use device::{Block, Meta};
use file_cells::FilePass;
use geometry::Error;
use rights_permits::VolumeName;
use std::sync::Wait;
use volume::Volume;

// The nodes that may be marked where a run of blocks is given back: the inode, and at either end a direct node and two on the way to it.
const MARKED: u32 = 7;

/// Gives back the blocks of a file at the indexes from `from` up to `to`, which is not among them, as `Volume::erase` does. The nodes that
/// keep some of their blocks are written by the next checkpoint. Where they might find no places then, one is written before.
///
/// Answers what a sync answers, and Wounded; the file is as before then.
pub fn erase_in_room<V: VolumeName, M: Meta, B: Block + Drop, R: Wait>(
    rt: &R,
    volume: &Volume<V, M, B>,
    pass: &mut FilePass<V>,
    from: u32,
    to: u32,
) -> Result<(), Error>
    ensures file { OnOk result (pass.new ≡ record pass.old { file = erased pass.old.file from to }) }
    ensures err { OnErr result (pass.new ≡ pass.old) }
    ensures error { IfErr result IsNotWritten }
{
    let room = volume.checkpoint_room();
    if room.marked.saturating_add(MARKED) > room.places {
        let _stored = volume.sync(rt, &[])?;
    }
    volume.erase(rt, pass, from, to)
}
