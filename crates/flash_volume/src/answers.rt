//! What a request for bytes comes to, under the lock of its file.
ghost use Rattle.std.specs.Prelude.{◌≡◌, ◌<◌, ◌≤◌, ◌+◌, length, map, reverse, take, drop, IfOk, IfErr, OnOk, OnErr};
ghost use Rattle.geometry.specs.Refusals.{IsOfWrite};
ghost use Rattle.checkpoint.specs.Files.{files_of};
ghost use Rattle.checkpoint.specs.Holding.{IsInPack};
ghost use Rattle.checkpoint_image.specs.View.{taken_view};
ghost use Rattle.checkpoint_sync.specs.Lent.{shown_by};
ghost use Rattle.close_area.specs.Refused.{IsNotWritten};
ghost use Rattle.flash_volume.specs.Answers.{block_of, laid_over};
ghost use Rattle.geometry.specs.File.{written};
ghost use Rattle.geometry.specs.Shape.{block_bytes};
ghost use Rattle.geometry.specs.declared.error.Error.TheVariants.{Device};
ghost use Rattle.image.specs.Rules.{IsLawful};

use crate::pass_table::PassTable;
use checkpoint::Stored;
use device::{Block, Meta};
use file_cells::FilePass;
use geometry::Error;
use rights_permits::VolumeName;
use std::alloc::Global;
use std::sync::Wait;
use volume::Volume;

/// Reads the block of a file at an index into `block`: zeros at and past the length. The only error is Device.
pub fn read_block<V: VolumeName, M: Meta, B: Block + Drop, R: Wait>(
    rt: &R,
    volume: &Volume<V, M, B>,
    pass: &FilePass<V>,
    index: u32,
    block: &mut [u8],
) -> Result<(), Error>
    requires block { length block.old ≡ block_bytes V.Numbers.geometry.shape }
    ensures bytes { OnOk result (block.new ≡ block_of (block_bytes V.Numbers.geometry.shape) pass.now.file index) }
    ensures error { IfErr result (λ error. error ≡ Device) }
{
    let below = volume.read(rt, pass, index, block)?;
    if !below {
        block.fill(0);
    }
    Ok(())
}

/// Reads bytes that lie in one block of a file, from a byte of it on, into `out`: those that the pass shows. `block` has room for a block.
/// The only error is Device.
pub fn read_part<V: VolumeName, M: Meta, B: Block + Drop, R: Wait>(
    rt: &R,
    volume: &Volume<V, M, B>,
    pass: &FilePass<V>,
    index: u32,
    from: usize,
    block: &mut [u8],
    out: &mut [u8],
) -> Result<(), Error>
    requires block { length block.old ≡ block_bytes V.Numbers.geometry.shape }
    requires within { from + length out.old ≤ block_bytes V.Numbers.geometry.shape }
    ensures bytes { OnOk result (out.new ≡ take (length out.old) (drop from (block_of (block_bytes V.Numbers.geometry.shape) pass.now.file index))) }
    ensures error { IfErr result (λ error. error ≡ Device) }
{
    read_block(rt, volume, pass, index, block)?;
    let end = from + out.len();
    out.copy_from_slice(&block[from..end]);
    Ok(())
}

/// Writes bytes that lie in one block of a file, from a byte of it on: they are laid over what the pass shows there, which is not read
/// where they are a whole block. `block` has room for a block. Answers what a read and a write of the volume answer; then the file is as
/// before.
pub fn write_part<V: VolumeName, M: Meta, B: Block + Drop, R: Wait>(
    rt: &R,
    volume: &Volume<V, M, B>,
    pass: &mut FilePass<V>,
    index: u32,
    from: usize,
    block: &mut [u8],
    bytes: &[u8],
    now: u64,
) -> Result<(), Error>
    requires block { length block.old ≡ block_bytes V.Numbers.geometry.shape }
    requires within { from + length bytes.now ≤ block_bytes V.Numbers.geometry.shape }
    ensures file { OnOk result (pass.new ≡ record pass.old { file = written pass.old.file index (laid_over (block_of (block_bytes V.Numbers.geometry.shape) pass.old.file index) from bytes.now) }) }
    ensures err { OnErr result (pass.new ≡ pass.old) }
    ensures error { IfErr result IsOfWrite }
{
    pass.blocks_law();
    if bytes.len() == block.len() {
        return volume.write(rt, pass, index, bytes, now);
    }
    read_block(rt, volume, pass, index, block)?;
    let end = from + bytes.len();
    block[from..end].copy_from_slice(bytes);
    volume.write(rt, pass, index, block, now)
}

/// Writes a checkpoint that has what each pass in the pass table shows at one moment: the places with passes are held until it is written.
/// Readers of snapshots go on meanwhile.
///
/// Answers NoMemory before any place is held or anything is written, else what a sync answers. The passes are in their places again
/// then, and show what they showed.
pub fn flush<V: VolumeName, M: Meta, B: Block + Drop, R: Wait>(
    rt: &R,
    alloc: Global,
    volume: &Volume<V, M, B>,
    pass_table: &PassTable<V>,
) -> Result<Stored<M, B>, Error>
    ensures lawful { IfOk result (λ stored. IsLawful V.Numbers.geometry (taken_view stored.taken.image)) }
    ensures written { IfOk result (λ stored. IsInPack M.may_leave V.Numbers.geometry (taken_view stored.taken.image) stored.pack.shown.items) }
    ensures later { IfOk result (λ stored. volume.now.base.version < stored.taken.image.tables.version) }
    ensures error { IfErr result IsNotWritten }
{
    let files = volume.geometry().files;
    let mut guards = Vec::with_capacity(alloc, files as usize)?;
    let mut passes = Vec::with_capacity(alloc, files as usize)?;
    for place in 0..files {
        if let Some(mut guard) = pass_table.write(rt, place + 1)
            && let Some(pass) = guard.take()
        {
            passes.push_reserved(pass);
            guards.push_reserved(guard);
        }
    }
    let stored = sync_passes(rt, alloc, volume, passes.as_slice());
    let mut passes = passes.into_iter();
    for mut guard in guards {
        *guard = passes.next();
    }
    stored
}

/// Writes a checkpoint that has the file of each of these passes, as the pass shows it, and all other files. Answers NoMemory before
/// anything is written, else what a sync answers.
pub fn sync_passes<V: VolumeName, M: Meta, B: Block + Drop, R: Wait>(
    rt: &R,
    alloc: Global,
    volume: &Volume<V, M, B>,
    passes: &[FilePass<V>],
) -> Result<Stored<M, B>, Error>
    ensures files { IfOk result (λ stored. files_of stored.taken.added.items ≡ reverse (map shown_by passes.now)) }
    ensures lawful { IfOk result (λ stored. IsLawful V.Numbers.geometry (taken_view stored.taken.image)) }
    ensures written { IfOk result (λ stored. IsInPack M.may_leave V.Numbers.geometry (taken_view stored.taken.image) stored.pack.shown.items) }
    ensures later { IfOk result (λ stored. volume.now.base.version < stored.taken.image.tables.version) }
    ensures error { IfErr result IsNotWritten }
{
    let mut lent = Vec::with_capacity(alloc, passes.len())?;
    for pass in passes {
        lent.push(pass)?;
    }
    volume.sync(rt, lent.as_slice())
}
