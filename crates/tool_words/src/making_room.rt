//! Work for which room is made where a volume has none.
ghost use Rattle.std.specs.Prelude.{ℕ, IfOk};
ghost use Rattle.device.specs.Parts.{IsBlockRun};

use crate::fault::Fault;
use flash_volume::{Block, Error, Leave, Meta, Parts, work_on};
use named_files::{Append, DeleteFile, Put, Remove, Rename, work_making_room};
use named_reading::NameRefusal;
use std::sync::Wait;

/// Puts a file. Where there is no room, room is made, and then it is tried once more. The parts come back.
pub fn put_making_room<M: Meta + Drop, B: Block + Drop, R: AllocGlobal + Wait>(
    rt: &R,
    parts: Parts<M, B>,
    put: Put<'_>,
) -> Result<(Parts<M, B>, Result<u32, NameRefusal>), Fault>
    requires run { (bytes : ℕ) × IsBlockRun B.address_of B.content_of bytes 1 parts.blocks.items }
    ensures run { IfOk result (λ done. (bytes : ℕ) × IsBlockRun B.address_of B.content_of bytes 1 done.0.blocks.items) }
{
    match work_making_room(rt, parts, put, put.bytes.len() as u64, put.now) {
        Ok(done) => Ok((done.parts, done.output)),
        Err(fault) => Err(Fault::from(fault)),
    }
}

/// Puts bytes behind those of a file. Where there is no room, room is made for these, and then it is tried once more.
pub fn append_making_room<M: Meta + Drop, B: Block + Drop, R: AllocGlobal + Wait>(
    rt: &R,
    parts: Parts<M, B>,
    append: Append<'_>,
) -> Result<Result<u32, NameRefusal>, Fault>
    requires run { (bytes : ℕ) × IsBlockRun B.address_of B.content_of bytes 1 parts.blocks.items }
{
    match work_making_room(rt, parts, append, append.bytes.len() as u64, append.now) {
        Ok(done) => Ok(done.output),
        Err(fault) => Err(Fault::from(fault)),
    }
}

/// Gives a file another name. Where there is no room for the folder's change, room is made, and then it is tried once more.
pub fn rename_making_room<M: Meta + Drop, B: Block + Drop, R: AllocGlobal + Wait>(
    rt: &R,
    parts: Parts<M, B>,
    rename: Rename<'_>,
) -> Result<Result<(), NameRefusal>, Fault>
    requires run { (bytes : ℕ) × IsBlockRun B.address_of B.content_of bytes 1 parts.blocks.items }
{
    match work_making_room(rt, parts, rename, 0, rename.now) {
        Ok(done) => Ok(done.output),
        Err(fault) => Err(Fault::from(fault)),
    }
}

/// Removes a file. Where there is no room for the folder's change, room is made, and then it is tried once more. Where there is none
/// even then, the file goes first, with a checkpoint of its own, and then its name.
///
/// A crash between, or another refusal, leaves the name of a file that is gone. It is removed as any other.
pub fn remove_making_room<M: Meta + Drop, B: Block + Drop, R: AllocGlobal + Wait>(
    rt: &R,
    parts: Parts<M, B>,
    remove: Remove<'_>,
) -> Result<Result<(), NameRefusal>, Fault>
    requires run { (bytes : ℕ) × IsBlockRun B.address_of B.content_of bytes 1 parts.blocks.items }
{
    match work_making_room(rt, parts, remove, 0, remove.now) {
        Ok(done) => Ok(done.output),
        Err(fault) => {
            if fault.error != Error::NoSpace {
                return Err(Fault::from(fault));
            }
            remove_in_two(rt, fault, remove)
        }
    }
}

// Where there was no room to remove a file: deletes it, and closes. The checkpoint needs no room, and what the file had comes free. Then
// its name goes.
fn remove_in_two<M: Meta + Drop, B: Block + Drop, R: AllocGlobal + Wait>(
    rt: &R,
    refused: flash_volume::LeaveFault<M, B>,
    remove: Remove<'_>,
) -> Result<Result<(), NameRefusal>, Fault>
    requires run { (bytes : ℕ) × IsBlockRun B.address_of B.content_of bytes 1 refused.parts.blocks.items }
{
    let file = DeleteFile { name: remove.name };
    let deleted = work_on(rt, rt.alloc(), refused.parts, Leave::Close, file)?;
    if let Err(refusal) = deleted.output {
        return Ok(Err(refusal));
    }
    match work_making_room(rt, deleted.parts, remove, 0, remove.now) {
        Ok(done) => Ok(done.output),
        Err(fault) => Err(Fault::NameStays(fault.error)),
    }
}
