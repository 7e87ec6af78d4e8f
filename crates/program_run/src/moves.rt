//! What stands at some places of a list moves to another list of as many places, and comes back.
ghost use Rattle.std.specs.Prelude.{◌≡◌, ◌<◌, None, length, replicate, IfOk, IfErr, slice_index_or, slice_set};
ghost use Rattle.std.specs.List.{Contains};
ghost use Rattle.std.specs.Option.{option_or};
ghost use Rattle.geometry.specs.declared.error.Error.TheVariants.{NoMemory};
ghost use Rattle.program_run.specs.Share.{AreJoined, AreMoved, file_named, files_named, reader_named, readers_named};

use flash_volume::Error;
use program_script::{WorkerDeed, WorkerTask};
use std::alloc::Global;

/// The files that tasks name, in their order. The only error is NoMemory.
pub(crate) fn files_named(alloc: Global, tasks: &[WorkerTask]) -> Result<Vec<u32>, Error>
    ensures files { IfOk result (λ files. files.items ≡ files_named tasks.now) }
    ensures error { IfErr result (λ error. error ≡ NoMemory) }
{
    let named = tasks.iter().filter_map(|task| file_named(task.work));
    Ok(named.collect(alloc)?)
}

/// The readers that tasks name, in their order. The only error is NoMemory.
pub(crate) fn readers_named(alloc: Global, tasks: &[WorkerTask]) -> Result<Vec<u32>, Error>
    ensures readers { IfOk result (λ readers. readers.items ≡ readers_named tasks.now) }
    ensures error { IfErr result (λ error. error ≡ NoMemory) }
{
    let named = tasks.iter().filter_map(|task| reader_named(task.work));
    Ok(named.collect(alloc)?)
}

// The file that work names.
fn file_named(work: WorkerDeed) -> Option<u32>
    ensures { result ≡ file_named work }
{
    match work {
        WorkerDeed::Write { file, .. }
        | WorkerDeed::Fill { file, .. }
        | WorkerDeed::Read { file, .. }
        | WorkerDeed::Cut { file, .. } => Some(file),
        WorkerDeed::Clean(_) | WorkerDeed::Sync | WorkerDeed::Look { .. } => None,
    }
}

// The reader that work names.
fn reader_named(work: WorkerDeed) -> Option<u32>
    ensures { result ≡ reader_named work }
{
    match work {
        WorkerDeed::Look { reader } => Some(reader),
        _ => None,
    }
}

/// What stands at the places of these numbers, which are counted from 1, moves to a list where nothing stands.
pub(crate) fn move_items<T: Drop>(from: &mut [Option<T>], to: &mut [Option<T>], numbers: &[u32])
    requires empty { to.old ≡ replicate (length from.old) None }
    ensures { AreMoved (Contains numbers.now) from.old to.new from.new }
{
    for number in numbers {
        if *number > 0 && *number as usize <= from.len() {
            move_item(from, to, *number as usize - 1);
        }
    }
}

// What stands at a place moves to that of another list, unless nothing stands there.
fn move_item<T: Drop>(from: &mut [Option<T>], to: &mut [Option<T>], place: usize)
    requires from { place < length from.old }
    requires to { place < length to.old }
    ensures from { from.new ≡ slice_set from.old place None }
    ensures to { to.new ≡ slice_set to.old place (option_or (slice_index_or from.old place None) (slice_index_or to.old place None)) }
{
    if let Some(item) = from[place].take() {
        to[place] = Some(item);
    }
}

/// What stands in one list comes to its places in another one, where all else stays.
pub(crate) fn join_items<T: Drop>(mut from: Vec<Option<T>>, to: &mut [Option<T>])
    requires { length from.items ≡ length to.old }
    ensures { AreJoined to.old from.items to.new }
{
    for place in 0..to.len() {
        move_item(from.as_mut_slice(), to, place);
    }
}
