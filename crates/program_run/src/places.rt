//! Lists with a place for each number: of the passes of files, and of readers.
ghost use Rattle.std.specs.Prelude.{◌≡◌, ◌+◌, ◌-◌, ◌^◌, ◌<◌, ◌⊎◌, None, length, min, replicate, IsSome, IfOk, IfErr, OnErr, IfSome, IfNone, slice_index_or};
ghost use Rattle.std.specs.List.{filter_map};
ghost use Rattle.geometry.specs.declared.error.Error.TheVariants.{NoFile, NoMemory};
ghost use Rattle.program_run.specs.Files.{AreAllTaken, AreInOrder, IsFirstFree, StandInPlace, passes_among};

use flash_volume::{Block, Error, FilePass, Reader, Seat, VolumeName};
use std::alloc::Global;

/// Closes the readers that are open, and adds their seats to these. The only error is NoMemory.
pub fn close_readers<V: VolumeName, B: Block + Drop>(
    readers: Vec<Option<Reader<'_, V, B>>>,
    seats: &mut Vec<Seat<V>>,
) -> Result<(), Error>
    ensures error { IfErr result (λ error. error ≡ NoMemory) }
{
    for place in readers {
        if let Some(reader) = place
            && seats.push(reader.close()).is_err()
        {
            return Err(Error::NoMemory);
        }
    }
    Ok(())
}

/// The passes that are there, in order. The only error is NoMemory.
pub(crate) fn keep_passes<V: VolumeName>(
    alloc: Global,
    places: Vec<Option<FilePass<V>>>,
) -> Result<Vec<FilePass<V>>, Error>
    ensures passes { IfOk result (λ passes. passes.items ≡ passes_among places.items) }
    ensures error { IfErr result (λ error. error ≡ NoMemory) }
{
    let mut passes = Vec::new(alloc);
    for place in places {
        if let Some(pass) = place
            && passes.push(pass).is_err()
        {
            return Err(Error::NoMemory);
        }
    }
    Ok(passes)
}

/// Fills a block with a byte.
pub(crate) fn fill_block(block: &mut Vec<u8>, byte: u8)
    ensures { block.new.items ≡ replicate (length block.old.items) byte }
{
    block.as_mut_slice().fill(byte);
}

/// How many places have something, or the largest number there is where they are more.
pub(crate) fn count_there<T>(places: &[Option<T>]) -> u32
    ensures { result ≡ min (length (filter_map (λ place. place) places.now)) (2 ^ 32 - 1) }
{
    let mut count = 0u32;
    for place in places {
        if place.is_some() {
            count = count.saturating_add(1);
        }
    }
    count
}

/// So many places with nothing. The only error is NoMemory.
pub fn no_items<T: Drop>(alloc: Global, count: usize) -> Result<Vec<Option<T>>, Error>
    ensures none { IfOk result (λ places. places.items ≡ replicate count None) }
    ensures error { IfErr result (λ error. error ≡ NoMemory) }
{
    let mut places = Vec::new(alloc);
    for _place in 0..count {
        if places.push(None).is_err() {
            return Err(Error::NoMemory);
        }
    }
    Ok(places)
}

/// A place for each of so many inode numbers, with the pass of its file, where there is one. The only error is NoMemory.
pub(crate) fn place_passes<V: VolumeName>(
    alloc: Global,
    files: u32,
    passes: Vec<FilePass<V>>,
) -> Result<Vec<Option<FilePass<V>>>, Error>
    requires files { files ≡ V.Numbers.geometry.files }
    requires in_order { AreInOrder files passes.items }
    ensures placed { IfOk result (λ places. StandInPlace files places.items) }
    ensures passes { IfOk result (λ places. passes_among places.items ≡ passes.items) }
    ensures error { IfErr result (λ error. error ≡ NoMemory) }
{
    let mut places = no_items(alloc, files as usize)?;
    for pass in passes {
        let place = pass.number() as usize - 1;
        places[place] = Some(pass);
    }
    Ok(places)
}

/// The passes that are there. The only error is NoMemory.
pub(crate) fn lend_all<V: VolumeName>(
    alloc: Global,
    passes: &[Option<FilePass<V>>],
) -> Result<Vec<&FilePass<V>>, Error>
    ensures error { IfErr result (λ error. error ≡ NoMemory) }
{
    let mut lent = Vec::new(alloc);
    for pass in passes.iter().flatten() {
        if lent.push(pass).is_err() {
            return Err(Error::NoMemory);
        }
    }
    Ok(lent)
}

/// The first place without a pass.
pub(crate) fn first_free<V: VolumeName>(passes: &[Option<FilePass<V>>]) -> Option<usize>
    ensures some { IfSome result (IsFirstFree passes.now) }
    ensures none { IfNone result (AreAllTaken passes.now) }
{
    for place in 0..passes.len() {
        if passes[place].is_none() {
            return Some(place);
        }
    }
    None
}

/// Where the pass of a file's number stands. NoFile where there is none.
pub(crate) fn place_of<V: VolumeName>(
    passes: &[Option<FilePass<V>>],
    file: u32,
) -> Result<usize, Error>
    ensures place { IfOk result (λ place. (place + 1 ≡ file) × (place < length passes.now) × IsSome (slice_index_or passes.now place None)) }
    ensures error { IfErr result (λ error. error ≡ NoFile) }
    ensures none { OnErr result ((file ≡ 0) ⊎ (slice_index_or passes.now (file - 1) None ≡ None)) }
{
    if file == 0 || file as usize > passes.len() {
        return Err(Error::NoFile);
    }
    let place = file as usize - 1;
    if passes[place].is_some() {
        Ok(place)
    } else {
        Err(Error::NoFile)
    }
}

/// Where a reader's number stands. NoFile where no such reader is open.
pub(crate) fn reader_place<V: VolumeName, B: Block + Drop>(
    readers: &[Option<Reader<'_, V, B>>],
    reader: u32,
) -> Result<usize, Error>
    ensures place { IfOk result (λ place. (place + 1 ≡ reader) × (place < length readers.now) × IsSome (slice_index_or readers.now place None)) }
    ensures error { IfErr result (λ error. error ≡ NoFile) }
    ensures none { OnErr result ((reader ≡ 0) ⊎ (slice_index_or readers.now (reader - 1) None ≡ None)) }
{
    if reader == 0 || reader as usize > readers.len() {
        return Err(Error::NoFile);
    }
    let place = reader as usize - 1;
    if readers[place].is_some() {
        Ok(place)
    } else {
        Err(Error::NoFile)
    }
}
