//! What the names of a volume do not allow is refused before it is mounted: then nothing is written, a checkpoint neither.
//!
//! The works refuse the same. They decide, since the image may change before it is locked.
use crate::fault::Fault;
use crate::image_run::open_volume;
use named_files::{RoomTaken, has_room};
use named_folder::{FOLDER, FolderRow, is_name, row_at};
use named_reading::{Listing, NameRefusal};
use std::alloc::Global;
use std::fs::{File, Files};
use std::time::Clock;
use tool_syntax::ImageFile;

/// Refuses to put files where the folder tells of one that is not there, since a new file would get its number; and where this name is
/// there already.
pub fn ask_to_put<R: AllocGlobal + Clock + Files<File = File>>(
    rt: &R,
    image: ImageFile<'_>,
    new: Option<&str>,
) -> Result<(), Fault> {
    let listing = listing_of(rt, image)?;
    refuse_put(rt.alloc(), &listing, new)
}

fn refuse_put(alloc: Global, listing: &Listing, new: Option<&str>) -> Result<(), Fault> {
    let rows = rows_of(listing)?;
    if let Some(lost) = rows.iter().find(|row| !has_file(listing, row.number)) {
        return Err(Fault::of_name(alloc, lost.name.as_str(), NameRefusal::LostFile));
    }
    match new {
        Some(name) => refuse_taken(alloc, listing, name),
        None => Ok(()),
    }
}

/// Refuses to put a file of so many bytes for which the volume has no room.
pub fn ask_for_room<R: AllocGlobal + Clock + Files<File = File>>(
    rt: &R,
    image: ImageFile<'_>,
    name: &str,
    bytes: u64,
) -> Result<(), Fault> {
    let mut volume = open_volume(rt, image)?;
    let listing = volume.list(rt.alloc())?;
    let taken = room_taken(&listing, volume.image.total, name)?;
    if has_room(&volume.geometry, taken, bytes) {
        Ok(())
    } else {
        Err(Fault::of_name(rt.alloc(), name, NameRefusal::NoRoom))
    }
}

// What the folder and the file of a name have taken of a volume of so many valid blocks.
fn room_taken(listing: &Listing, valid: u32, name: &str) -> Result<RoomTaken, Fault> {
    let rows = rows_of(listing)?;
    Ok(RoomTaken {
        valid,
        folder: blocks_of(listing, FOLDER).unwrap_or(0),
        file: match row_at(rows, name) {
            Some(place) => blocks_of(listing, rows[place].number),
            None => None,
        },
    })
}

/// Refuses to put so many bytes behind those of a file that is not there, or for which the volume has no room.
pub fn ask_to_append<R: AllocGlobal + Clock + Files<File = File>>(
    rt: &R,
    image: ImageFile<'_>,
    name: &str,
    bytes: u64,
) -> Result<(), Fault> {
    let listing = listing_of(rt, image)?;
    let had = bytes_of(rt.alloc(), &listing, name)?;
    ask_for_room(rt, image, name, had.saturating_add(bytes))
}

// How many bytes the file of a name has.
fn bytes_of(alloc: Global, listing: &Listing, name: &str) -> Result<u64, Fault> {
    let rows = rows_of(listing)?;
    match row_at(rows, name) {
        Some(place) => Ok(rows[place].bytes),
        None => Err(Fault::of_name(alloc, name, NameRefusal::NoSuchFile)),
    }
}

// How many blocks the file of a number has.
fn blocks_of(listing: &Listing, number: u32) -> Option<u32> {
    let file = listing.files.iter().find(|file| file.number == number)?;
    Some(file.blocks)
}

/// Refuses to remove names of which one is not there.
pub fn ask_to_remove<R: AllocGlobal + Clock + Files<File = File>>(
    rt: &R,
    image: ImageFile<'_>,
    names: &[&str],
) -> Result<(), Fault> {
    let listing = listing_of(rt, image)?;
    for name in names {
        bytes_of(rt.alloc(), &listing, *name)?;
    }
    Ok(())
}

/// Refuses to rename a file that is not there, or to a name that is none or is taken.
pub fn ask_to_rename<R: AllocGlobal + Clock + Files<File = File>>(
    rt: &R,
    image: ImageFile<'_>,
    name: &str,
    to: &str,
) -> Result<(), Fault> {
    if !is_name(to) {
        return Err(Fault::of_name(rt.alloc(), to, NameRefusal::BadName));
    }
    let listing = listing_of(rt, image)?;
    bytes_of(rt.alloc(), &listing, name)?;
    refuse_taken(rt.alloc(), &listing, to)
}

fn refuse_taken(alloc: Global, listing: &Listing, name: &str) -> Result<(), Fault> {
    let rows = rows_of(listing)?;
    match row_at(rows, name) {
        Some(_) => Err(Fault::of_name(alloc, name, NameRefusal::NameTaken)),
        None => Ok(()),
    }
}

/// Whether the volume has a file of a number.
pub fn has_file(listing: &Listing, number: u32) -> bool {
    listing.files.iter().any(|file| file.number == number)
}

fn listing_of<R: AllocGlobal + Clock + Files<File = File>>(
    rt: &R,
    image: ImageFile<'_>,
) -> Result<Listing, Fault> {
    let listing = open_volume(rt, image)?.list(rt.alloc())?;
    Ok(listing)
}

// The rows of the folder. Answers NoFolder where there is none.
fn rows_of(listing: &Listing) -> Result<&[FolderRow], Fault> {
    match &listing.named {
        Some(entries) => Ok(entries.as_slice()),
        None => Err(Fault::Name(NameRefusal::NoFolder)),
    }
}
