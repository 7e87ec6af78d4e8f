//! A file gets its bytes.
ghost use Rattle.std.specs.Prelude.{◌≡◌, ◌<◌, ℕ, List, None, All, length, map, IfOk, IfErr, IfSome, IfNone, OnOk};
ghost use Rattle.flash_volume.specs.Worked.{IsOfCall};
ghost use Rattle.geometry.specs.Shape.{block_bytes};
ghost use Rattle.geometry.specs.declared.error.Error.TheVariants.{NoMemory};
ghost use Rattle.named_files.specs.Files.{file_at, IsThere, WasEntered, WasWritten};
ghost use Rattle.named_folder.specs.Folder.{Row, IsRow};
ghost use Rattle.named_folder.specs.Names.{IsRowOf, IsRowPlace};
ghost use Rattle.named_folder.specs.Rows.{row_of};

use crate::content::{Blocks, write_all};
use crate::room::{RoomTaken, has_room};
use crate::walk::{place_of, read_rows, write_folder};
use flash_volume::{Block, Error, FilePass, Kind, Meta, Rights, Volume, VolumeName, Work};
use named_folder::{FOLDER, FolderRow, encode, is_name, put_row, row_at};
use named_reading::NameRefusal;
use std::alloc::Global;
use std::sync::Wait;

/// The file of a name becomes these bytes; where there is none it is made. Answers its number.
///
/// Refused as NoRoom where the volume would have more blocks than it tells as its room. Its errors are those of a write: TooFar where the
/// bytes are more than a file has room for, NoSpace where the log is full. Then the volume is given up, and a later run finds what it was.
#[derive(Clone, Copy, Drop)]
pub struct Put<'a> {
    pub name: &'a str,
    pub bytes: &'a [u8],
    /// Whether a file that has the name already gets the bytes; else the name is refused.
    pub replaces: bool,
    /// The time of the writes, in seconds.
    pub now: u64,
}

impl<'a, M: Meta, B: Block + Drop> Work<M, B> for Put<'a> {
    ghost use Rattle.std.specs.Prelude.{◌≡◌, MatchResult};
    ghost use Rattle.flash_volume.specs.Worked.{IsOfCall};
    ghost use Rattle.geometry.specs.Shape.{block_bytes};
    ghost use Rattle.named_files.specs.Files.{WasPut};

    type Output = Result<u32, NameRefusal>;

    // The file of the name has the bytes, and nothing else changes; or nothing does.
    ghost post = { λ put geometry before output after. MatchResult output
        (λ number. WasPut (block_bytes geometry.shape) put.name.now put.bytes.now number before after)
        (λ refusal. after ≡ before) };

    ghost failed = { λ put geometry before error. IsOfCall error };

    fn run<V: VolumeName, R: Wait>(
        self,
        rt: &R,
        alloc: Global,
        volume: &Volume<V, M, B>,
        rights: &mut Rights<V>,
    ) -> Result<Result<u32, NameRefusal>, Error> {
        let mut entries = match read_rows(rt, alloc, volume, rights.passes.as_slice())? {
            Ok(entries) => entries,
            Err(refusal) => return Ok(Err(refusal)),
        };
        let passes = &mut rights.passes;
        let entered = enter_file(rt, alloc, volume, passes, &mut entries, self)?;
        let number = match entered {
            Ok(number) => number,
            Err(refusal) => return Ok(Err(refusal)),
        };
        let passes = rights.passes.as_mut_slice();
        write_folder(rt, alloc, volume, passes, entries.as_slice(), self.now)?;
        Ok(Ok(number))
    }
}

/// The file of a name becomes the bytes; where there is none it is made. Its row says so, and the folder's file is left as it is: it is
/// to be written from the rows. Refused and failing as `Put` is; a refusal changes nothing.
pub(crate) fn enter_file<V: VolumeName, M: Meta, B: Block + Drop, R: Wait>(
    rt: &R,
    alloc: Global,
    volume: &Volume<V, M, B>,
    passes: &mut Vec<FilePass<V>>,
    entries: &mut Vec<FolderRow>,
    put: Put<'_>,
) -> Result<Result<u32, NameRefusal>, Error>
    requires rows { All IsRow (map row_of entries.old.items) }
    requires folder { IsThere passes.old.items 1 }
    requires there { All (λ row. IsThere passes.old.items row.number) (map row_of entries.old.items) }
    ensures entered { IfOk result (λ entered. IfOk entered (λ number. WasEntered (block_bytes V.Numbers.geometry.shape) put.entry.name.now put.entry.bytes.now number (map row_of entries.old.items) (map row_of entries.new.items) passes.old.items passes.new.items)) }
    ensures rows_stay { IfOk result (λ entered. IfErr entered (λ refusal. entries.new.items ≡ entries.old.items)) }
    ensures files_stay { IfOk result (λ entered. IfErr entered (λ refusal. passes.new.items ≡ passes.old.items)) }
    ensures error { IfErr result IsOfCall }
{
    if !is_name(put.name) {
        return Ok(Err(NameRefusal::BadName));
    }
    let row = row_at(entries.as_slice(), put.name);
    if row.is_some() && !put.replaces {
        return Ok(Err(NameRefusal::NameTaken));
    }
    let held = entries.as_slice();
    let bytes = put.bytes.len() as u64;
    if !fits(rt, alloc, volume, passes.as_slice(), held, row, bytes)? {
        return Ok(Err(NameRefusal::NoRoom));
    }
    let number = write_row(rt, alloc, volume, passes, held, row, put.bytes, put.now)?;
    put_row(alloc, entries, row, put.name, number, bytes)?;
    Ok(Ok(number))
}

// Whether there is room for so many bytes of the file of a row, or of a new one, and for the folder of all rows. The only error is
// NoMemory.
fn fits<V: VolumeName, M: Meta, B: Block + Drop, R: Wait>(
    rt: &R,
    alloc: Global,
    volume: &Volume<V, M, B>,
    passes: &[FilePass<V>],
    entries: &[FolderRow],
    row: Option<usize>,
    bytes: u64,
) -> Result<bool, Error>
    requires within { IfSome row (λ place. place < length entries.now) }
    ensures error { IfErr result (λ error. error ≡ NoMemory) }
{
    let file = match row {
        Some(place) => blocks_of(passes, entries[place].number),
        None => None,
    };
    // Nodes that were never written are valid nowhere yet, nor are rows.
    let unwritten = volume.checkpoint_room().marked;
    let taken = RoomTaken {
        valid: volume.valid_blocks(rt).saturating_add(unwritten),
        folder: blocks_of(passes, FOLDER).unwrap_or(0),
        file,
    };
    let folder = encode(alloc, entries)?.len() as u64;
    let geometry = volume.geometry();
    Ok(has_room(&geometry, taken.with_folder(&geometry, folder), bytes))
}

// How many blocks of data the file of a number has, where the passes have it.
fn blocks_of<V: VolumeName>(passes: &[FilePass<V>], number: u32) -> Option<u32> {
    match place_of(passes, number) {
        Some(place) => Some(passes[place].length()),
        None => None,
    }
}

// The file of a row has the bytes, or a new one where there is no row. Answers its number.
fn write_row<V: VolumeName, M: Meta, B: Block + Drop, R: Wait>(
    rt: &R,
    alloc: Global,
    volume: &Volume<V, M, B>,
    passes: &mut Vec<FilePass<V>>,
    entries: &[FolderRow],
    row: Option<usize>,
    bytes: &[u8],
    now: u64,
) -> Result<u32, Error>
    requires within { IfSome row (λ place. place < length entries.now) }
    requires rows { All IsRow (map row_of entries.now) }
    requires folder { IsThere passes.old.items 1 }
    ensures written { IfOk result (λ number. WasWritten (block_bytes V.Numbers.geometry.shape) bytes.now number passes.old.items passes.new.items) }
    ensures past { IfOk result (λ number. 1 < number) }
    ensures kept { IfOk result (λ number. IfSome row (λ place. (name : List ℕ) → IsRowPlace name (map row_of entries.now) place → (found : Row) × IsRowOf name (map row_of entries.now) found × (found.number ≡ number))) }
    ensures made { IfOk result (λ number. IfNone row (file_at number passes.old.items ≡ None)) }
    ensures error { IfErr result IsOfCall }
{
    match row {
        Some(place) => {
            let number = entries[place].number;
            write_file(rt, alloc, volume, passes, number, bytes, now)?;
            Ok(number)
        }
        None => write_new(rt, alloc, volume, passes, bytes, now),
    }
}

// The file of a number has the bytes.
fn write_file<V: VolumeName, M: Meta, B: Block + Drop, R: Wait>(
    rt: &R,
    alloc: Global,
    volume: &Volume<V, M, B>,
    passes: &mut Vec<FilePass<V>>,
    number: u32,
    bytes: &[u8],
    now: u64,
) -> Result<(), Error>
    ensures written { OnOk result (WasWritten (block_bytes V.Numbers.geometry.shape) bytes.now number passes.old.items passes.new.items) }
    ensures error { IfErr result IsOfCall }
{
    match place_of(passes.as_slice(), number) {
        Some(place) => {
            let pass = &mut passes.as_mut_slice()[place];
            write_all(rt, alloc, volume, pass, bytes, Blocks::All, now)
        }
        None => Err(Error::NoFile),
    }
}

// A new file has the bytes. Answers its number.
fn write_new<V: VolumeName, M: Meta, B: Block + Drop, R: Wait>(
    rt: &R,
    alloc: Global,
    volume: &Volume<V, M, B>,
    passes: &mut Vec<FilePass<V>>,
    bytes: &[u8],
    now: u64,
) -> Result<u32, Error>
    requires folder { IsThere passes.old.items 1 }
    ensures written { IfOk result (λ number. WasWritten (block_bytes V.Numbers.geometry.shape) bytes.now number passes.old.items passes.new.items) }
    ensures past { IfOk result (λ number. 1 < number) }
    ensures made { IfOk result (λ number. file_at number passes.old.items ≡ None) }
    ensures error { IfErr result IsOfCall }
{
    let mut pass = volume.create(rt, Kind::File)?;
    let number = pass.number();
    if place_of(passes.as_slice(), number).is_some() {
        // Nothing ties a new number to the passes, so it is compared; no pass has it.
        return Err(Error::NoFile);
    }
    write_all(rt, alloc, volume, &mut pass, bytes, Blocks::All, now)?;
    passes.push(pass)?;
    Ok(number)
}
