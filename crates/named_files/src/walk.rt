//! The files of the passes, and the folder among them.
ghost use Rattle.std.specs.Prelude.{◌≡◌, ◌≢◌, ◌<◌, ℕ, List, None, All, length, map, true, IfOk, IfErr, IfSome, IfNone, OnOk};
ghost use Rattle.geometry.specs.Refusals.{IsOfRead};
ghost use Rattle.flash_volume.specs.Worked.{IsOfCall};
ghost use Rattle.geometry.specs.Shape.{block_bytes};
ghost use Rattle.named_files.specs.Files.{file_at, HasFolder, IsNamedAt, IsPlace, IsThere};
ghost use Rattle.named_folder.specs.Folder.{Row, IsRow};
ghost use Rattle.named_folder.specs.Rows.{row_of};

use crate::content::{Blocks, read_all, write_all};
use flash_volume::{Block, Error, FilePass, Meta, Volume, VolumeName};
use named_folder::{FOLDER, FolderRow, decode, encode, row_at};
use named_reading::NameRefusal;
use std::alloc::Global;
use std::sync::Wait;

/// Where the first pass of a number is.
pub(crate) fn place_of<V: VolumeName>(passes: &[FilePass<V>], number: u32) -> Option<usize>
    ensures within { IfSome result (λ place. place < length passes.now) }
    ensures some { IfSome result (λ place. IsPlace number passes.now place) }
    ensures none { IfNone result (file_at number passes.now ≡ None) }
{
    for (place, pass) in passes.iter().enumerate() {
        if pass.number() == number {
            return Some(place);
        }
    }
    None
}

// Whether the passes have a file of each row.
fn are_there<V: VolumeName>(passes: &[FilePass<V>], entries: &[FolderRow]) -> bool
    ensures { result ≡ true → All (λ row. IsThere passes.now row.number) (map row_of entries.now) }
{
    for entry in entries {
        if place_of(passes, entry.number).is_none() {
            return false;
        }
    }
    true
}

/// The rows of the folder. None exactly where the passes have no folder. Answers NoMemory, or Device where the device failed.
pub(crate) fn read_folder<V: VolumeName, M: Meta, B: Block + Drop, R: Wait>(
    rt: &R,
    alloc: Global,
    volume: &Volume<V, M, B>,
    passes: &[FilePass<V>],
) -> Result<Option<Vec<FolderRow>>, Error>
    ensures some { IfOk result (λ found. IfSome found (λ entries. HasFolder (block_bytes V.Numbers.geometry.shape) passes.now (map row_of entries.items))) }
    ensures none { IfOk result (λ found. IfNone found ((rows : List Row) → HasFolder (block_bytes V.Numbers.geometry.shape) passes.now rows → ⊥)) }
    ensures error { IfErr result IsOfRead }
{
    match place_of(passes, FOLDER) {
        Some(place) => {
            let bytes = read_all(rt, alloc, volume, &passes[place])?;
            decode(alloc, bytes.as_slice())
        }
        None => Ok(None),
    }
}

/// The rows of the folder, of which the passes have each one's file. Refused as NoFolder where the passes have no folder, and as LostFile
/// where a row's file is not there. The errors are those of `read_folder`.
pub(crate) fn read_rows<V: VolumeName, M: Meta, B: Block + Drop, R: Wait>(
    rt: &R,
    alloc: Global,
    volume: &Volume<V, M, B>,
    passes: &[FilePass<V>],
) -> Result<Result<Vec<FolderRow>, NameRefusal>, Error>
    ensures folder { IfOk result (λ answer. IfOk answer (λ entries. HasFolder (block_bytes V.Numbers.geometry.shape) passes.now (map row_of entries.items))) }
    ensures there { IfOk result (λ answer. IfOk answer (λ entries. All (λ row. IsThere passes.now row.number) (map row_of entries.items))) }
    ensures error { IfErr result IsOfRead }
{
    let Some(entries) = read_folder(rt, alloc, volume, passes)? else {
        return Ok(Err(NameRefusal::NoFolder));
    };
    if !are_there(passes, entries.as_slice()) {
        return Ok(Err(NameRefusal::LostFile));
    }
    Ok(Ok(entries))
}

/// The rows of the folder, and where the first of a name stands.
#[derive(Drop)]
pub(crate) struct NamedRow {
    pub entries: Vec<FolderRow>,
    pub row: usize,
}

/// The rows of the folder, and where the first of a name stands. Refused as NoFolder where the passes have no folder, and as NoSuchFile
/// where no row has the name. The errors are those of `read_folder`.
pub(crate) fn find_named<V: VolumeName, M: Meta, B: Block + Drop, R: Wait>(
    rt: &R,
    alloc: Global,
    volume: &Volume<V, M, B>,
    passes: &[FilePass<V>],
    name: &str,
) -> Result<Result<NamedRow, NameRefusal>, Error>
    ensures found { IfOk result (λ answer. IfOk answer (λ found. IsNamedAt (block_bytes V.Numbers.geometry.shape) name.now passes.now (map row_of found.entries.items) found.row)) }
    ensures within { IfOk result (λ answer. IfOk answer (λ found. found.row < length found.entries.items)) }
    ensures error { IfErr result IsOfRead }
{
    let Some(entries) = read_folder(rt, alloc, volume, passes)? else {
        return Ok(Err(NameRefusal::NoFolder));
    };
    match row_at(entries.as_slice(), name) {
        Some(row) => Ok(Ok(NamedRow { entries, row })),
        None => Ok(Err(NameRefusal::NoSuchFile)),
    }
}

/// The folder becomes these rows, and no other file changes. Its blocks that are as they were are not written. What it is after an error
/// is not said. The answers are those of `write_all`; NoFile where there is no folder's file.
pub(crate) fn write_folder<V: VolumeName, M: Meta, B: Block + Drop, R: Wait>(
    rt: &R,
    alloc: Global,
    volume: &Volume<V, M, B>,
    passes: &mut [FilePass<V>],
    entries: &[FolderRow],
    now: u64,
) -> Result<(), Error>
    requires rows { All IsRow (map row_of entries.now) }
    ensures folder { OnOk result (HasFolder (block_bytes V.Numbers.geometry.shape) passes.new (map row_of entries.now)) }
    ensures others { (n : ℕ) → n ≢ 1 → file_at n passes.new ≡ file_at n passes.old }
    ensures error { IfErr result IsOfCall }
{
    match place_of(passes, FOLDER) {
        Some(place) => {
            let bytes = encode(alloc, entries)?;
            let pass = &mut passes[place];
            write_all(
                rt,
                alloc,
                volume,
                pass,
                bytes.as_slice(),
                Blocks::Changed,
                now,
            )
        }
        None => Err(Error::NoFile),
    }
}
