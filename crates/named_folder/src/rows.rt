//! The rows of a folder: which one a name has, and what becomes of them.
ghost use Rattle.std.specs.Prelude.{◌≡◌, ◌<◌, ℕ, List, All, length, map, IfErr, IfSome, IfNone, OnOk, OnErr};
ghost use Rattle.geometry.specs.declared.error.Error.TheVariants.{NoMemory};
ghost use Rattle.named_folder.specs.Folder.{Row, IsRow};
ghost use Rattle.named_folder.specs.Names.{HasNoRow, IsRowOf, IsRowPlace, Removes, Renames, Renews};
ghost use Rattle.named_folder.specs.Rows.{row_of};

use crate::entry::FolderRow;
use geometry::Error;
use std::alloc::Global;

/// Where the first row of a name is.
pub fn row_at(entries: &[FolderRow], name: &str) -> Option<usize>
    ensures within { IfSome result (λ place. place < length entries.now) }
    ensures some { IfSome result (λ place. IsRowPlace name.now (map row_of entries.now) place) }
    ensures none { IfNone result (HasNoRow name.now (map row_of entries.now)) }
{
    for (place, entry) in entries.iter().enumerate() {
        if entry.name.as_str() == name {
            return Some(place);
        }
    }
    None
}

/// The row of a name, where it is (`row_at`), tells this file and how many bytes it has; where there is none it is put behind all.
/// The only error is NoMemory, and then the rows are as they were.
pub fn put_row(
    alloc: Global,
    entries: &mut Vec<FolderRow>,
    row: Option<usize>,
    name: &str,
    number: u32,
    bytes: u64,
) -> Result<(), Error>
    requires within { IfSome row (λ place. place < length entries.old.items) }
    requires some { IfSome row (λ place. IsRowPlace name.now (map row_of entries.old.items) place) }
    requires none { IfNone row (HasNoRow name.now (map row_of entries.old.items)) }
    ensures renewed { OnOk result (Renews (record { name = name.now; number = number; bytes = bytes }) (map row_of entries.old.items) (map row_of entries.new.items)) }
    ensures rows { OnOk result (1 < number → All IsRow (map row_of entries.old.items) → All IsRow (map row_of entries.new.items)) }
    ensures error { IfErr result (λ error. error ≡ NoMemory) }
    ensures same { OnErr result (entries.new.items ≡ entries.old.items) }
{
    let entry = FolderRow {
        name: String::from_str(alloc, name)?,
        number,
        bytes,
    };
    match row {
        Some(place) => entries.as_mut_slice()[place] = entry,
        None => entries.push(entry)?,
    }
    Ok(())
}

/// Takes a row out, and answers the number of its file.
pub fn take_row(entries: &mut Vec<FolderRow>, row: usize) -> u32
    requires within { row < length entries.old.items }
    ensures taken { (name : List ℕ) → IsRowPlace name (map row_of entries.old.items) row → (taken : Row) × (taken.number ≡ result) × IsRowOf name (map row_of entries.old.items) taken }
    ensures removed { (name : List ℕ) → IsRowPlace name (map row_of entries.old.items) row → Removes name (map row_of entries.old.items) (map row_of entries.new.items) }
    ensures rows { All IsRow (map row_of entries.old.items) → All IsRow (map row_of entries.new.items) }
{
    let entry = entries.remove(row);
    entry.number
}

/// A row gets another name. The only error is NoMemory, and then the rows are as they were.
pub fn rename_row(
    alloc: Global,
    entries: &mut [FolderRow],
    row: usize,
    to: &str,
) -> Result<(), Error>
    requires within { row < length entries.old }
    ensures renamed { OnOk result ((name : List ℕ) → IsRowPlace name (map row_of entries.old) row → Renames name to.now (map row_of entries.old) (map row_of entries.new)) }
    ensures rows { OnOk result (All IsRow (map row_of entries.old) → All IsRow (map row_of entries.new)) }
    ensures error { IfErr result (λ error. error ≡ NoMemory) }
    ensures same { OnErr result (entries.new ≡ entries.old) }
{
    let name = String::from_str(alloc, to)?;
    let old = &entries[row];
    let entry = FolderRow {
        name,
        number: old.number,
        bytes: old.bytes,
    };
    entries[row] = entry;
    Ok(())
}
