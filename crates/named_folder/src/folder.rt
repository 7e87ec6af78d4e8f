//! The bytes of a folder: a mark, the number of its rows, and the rows one after the other.
ghost use Rattle.std.specs.Prelude.{◌≡◌, ◌≤◌, ◌+◌, ◌++◌, ℕ, List, length, map, take, drop, IfOk, IfErr, IfSome, IfNone, OnOk};
ghost use Rattle.std.specs.Int.{w32, w64, to_le_bytes};
ghost use Rattle.geometry.specs.declared.error.Error.TheVariants.{NoMemory};
ghost use Rattle.named_folder.specs.Folder.{Row, IsRow, BeginsWith, row_bytes, folder_bytes};
ghost use Rattle.named_folder.specs.Rows.{row_of};

use crate::entry::FolderRow;
use geometry::Error;
use std::alloc::Global;

/// The number of the folder: of the file that is made first on a volume.
pub const FOLDER: u32 = 1;

/// How a folder begins.
const MARK: &[u8; 8] = b"RUSZDIR1";

// The bytes of a row in front of its name: a number in four bytes, how many bytes the file has in eight, and the length of the
// name in eight.
const ROW_HEAD: usize = 20;

/// The bytes that spell the entries. The only error is NoMemory.
pub fn encode(alloc: Global, entries: &[FolderRow]) -> Result<Vec<u8>, Error>
    ensures bytes { IfOk result (λ bytes. bytes.items ≡ folder_bytes (map row_of entries.now)) }
    ensures error { IfErr result (λ error. error ≡ NoMemory) }
{
    let mut bytes = Vec::from_slice(alloc, MARK)?;
    bytes.extend_from_slice(&(entries.len() as u64).to_le_bytes())?;
    for entry in entries {
        push_entry(&mut bytes, entry)?;
    }
    Ok(bytes)
}

fn push_entry(bytes: &mut Vec<u8>, entry: &FolderRow) -> Result<(), Error>
    ensures bytes { OnOk result (bytes.new.items ≡ bytes.old.items ++ row_bytes (row_of entry.now)) }
    ensures error { IfErr result (λ error. error ≡ NoMemory) }
{
    let name = entry.name.as_bytes();
    bytes.extend_from_slice(&entry.number.to_le_bytes())?;
    bytes.extend_from_slice(&entry.bytes.to_le_bytes())?;
    bytes.extend_from_slice(&(name.len() as u64).to_le_bytes())?;
    bytes.extend_from_slice(name)?;
    Ok(())
}

/// The entries of the folder that the bytes begin with; what comes behind it is not looked at. None exactly where they begin with
/// none. The only error is NoMemory.
pub fn decode(alloc: Global, bytes: &[u8]) -> Result<Option<Vec<FolderRow>>, Error>
    ensures some { IfOk result (λ found. IfSome found (λ entries. BeginsWith (map row_of entries.items) bytes.now)) }
    ensures none { IfOk result (λ found. IfNone found ((rows : List Row) → BeginsWith rows bytes.now → ⊥)) }
    ensures error { IfErr result (λ error. error ≡ NoMemory) }
{
    if bytes.len() < 16 || &bytes[..8] != MARK.as_slice() {
        return Ok(None);
    }
    let count = u64_at(bytes, 8);
    let mut at = 16;
    let mut entries = Vec::new(alloc);
    for _ in 0..count {
        match entry_at(alloc, bytes, at)? {
            Some((entry, end)) => {
                entries.push(entry)?;
                at = end;
            }
            None => return Ok(None),
        }
    }
    Ok(Some(entries))
}

// The entry that begins at a place of the bytes, and where it ends. None where none begins there.
fn entry_at(alloc: Global, bytes: &[u8], at: usize) -> Result<Option<(FolderRow, usize)>, Error>
    requires { at ≤ length bytes.now }
    ensures row { IfOk result (λ found. IfSome found (λ front. IsRow (row_of front.0))) }
    ensures within { IfOk result (λ found. IfSome found (λ front. front.1 ≤ length bytes.now)) }
    ensures spelled { IfOk result (λ found. IfSome found (λ front. take front.1 bytes.now ≡ take at bytes.now ++ row_bytes (row_of front.0))) }
    ensures none { IfOk result (λ found. IfNone found ((row : Row) (behind : List ℕ) → IsRow row → drop at bytes.now ≡ row_bytes row ++ behind → ⊥)) }
    ensures error { IfErr result (λ error. error ≡ NoMemory) }
{
    match front_entry(alloc, &bytes[at..])? {
        Some((entry, length)) => Ok(Some((entry, at + length))),
        None => Ok(None),
    }
}

// The entry that the bytes begin with, and how many bytes it has. None where they begin with none.
fn front_entry(alloc: Global, bytes: &[u8]) -> Result<Option<(FolderRow, usize)>, Error>
    ensures row { IfOk result (λ found. IfSome found (λ front. IsRow (row_of front.0))) }
    ensures within { IfOk result (λ found. IfSome found (λ front. front.1 ≤ length bytes.now)) }
    ensures spelled { IfOk result (λ found. IfSome found (λ front. take front.1 bytes.now ≡ row_bytes (row_of front.0))) }
    ensures none { IfOk result (λ found. IfNone found ((row : Row) (behind : List ℕ) → IsRow row → bytes.now ≡ row_bytes row ++ behind → ⊥)) }
    ensures error { IfErr result (λ error. error ≡ NoMemory) }
{
    if bytes.len() < ROW_HEAD {
        return Ok(None);
    }
    let number = u32_at(bytes, 0);
    let file_bytes = u64_at(bytes, 4);
    let name_bytes = u64_at(bytes, 12) as usize;
    if number <= FOLDER || bytes.len() - ROW_HEAD < name_bytes {
        return Ok(None);
    }
    let end = ROW_HEAD + name_bytes;
    match str::from_utf8(&bytes[ROW_HEAD..end]) {
        Ok(name) => {
            let name = String::from_str(alloc, name)?;
            let entry = FolderRow {
                name,
                number,
                bytes: file_bytes,
            };
            Ok(Some((entry, end)))
        }
        Err(_) => Ok(None),
    }
}

// The number of the four bytes from a place on, the lowest first.
fn u32_at(bytes: &[u8], at: usize) -> u32
    requires { at + 4 ≤ length bytes.now }
    ensures { to_le_bytes w32 result ≡ take 4 (drop at bytes.now) }
{
    let mut front = [0u8; 4];
    front.copy_from_slice(&bytes[at..at + 4]);
    u32_of(front)
}

fn u32_of(bytes: [u8; 4]) -> u32
    ensures { to_le_bytes w32 result ≡ bytes }
{
    u32::from_le_bytes(bytes)
}

// The number of the eight bytes from a place on, the lowest first.
fn u64_at(bytes: &[u8], at: usize) -> u64
    requires { at + 8 ≤ length bytes.now }
    ensures { to_le_bytes w64 result ≡ take 8 (drop at bytes.now) }
{
    let mut front = [0u8; 8];
    front.copy_from_slice(&bytes[at..at + 8]);
    u64_of(front)
}

fn u64_of(bytes: [u8; 8]) -> u64
    ensures { to_le_bytes w64 result ≡ bytes }
{
    u64::from_le_bytes(bytes)
}

/// No bytes begin with two folders. So what is decoded is what was encoded, whatever names there are.
///
/// It runs nothing: its contract is the law.
pub fn folder_law()
    ensures { (rows others : List Row) (bytes : List ℕ) → BeginsWith rows bytes → BeginsWith others bytes → rows ≡ others }
{}
