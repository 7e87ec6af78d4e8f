//! Files come out of their locks, and go back.
ghost use Rattle.std.specs.Prelude.{◌≡◌, ◌+◌, ◌≤◌, vec_len, vec_capacity};

use crate::written::WrittenFile;
use device::Block;
use file_cells::FileCell;
use rights_permits::VolumeName;
use std::sync::{Mutex, Wait};

/// What lay in the lock of this inode number.
pub fn own_file<V: VolumeName, B: Block + Drop, R: Wait>(
    rt: &R,
    lock: Mutex<FileCell<V, B>>,
    number: u32,
) -> FileCell<V, B>
    ensures { result.number ≡ number }
{
    // Nothing ties a lock's place to what is in it, so the number is compared; it is always the one.
    let cell = lock.into_inner();
    if cell.number == number {
        return cell;
    }
    for _ in rt.forever() {}
    unreachable!()
}

/// Puts files back into locks, before those of the files of higher numbers, which stand there with the last one first. There
/// is room for them.
pub fn share_files<V: VolumeName, B: Block + Drop>(
    mut locks: Vec<Mutex<FileCell<V, B>>>,
    mut files: Vec<WrittenFile<V, B>>,
) -> Vec<Mutex<FileCell<V, B>>>
    requires room { vec_len locks + vec_len files ≤ vec_capacity locks }
    ensures count { vec_len result ≡ vec_len locks + vec_len files }
{
    'files: while let Some(file) = files.pop() {
        locks.push_reserved(Mutex::new(file.into_cell()));
    }
    files.destroy_empty();
    locks.reverse();
    locks
}
