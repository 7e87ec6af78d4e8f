//! All files of a volume.
ghost use Rattle.std.specs.Prelude.{◌≡◌, ◌≤◌, [], vec_len, vec_capacity, IfOk, IfErr};
ghost use Rattle.geometry.specs.Refusals.{IsOfAppend};
ghost use Rattle.rights_permits.specs.Turns.{at_home};
ghost use Rattle.checkpoint_sync.specs.WrittenFiles.{AreWritten};

use crate::locks::{own_file, share_files};
use crate::written::WrittenFile;
use area::MainArea;
use device::Block;
use file_cells::FileCell;
use file_flush::FlushBuffer;
use geometry::Error;
use rights_books::CallAccount;
use rights_permits::VolumeName;
use std::sync::{Mutex, Wait};

/// Takes each file out of its lock in the order of the inode numbers, and writes its marked nodes. What the files are stays,
/// whatever is answered. The nodes' blocks have the time 0, which changes no segment's. There is room for the files; the row
/// of the locks comes back empty, so that the files can go back into it without memory.
///
/// Answers NoSpace where a log has no open segment and none is free, and Device where the device failed: the nodes that were
/// written before stay so, and all files are in their locks again.
pub fn own_files<V: VolumeName, B: Block + Drop, R: Wait>(
    rt: &R,
    area: &MainArea<V, B>,
    hand: &mut CallAccount,
    mut locks: Vec<Mutex<FileCell<V, B>>>,
    mut files: Vec<WrittenFile<V, B>>,
    buffer: &mut FlushBuffer,
) -> Result<
    (Vec<Mutex<FileCell<V, B>>>, Vec<WrittenFile<V, B>>),
    (Vec<Mutex<FileCell<V, B>>>, Error),
>
    requires hand { hand.old ≡ at_home V.Books.books.book }
    requires every { vec_len locks ≡ V.Numbers.geometry.files }
    requires none { files.items ≡ [] }
    requires room { vec_len locks ≤ vec_capacity files }
    requires buffer { buffer.old.shape ≡ V.Numbers.geometry.shape }
    ensures files { IfOk result (λ owned. AreWritten V.Books.books.book V.Numbers.geometry owned.1.items) }
    ensures count { IfOk result (λ owned. vec_len owned.1 ≡ V.Numbers.geometry.files) }
    ensures locks { IfOk result (λ owned. (vec_len owned.0 ≡ 0) × (V.Numbers.geometry.files ≤ vec_capacity owned.0)) }
    ensures back { IfErr result (λ refused. vec_len refused.0 ≡ V.Numbers.geometry.files) }
    ensures hand { hand.new ≡ hand.old }
    ensures error { IfErr result (λ refused. IsOfAppend refused.1) }
{
    locks.reverse();
    'files: while let Some(lock) = locks.pop() {
        let cell = own_file(rt, lock, files.len() as u32 + 1);
        match WrittenFile::flush(rt, area, hand, cell, 0, buffer) {
            Ok(file) => files.push_reserved(file),
            Err((cell, error)) => {
                locks.push_reserved(Mutex::new(cell));
                return Err((share_files(locks, files), error));
            }
        }
    }
    Ok((locks, files))
}
