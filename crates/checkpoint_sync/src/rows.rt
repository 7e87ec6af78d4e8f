//! All files of a volume.
ghost use Rattle.std.specs.Prelude.{◌≡◌, ◌≤◌, [], vec_len, vec_capacity, OnOk, IfOk, IfErr};
ghost use Rattle.geometry.specs.Refusals.{IsOfAppend, IsOfMove};
ghost use Rattle.rights_permits.specs.Turns.{at_home};
ghost use Rattle.checkpoint_sync.specs.WrittenFiles.{AreWritten};

use crate::held::HeldFile;
use area::{MainArea, lock_numbered};
use device::Block;
use file_cells::FileCell;
use file_flush::FlushBuffer;
use geometry::Error;
use rights_books::CallAccount;
use rights_permits::VolumeName;
use std::alloc::Global;
use std::sync::{Mutex, Wait};

/// Locks each file in the order of the inode numbers, writes its marked nodes, and keeps its lock. What the files are stays,
/// whatever is answered. The nodes' blocks have the time 0, which changes no segment's.
///
/// Answers NoMemory before any lock is taken; NoSpace where a log has no open segment and none is free, and Device where the
/// device failed: the nodes that were written before stay so, and the locks are let go.
pub fn flush_files<'a, V: VolumeName + 'a, B: Block + Drop + 'a, R: Wait>(
    rt: &R,
    alloc: Global,
    area: &MainArea<V, B>,
    files: &'a Vec<Mutex<FileCell<V, B>>>,
    hand: &mut CallAccount,
) -> Result<Vec<HeldFile<'a, V, B>>, Error>
    requires hand { hand.old ≡ at_home V.Books.books.book }
    requires every { vec_len files.now ≡ V.Numbers.geometry.files }
    ensures files { IfOk result (λ held. AreWritten V.Books.books.book V.Numbers.geometry held.items) }
    ensures count { IfOk result (λ held. vec_len held ≡ V.Numbers.geometry.files) }
    ensures hand { hand.new ≡ hand.old }
    ensures error { IfErr result IsOfMove }
{
    let mut buffer = FlushBuffer::new(alloc, area.geometry().shape)?;
    let mut held = Vec::with_capacity(alloc, files.len())?;
    match flush_each(rt, area, files, hand, &mut buffer, &mut held) {
        Ok(()) => Ok(held),
        Err(error) => {
            release_files(held);
            Err(error)
        }
    }
}

/// Lets the locks of files go.
pub fn release_files<'a, V: VolumeName + 'a, B: Block + Drop + 'a>(
    mut files: Vec<HeldFile<'a, V, B>>,
) {
    'files: while let Some(file) = files.pop() {
        file.release();
    }
    files.destroy_empty();
}

// Locks each file, writes its marked nodes, and keeps its lock. There is room for the locks.
fn flush_each<'a, V: VolumeName + 'a, B: Block + Drop + 'a, R: Wait>(
    rt: &R,
    area: &MainArea<V, B>,
    files: &'a Vec<Mutex<FileCell<V, B>>>,
    hand: &mut CallAccount,
    buffer: &mut FlushBuffer,
    held: &mut Vec<HeldFile<'a, V, B>>,
) -> Result<(), Error>
    requires hand { hand.old ≡ at_home V.Books.books.book }
    requires every { vec_len files.now ≡ V.Numbers.geometry.files }
    requires buffer { buffer.old.shape ≡ V.Numbers.geometry.shape }
    requires none { held.old.items ≡ [] }
    requires room { vec_len files.now ≤ vec_capacity held.old }
    ensures files { OnOk result (AreWritten V.Books.books.book V.Numbers.geometry held.new.items) }
    ensures count { OnOk result (vec_len held.new ≡ V.Numbers.geometry.files) }
    ensures hand { hand.new ≡ hand.old }
    ensures error { IfErr result IsOfAppend }
{
    for index in 0..files.len() {
        let cell = lock_numbered(rt, &files[index], index as u32 + 1);
        let written = HeldFile::flush(rt, area, hand, cell, 0, buffer)?;
        held.push_reserved(written);
    }
    Ok(())
}
