//! The lock of a file whose nodes are all written.
ghost use Rattle.std.specs.Prelude.{◌≡◌, Some, IfOk, IfErr};
ghost use Rattle.geometry.specs.Refusals.{IsOfAppend};
ghost use Rattle.std.specs.Sync.Mutex.{mutex_guard_value};
ghost use Rattle.nodes.specs.File.{file_of};
ghost use Rattle.rights_permits.specs.Turns.{at_home};
ghost use Rattle.checkpoint_sync.specs.WrittenFiles.{IsWrittenCell};

use crate::flushing::flush_cell;
use area::MainArea;
use checkpoint_image::{AuditedFile, HoldsFile};
use device::Block;
use file_cells::{FileCell, FilePass};
use file_flush::FlushBuffer;
use geometry::Error;
use nodes::FileState;
use rights_books::{Audit, Books, CallAccount};
use rights_permits::VolumeName;
use std::marker::Model;
use std::sync::{MutexGuard, Wait};

/// The lock of a file, whether it lives or not, while a checkpoint is taken: each of its nodes has a block that spells it. To
/// contracts what is in the lock, `{ number; account; state }`. It must be let go.
pub struct HeldFile<'a, V: VolumeName + 'a, B: Block + Drop + 'a> {
    pub(crate) cell: MutexGuard<'a, FileCell<V, B>>,
}

impl<'a, V: VolumeName + 'a, B: Block + Drop + 'a> Model for HeldFile<'a, V, B> {
    ghost use Rattle.std.specs.Sync.Mutex.{mutex_guard_value};
    ghost use Rattle.file_cells.specs.Cell.{CellView};
    ghost use Rattle.checkpoint_sync.specs.WrittenFiles.{IsWrittenCell};

    ghost Value = { CellView B B.Lease };

    ghost view = { λ h. mutex_guard_value h.cell };

    ghost invariant = { λ h. IsWrittenCell V.Books.books.book V.Numbers.geometry (mutex_guard_value h.cell) };
}

impl<'a, V: VolumeName + 'a, B: Block + Drop + 'a> HeldFile<'a, V, B> {
    /// Writes each marked node of the file, and keeps its lock. What the file is stays, whatever is answered.
    ///
    /// Answers NoSpace where a log has no open segment and none is free, and Device where the device failed: the nodes that
    /// were written before stay so, and the lock is let go.
    pub fn flush<R: Wait>(
        rt: &R,
        area: &MainArea<V, B>,
        hand: &mut CallAccount,
        cell: MutexGuard<'a, FileCell<V, B>>,
        now: u64,
        buffer: &mut FlushBuffer,
    ) -> Result<HeldFile<'a, V, B>, Error>
        requires hand { hand.old ≡ at_home V.Books.books.book }
        requires buffer { buffer.old.shape ≡ V.Numbers.geometry.shape }
        ensures number { IfOk result (λ held. held.number ≡ (mutex_guard_value cell.entry).number) }
        ensures file { IfOk result (λ held. held.account.content ≡ (mutex_guard_value cell.entry).account.content) }
        ensures written { IfOk result (IsWrittenCell V.Books.books.book V.Numbers.geometry) }
        ensures hand { hand.new ≡ hand.old }
        ensures buffer { buffer.new.shape ≡ buffer.old.shape }
        ensures error { IfErr result IsOfAppend }
    {
        let mut cell = cell;
        flush_cell(rt, area, hand, &mut cell, now, buffer)?;
        Ok(HeldFile { cell })
    }

    /// Tells what holds of the file. Nothing runs.
    pub fn law(&self)
        ensures { IsWrittenCell V.Books.books.book V.Numbers.geometry self.now }
    {
        let _ = &self.cell;
    }

    /// Lets the lock go.
    pub fn release(self) {
        let HeldFile { cell: _ } = self;
    }

    /// The file of a pass: its state shows what the pass shows.
    pub fn find(&self, books: &Books, pass: &FilePass<V>) -> &FileState<B>
        requires books { books.now ≡ V.Books.books }
        requires number { self.now.number ≡ pass.now.number }
        ensures state { self.now.state ≡ Some result.now }
        ensures number { result.now.token.number ≡ pass.now.number }
        ensures file { file_of result.now ≡ pass.now.file }
    {
        self.cell.find(books, pass)
    }
}

impl<'a, V: VolumeName + 'a, B: Block + Drop + 'a> HoldsFile for HeldFile<'a, V, B> {
    ghost use Rattle.checkpoint_sync.specs.FileParts.{filed_of};

    ghost shown = { λ h. filed_of h.account h.state };
}

impl<'a, V: VolumeName + 'a, B: Block + Drop + 'a> AuditedFile for HeldFile<'a, V, B> {
    ghost use Rattle.std.specs.Prelude.{refl};

    ghost account = { λ h. h.account };

    fn learn(&mut self, books: &Books, audit: &mut Audit) {
        self.cell.learn(books, audit);
    }

    ghost lodged = { λ f. (refl, refl) };
}
