//! A file whose nodes are all written.
ghost use Rattle.std.specs.Prelude.{◌≡◌, Some, None, is_some, IfOk, IfErr};
ghost use Rattle.geometry.specs.Refusals.{IsOfAppend};
ghost use Rattle.nodes.specs.File.{file_of};
ghost use Rattle.rights_permits.specs.Turns.{at_home};
ghost use Rattle.file_cells.specs.Cell.{IsLodged};
ghost use Rattle.checkpoint_sync.specs.WrittenFiles.{IsWrittenCell};

use area::MainArea;
use checkpoint_image::{AuditedFile, HoldsFile};
use checkpoint_sync::flush_cell;
use device::Block;
use file_cells::{FileCell, FilePass};
use file_flush::FlushBuffer;
use geometry::Error;
use nodes::FileState;
use rights_books::{Audit, Books, CallAccount};
use rights_permits::VolumeName;
use std::marker::Model;
use std::sync::Wait;

/// A file, whether it lives or not, out of its lock: each of its nodes has a block that spells it. To contracts what lay in the
/// lock, `{ number; account; state }`.
pub struct WrittenFile<V: VolumeName, B: Block + Drop> {
    pub(crate) cell: FileCell<V, B>,
}

impl<V: VolumeName, B: Block + Drop> Model for WrittenFile<V, B> {
    ghost use Rattle.file_cells.specs.Cell.{CellView};
    ghost use Rattle.checkpoint_sync.specs.WrittenFiles.{IsWrittenCell};

    ghost Value = { CellView B B.Lease };

    ghost view = { λ w. w.cell };

    ghost invariant = { λ w. IsWrittenCell V.Books.books.book V.Numbers.geometry w.cell };
}

impl<V: VolumeName, B: Block + Drop> WrittenFile<V, B> {
    /// Writes each marked node of the file. What the file is stays, whatever is answered.
    ///
    /// Answers NoSpace where a log has no open segment and none is free, and Device where the device failed: the nodes that
    /// were written before stay so, and what lay in the lock comes back.
    pub fn flush<R: Wait>(
        rt: &R,
        area: &MainArea<V, B>,
        hand: &mut CallAccount,
        cell: FileCell<V, B>,
        now: u64,
        buffer: &mut FlushBuffer,
    ) -> Result<WrittenFile<V, B>, (FileCell<V, B>, Error)>
        requires hand { hand.old ≡ at_home V.Books.books.book }
        requires buffer { buffer.old.shape ≡ V.Numbers.geometry.shape }
        ensures number { IfOk result (λ file. file.number ≡ cell.number) }
        ensures file { IfOk result (λ file. file.account.content ≡ cell.account.content) }
        ensures written { IfOk result (IsWrittenCell V.Books.books.book V.Numbers.geometry) }
        ensures hand { hand.new ≡ hand.old }
        ensures buffer { buffer.new.shape ≡ buffer.old.shape }
        ensures error { IfErr result (λ refused. IsOfAppend refused.1) }
    {
        let mut cell = cell;
        match flush_cell(rt, area, hand, &mut cell, now, buffer) {
            Ok(()) => Ok(WrittenFile { cell }),
            Err(error) => Err((cell, error)),
        }
    }

    /// Tells what holds of the file. Nothing runs.
    pub fn law(&self)
        ensures { IsWrittenCell V.Books.books.book V.Numbers.geometry self.now }
    {
        let _ = &self.cell;
    }

    /// Whether the file lives.
    pub fn lives(&self) -> bool
        ensures { result ≡ is_some self.now.state }
    {
        self.cell.state.is_some()
    }

    /// Spends the pass, and takes the file, which is what the pass showed: its tickets and tokens are in hand.
    pub fn take(&mut self, books: &Books, hand: &mut CallAccount, pass: FilePass<V>) -> FileState<B>
        requires books { books.now ≡ V.Books.books }
        requires hand { hand.old ≡ at_home V.Books.books.book }
        requires number { self.old.number ≡ pass.number }
        ensures state { self.old.state ≡ Some result }
        ensures file { file_of result ≡ pass.file }
        ensures lodged { IsLodged V.Numbers.geometry self.old.account result }
        ensures hand { hand.new ≡ record hand.old { tickets = self.old.account.tickets; tokens = self.old.account.tokens } }
        ensures none { self.new.state ≡ None }
        ensures number { self.new.number ≡ self.old.number }
    {
        let file = self.cell.take(books, hand, pass);
        self.cell.law();
        file
    }

    /// What lay in the lock.
    pub fn into_cell(self) -> FileCell<V, B>
        ensures { result ≡ self }
    {
        let WrittenFile { cell } = self;
        cell
    }
}

impl<V: VolumeName, B: Block + Drop> HoldsFile for WrittenFile<V, B> {
    ghost use Rattle.checkpoint_sync.specs.FileParts.{filed_of};

    ghost shown = { λ w. filed_of w.account w.state };
}

impl<V: VolumeName, B: Block + Drop> AuditedFile for WrittenFile<V, B> {
    ghost use Rattle.std.specs.Prelude.{refl};

    ghost account = { λ w. w.account };

    fn learn(&mut self, books: &Books, audit: &mut Audit) {
        self.cell.learn(books, audit);
    }

    ghost lodged = { λ f. (refl, refl) };
}
