//! A file in its lock, and the calls on it.
ghost use Rattle.std.specs.Prelude.{◌≡◌, ◌<◌, ◌≤◌, true, false, length, OnOk, OnErr, IfOk, IfErr};
ghost use Rattle.geometry.specs.Refusals.{IsOfPut};
ghost use Rattle.geometry.specs.declared.error.Error.TheVariants.{Device};
ghost use Rattle.geometry.specs.File.{bytes_at, written, cut_to, erased};
ghost use Rattle.geometry.specs.Path.{largest_length};
ghost use Rattle.geometry.specs.Shape.{block_bytes};
ghost use Rattle.rights_permits.specs.Turns.{at_home};

use crate::NewBlock;
use crate::lodged::{cut_lodged, erase_lodged, note_file, recount, write_lodged};
use crate::marks::Marks;
use crate::pass::FilePass;
use area::{MainArea, Numbered};
use device::Block;
use geometry::Error;
use nodes::FileState;
use rights_books::{Books, CallAccount, FileAccount};
use rights_permits::VolumeName;
use std::alloc::Global;
use std::marker::{Brand, Model, PhantomData};
use std::sync::Wait;

/// A file in its lock, `{ number; account; state }` to contracts. While the lock is free, the account has lodged what the file's state has, and shows what the file is;
/// where there is no file it has nothing.
pub struct FileCell<V: VolumeName, B: Block + Drop> {
    /// The number of its inode, from 1 on.
    pub number: u32,
    /// Its account of the volume's books.
    pub account: FileAccount,
    /// The file, where there is one.
    pub state: Option<FileState<B>>,
    pub(crate) marks: Marks,
    pub(crate) volume: PhantomData<V>,
}

impl<V: VolumeName, B: Block + Drop> Model for FileCell<V, B> {
    ghost use Rattle.file_cells.specs.Cell.{CellView, IsCell};

    ghost Value = { CellView B B.Lease };

    ghost view = { λ c. record { number = c.number; account = c.account; state = c.state } };

    ghost invariant = { λ c. IsCell V.Books.books.book V.Numbers.geometry c.number c.account c.state };
}

impl<V: VolumeName, B: Block + Drop> Numbered for FileCell<V, B> {
    ghost number_of = { λ cell. cell.number };

    fn number(&self) -> u32 {
        self.number
    }
}

impl<V: VolumeName, B: Block + Drop> FileCell<V, B> {
    /// All marked nodes of the file were written: none is counted any more.
    pub fn forget_marks(&mut self, area: &MainArea<V, B>)
        ensures { self.new ≡ self.old }
    {
        if let Some(file) = &self.state {
            recount(area, file.kind(), &mut self.marks, Marks::NONE);
        }
    }

    /// Writes a block of the file at an index below the largest length, as `write_block` does. After an error the file
    /// is as it was.
    pub fn write<R: Wait>(
        &mut self,
        rt: &R,
        alloc: Global,
        area: &MainArea<V, B>,
        hand: &mut CallAccount,
        pass: &mut FilePass<V>,
        block: &NewBlock<'_>,
    ) -> Result<(), Error>
        requires hand { hand.old ≡ at_home V.Books.books.book }
        requires number { self.old.number ≡ pass.old.number }
        requires inside { block.now.index < largest_length V.Numbers.geometry.shape }
        requires bytes { length block.now.bytes.now ≡ block_bytes V.Numbers.geometry.shape }
        ensures file { OnOk result (pass.new ≡ record pass.old { file = written pass.old.file block.now.index block.now.bytes.now }) }
        ensures err { OnErr result (pass.new ≡ pass.old) }
        ensures hand { hand.new ≡ hand.old }
        ensures number { self.new.number ≡ self.old.number }
        ensures error { IfErr result IsOfPut }
    {
        area.books().compare(&self.account, &pass.account);
        let Some(file) = &mut self.state else {
            unreachable!();
        };
        let account = &mut self.account;
        let marks = &mut self.marks;
        write_lodged(rt, alloc, area, hand, account, file, marks, block)?;
        note_file::<B, Brand>(area.books(), account, &mut pass.account, file);
        pass.length = file.length();
        Ok(())
    }

    /// Reads the block of the file at an index into `out`, which has a block's bytes. Answers true below the length, where an
    /// index that was never written has zeros; at or past the length it answers false, and `out` is untouched.
    ///
    /// The only error is Device, after which `out` has any bytes.
    pub fn read(
        &mut self,
        books: &Books,
        pass: &FilePass<V>,
        index: u32,
        out: &mut [u8],
    ) -> Result<bool, Error>
        requires books { books.now ≡ V.Books.books }
        requires number { self.old.number ≡ pass.now.number }
        requires out { length out.old ≡ block_bytes V.Numbers.geometry.shape }
        ensures below { IfOk result (λ read. read ≡ true → (index < pass.now.file.length) × (out.new ≡ bytes_at (block_bytes V.Numbers.geometry.shape) pass.now.file index)) }
        ensures past { IfOk result (λ read. read ≡ false → (pass.now.file.length ≤ index) × (out.new ≡ out.old)) }
        ensures error { IfErr result (λ error. error ≡ Device) }
        ensures same { self.new ≡ self.old }
    {
        books.compare(&self.account, &pass.account);
        let Some(file) = &mut self.state else {
            unreachable!();
        };
        if index >= file.length() {
            return Ok(false);
        }
        file.read(index, out)?;
        Ok(true)
    }

    /// Cuts the file to a length in blocks, or leaves it where it is shorter, as `cut_blocks` does. It takes no memory,
    /// and is never refused.
    pub fn cut<R: Wait>(
        &mut self,
        rt: &R,
        area: &MainArea<V, B>,
        hand: &mut CallAccount,
        pass: &mut FilePass<V>,
        length: u32,
    )
        requires hand { hand.old ≡ at_home V.Books.books.book }
        requires number { self.old.number ≡ pass.old.number }
        ensures file { pass.new ≡ record pass.old { file = cut_to pass.old.file length } }
        ensures hand { hand.new ≡ hand.old }
        ensures number { self.new.number ≡ self.old.number }
    {
        area.books().compare(&self.account, &pass.account);
        let Some(file) = &mut self.state else {
            unreachable!();
        };
        let account = &mut self.account;
        let marks = &mut self.marks;
        cut_lodged(rt, area, hand, account, file, marks, length);
        note_file::<B, Brand>(area.books(), account, &mut pass.account, file);
        pass.length = file.length();
    }

    /// Gives back the blocks of the file at the indexes from `from` up to `to`, as `erase_blocks` does: they read as zeros,
    /// and the length stays. It takes no memory, and is never refused.
    pub fn erase<R: Wait>(
        &mut self,
        rt: &R,
        area: &MainArea<V, B>,
        hand: &mut CallAccount,
        pass: &mut FilePass<V>,
        from: u32,
        to: u32,
    )
        requires hand { hand.old ≡ at_home V.Books.books.book }
        requires number { self.old.number ≡ pass.old.number }
        ensures file { pass.new ≡ record pass.old { file = erased pass.old.file from to } }
        ensures hand { hand.new ≡ hand.old }
        ensures number { self.new.number ≡ self.old.number }
    {
        area.books().compare(&self.account, &pass.account);
        let Some(file) = &mut self.state else {
            unreachable!();
        };
        let account = &mut self.account;
        let marks = &mut self.marks;
        erase_lodged(rt, area, hand, account, file, marks, from, to);
        note_file::<B, Brand>(area.books(), account, &mut pass.account, file);
        pass.length = file.length();
    }
}
