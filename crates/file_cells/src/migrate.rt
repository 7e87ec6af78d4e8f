//! A block of the file is moved.
ghost use Rattle.std.specs.Prelude.{◌≡◌, ◌<◌, length, OnErr, IfOk, IfErr};
ghost use Rattle.geometry.specs.Refusals.{IsOfAppend};
ghost use Rattle.geometry.specs.Shape.{block_bytes};
ghost use Rattle.nodes.specs.File.{file_of};
ghost use Rattle.rights_permits.specs.Turns.{at_home};
ghost use Rattle.cleaning.specs.declared.fate.Fate.TheVariants.{Moved, Gone};
ghost use Rattle.file_cells.specs.Cell.{IsLodged};
ghost use Rattle.file_cells.specs.Moved.{HasMovedLodged, KeepsLodged};

use crate::cell::FileCell;
use crate::lodged::{recount, recount_unless};
use area::MainArea;
use cleaning::{Fate, migrate};
use device::Block;
use geometry::{Error, Mark, Owner};
use nodes::FileState;
use rights_books::{CallAccount, FileAccount};
use rights_permits::VolumeName;
use std::sync::Wait;

impl<V: VolumeName, B: Block + Drop> FileCell<V, B> {
    /// Moves the block at an address, data or a node's, where the file still names it there as its summary says, as
    /// `cleaning::migrate` does. What the file is stays, whatever is answered. Where there is no file the block is gone.
    ///
    /// Answers Device where the device failed, and NoSpace where the log has no open segment and none is free.
    pub fn migrate<R: Wait>(
        &mut self,
        rt: &R,
        area: &MainArea<V, B>,
        hand: &mut CallAccount,
        address: u32,
        owner: Owner,
        now: u64,
        bytes: &mut [u8],
    ) -> Result<Fate, Error>
        requires hand { hand.old ≡ at_home V.Books.books.book }
        requires address { 0 < address }
        requires bytes { length bytes.old ≡ block_bytes V.Numbers.geometry.shape }
        ensures file { self.new.account.content ≡ self.old.account.content }
        ensures moved { IfOk result (λ fate. fate ≡ Moved → HasMovedLodged address owner self.old.account self.new.account) }
        ensures gone { IfOk result (λ fate. fate ≡ Gone → KeepsLodged self.old.account self.new.account) }
        ensures err { OnErr result (KeepsLodged self.old.account self.new.account) }
        ensures hand { hand.new ≡ hand.old }
        ensures number { self.new.number ≡ self.old.number }
        ensures error { IfErr result IsOfAppend }
    {
        let Some(file) = &mut self.state else {
            return Ok(Fate::Gone);
        };
        let before = self.marks;
        let shape = area.geometry().shape;
        let after = before.after_move(shape, file.number(), owner, file.length());
        let kind = file.kind();
        recount(area, kind, &mut self.marks, after);
        let mark = Mark { address, owner };
        let done = migrate_lodged(rt, area, hand, &mut self.account, file, mark, now, bytes);
        recount_unless(done.is_ok(), area, kind, &mut self.marks, before);
        done
    }
}

// Moves the block of this mark, of a file whose tickets and tokens are lodged in its account, as `migrate` does.
fn migrate_lodged<V: VolumeName, B: Block + Drop, R: Wait>(
    rt: &R,
    area: &MainArea<V, B>,
    hand: &mut CallAccount,
    account: &mut FileAccount,
    file: &mut FileState<B>,
    mark: Mark,
    now: u64,
    bytes: &mut [u8],
) -> Result<Fate, Error>
    requires hand { hand.old ≡ at_home V.Books.books.book }
    requires book { account.old.book ≡ V.Books.books.book }
    requires address { 0 < mark.address }
    requires bytes { length bytes.old ≡ block_bytes V.Numbers.geometry.shape }
    requires lodged { IsLodged V.Numbers.geometry account.old file.old }
    ensures lodged { IsLodged V.Numbers.geometry account.new file.new }
    ensures number { file.new.token.number ≡ file.old.token.number }
    ensures account { (account.new.book ≡ account.old.book) × (account.new.inode ≡ account.old.inode) × (account.new.content ≡ account.old.content) }
    ensures hand { hand.new ≡ hand.old }
    ensures file { file_of file.new ≡ file_of file.old }
    ensures moved { IfOk result (λ fate. fate ≡ Moved → HasMovedLodged mark.address mark.owner account.old account.new) }
    ensures gone { IfOk result (λ fate. fate ≡ Gone → KeepsLodged account.old account.new) }
    ensures err { OnErr result (KeepsLodged account.old account.new) }
    ensures error { IfErr result IsOfAppend }
{
    area.books().unlodge_all(account, hand);
    let done = migrate(rt, area, hand, file, mark.address, mark.owner, now, bytes);
    area.books().lodge_all(account, hand);
    done
}
