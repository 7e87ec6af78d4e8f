//! What a checkpoint looks at in a file's lock.
ghost use Rattle.std.specs.Prelude.{◌≡◌, ◌∷◌, Some};
ghost use Rattle.geometry.specs.Weights.{weigh};
ghost use Rattle.rights_books.specs.declared.claim.Copied.TheVariants.{FileCopy};
ghost use Rattle.rights_books.specs.Weights.{file_copy, past};
ghost use Rattle.nodes.specs.File.{file_of};
ghost use Rattle.file_cells.specs.Cell.{IsLawfulCell};

use crate::cell::FileCell;
use crate::pass::FilePass;
use device::Block;
use nodes::FileState;
use rights_books::{Audit, Books};
use rights_permits::VolumeName;

impl<V: VolumeName, B: Block + Drop> FileCell<V, B> {
    /// Tells what holds of what is in the lock. Nothing runs.
    pub fn law(&self)
        ensures { IsLawfulCell V.Books.books.book V.Numbers.geometry self.now }
    {
        let _ = &self.account;
    }

    /// The file of a pass: its state shows what the pass shows.
    pub fn find(&self, books: &Books, pass: &FilePass<V>) -> &FileState<B>
        requires books { books.now ≡ V.Books.books }
        requires number { self.now.number ≡ pass.now.number }
        ensures state { self.now.state ≡ Some result.now }
        ensures number { result.now.token.number ≡ pass.now.number }
        ensures file { file_of result.now ≡ pass.now.file }
    {
        books.compare(&self.account, &pass.account);
        match &self.state {
            Some(file) => file,
            None => unreachable!(),
        }
    }

    /// An audit learns what is lodged. It goes by ascending inode numbers.
    pub fn learn(&mut self, books: &Books, audit: &mut Audit)
        requires book { self.old.account.book ≡ books.now.book }
        requires audit { audit.old.book ≡ books.now.book }
        requires ascending { weigh (file_copy (past self.old.account.inode)) audit.old.copies ≡ 0 }
        ensures audit { audit.new ≡ record audit.old {
          copies = FileCopy self.old.account.inode self.old.account.tickets self.old.account.tokens ∷ audit.old.copies;
        } }
        ensures same { self.new ≡ self.old }
    {
        books.learn_file(audit, &mut self.account);
    }
}
