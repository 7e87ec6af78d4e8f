//! The audit learns all files.
ghost use Rattle.std.specs.Prelude.{◌≡◌, ℕ, map};
ghost use Rattle.geometry.specs.Weights.{weigh};
ghost use Rattle.rights_books.specs.Weights.{file_copy};
ghost use Rattle.rights_books.specs.Accounts.{AreFiles};
ghost use Rattle.checkpoint_image.specs.Learning.{HaveLearnedFiles};

use crate::audited::AuditedFile;
use rights_books::{Audit, Books};

/// The audit learns what is lodged in all files. It has learned of no file before.
pub fn learn_files<S: AuditedFile>(books: &Books, audit: &mut Audit, files: &mut Vec<S>)
    requires book { audit.old.book ≡ books.now.book }
    requires files { AreFiles books.now.book (map S.account files.old.items) }
    requires none { weigh (file_copy (λ n. 1)) audit.old.copies ≡ 0 }
    ensures same { map S.shown files.new.items ≡ map S.shown files.old.items }
    ensures accounts { map S.account files.new.items ≡ map S.account files.old.items }
    ensures audit { HaveLearnedFiles (map S.account files.old.items) audit.old audit.new }
{
    for i in 0..files.len() {
        files[i].learn(books, audit);
    }
}
