//! All files come home, each with its pass.
ghost use Rattle.std.specs.Prelude.{◌≡◌, ◌+◌, ◌≤◌, ℕ, List, Some, None, slice_get, vec_len, vec_capacity};
ghost use Rattle.image_law.specs.Items.{Among};
ghost use Rattle.area_emptying.specs.Home.{AreAtHome};
ghost use Rattle.area_emptying.specs.Rows.{HaveNothing};
ghost use Rattle.file_cells.specs.Cell.{CellView};
ghost use Rattle.file_cells.specs.Pass.{Pass};
ghost use Rattle.checkpoint_sync.specs.WrittenFiles.{AreWritten};
ghost use Rattle.rights_permits.specs.Turns.{at_home};
ghost use Rattle.close_area.specs.Returned.{living, AreGiven, AreReturned, IsFileOf};

use crate::file::return_file;
use crate::written::WrittenFile;
use area_emptying::OwnedArea;
use device::Block;
use file_cells::FilePass;
use rights_books::{CallAccount, FileAccount};
use rights_permits::VolumeName;

// Spends each pass, and gives back all that its file has. Where the files that live are no more than the passes, none lives
// then.
pub(crate) fn return_files<V: VolumeName, B: Block + Drop>(
    area: &mut OwnedArea<V, B>,
    hand: &mut CallAccount,
    files: &mut Vec<WrittenFile<V, B>>,
    mut passes: Vec<FilePass<V>>,
)
    requires hand { hand.old ≡ at_home V.Books.books.book }
    requires files { AreWritten V.Books.books.book V.Numbers.geometry files.old.items }
    requires every { vec_len files.old ≡ V.Numbers.geometry.files }
    ensures hand { hand.new ≡ at_home V.Books.books.book }
    ensures every { vec_len files.new ≡ V.Numbers.geometry.files }
    ensures numbers { (k : ℕ) (c : CellView B B.Lease) → slice_get files.new.items k ≡ Some c → c.number ≡ k + 1 }
    ensures count { living files.new.items + vec_len passes ≡ living files.old.items }
    ensures given { AreGiven passes.items files.old.items files.new.items }
    ensures shown { (pass : Pass) → Among pass passes.items → IsFileOf files.old.items pass }
    ensures home { (bytes : ℕ → List ℕ) → AreAtHome bytes area.new.segments.items
        → AreAtHome bytes area.old.segments.items × AreReturned bytes files.old.items files.new.items }
{
    'passes: while let Some(pass) = passes.pop() {
        let place = pass.number() as usize - 1;
        let file = files[place].take(area.books(), hand, pass);
        return_file(area, hand, file);
    }
}

// The accounts of numbers that have no files. There is room for them.
pub(crate) fn into_accounts<V: VolumeName, B: Block + Drop>(
    mut files: Vec<WrittenFile<V, B>>,
    mut accounts: Vec<FileAccount>,
) -> Vec<FileAccount>
    requires numbers { (k : ℕ) (c : CellView B B.Lease) → slice_get files.items k ≡ Some c → c.number ≡ k + 1 }
    requires none { living files.items ≡ 0 }
    requires no_accounts { vec_len accounts ≡ 0 }
    requires room { vec_len files ≤ vec_capacity accounts }
    ensures accounts { HaveNothing V.Books.books.book result.items }
    ensures count { vec_len result ≡ vec_len files }
{
    files.reverse();
    'files: while let Some(file) = files.pop() {
        accounts.push_reserved(file.into_cell().into_account());
    }
    files.destroy_empty();
    accounts
}
